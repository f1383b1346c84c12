//! How a run ended for each actor.
ghost use Rattle.std.specs.Prelude.{◌≡◌, map, All, IfOk, OnOk};
ghost use Rattle.step_driver.specs.Running.{end_view, end_at, IsKept};
ghost use Rattle.last_deliveries.specs.Settling.{players_of};

use hb_rules::{Actor, Book, End};
use std::alloc::{AllocError, Global};
use step_driver::{Player, end_of};

/// The ends of these actors, in their order. What an actor keeps holds of each. Err is want of memory.
pub fn ends_of<B: Book, A: Actor<B>>(
    alloc: Global,
    players: &[Player<A>],
) -> Result<Vec<End>, AllocError>
    ensures ends { IfOk result (λ ends. map end_view ends.items ≡ map end_at (players_of B.config B.node B.actor B.seen A.seat A.view players.now)) }
    ensures kept { OnOk result (All IsKept (players_of B.config B.node B.actor B.seen A.seat A.view players.now)) }
{
    let mut ends = Vec::new(alloc);
    for number in 0..players.len() {
        let player = &players[number];
        let end = end_of::<B, A>(alloc, player)?;
        ends.push(end)?;
    }
    Ok(ends)
}
