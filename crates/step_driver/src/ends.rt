//! How a run ended for each actor.

ghost use Rattle.std.specs.Prelude.{◌≡◌, [], ◌∷◌, ◌++◌, length, map, filter_map, IfOk, OnOk};
ghost use Rattle.step_driver.specs.Places.{spots, spot_of, player_at};
ghost use Rattle.step_driver.specs.Running.{end_view, end_at, end_of, ends_at, AreKept, IsKept, IsKeptAt};

use crate::hired::Mouth;
use crate::place::Place;
use crate::player::Player;
use hb_rules::{Actor, Book, End, PlainBook};
use std::alloc::{AllocError, Global};

// The end of each actor, in the order of the places. What an actor keeps holds of each.
pub(crate) fn ends_of<A: Actor<PlainBook>, L: Mouth>(
    alloc: Global,
    places: &[Place<A, L>],
) -> Result<Vec<End>, AllocError>
    ensures ends { IfOk result (λ ends. map end_view ends.items ≡ filter_map end_of (spots A.seat A.view places.now)) }
    ensures kept { OnOk result (AreKept (length places.now) (spots A.seat A.view places.now)) }
{
    let mut ends = Vec::new(alloc);
    for number in 0..places.len() {
        let place = &places[number];
        add_end(alloc, &mut ends, place)?;
    }
    Ok(ends)
}

// Adds the end of the actor at a place, if one is there.
fn add_end<A: Actor<PlainBook>, L: Mouth>(
    alloc: Global,
    ends: &mut Vec<End>,
    place: &Place<A, L>,
) -> Result<(), AllocError>
    ensures ends { OnOk result (map end_view ends.new.items ≡ map end_view ends.old.items ++ ends_at (spot_of A.seat A.view place.now)) }
    ensures kept { OnOk result (IsKeptAt (spot_of A.seat A.view place.now)) }
{
    match place {
        Place::Correct(player) => {
            let end = end_of::<PlainBook, A>(alloc, player)?;
            ends.push(end)?;
            Ok(())
        }
        Place::Lying(_) => Ok(()),
    }
}

/// The end of an actor over any kind of book, which is as the actor keeps it in every state. Err is want of memory.
pub fn end_of<B: Book, A: Actor<B>>(alloc: Global, player: &Player<A>) -> Result<End, AllocError>
    ensures end { IfOk result (λ end. end_view end ≡ end_at (player_at B.config B.node B.actor B.seen A.seat A.view player.now.actor player.now.fate)) }
    ensures kept { OnOk result (IsKept (player_at B.config B.node B.actor B.seen A.seat A.view player.now.actor player.now.fate)) }
{
    player.actor.kept();
    Ok(End {
        node: player.actor.node(),
        actor: player.actor.actor(),
        fate: player.fate,
        got: Vec::from_slice(alloc, player.actor.got())?,
        note: player.actor.note(),
    })
}
