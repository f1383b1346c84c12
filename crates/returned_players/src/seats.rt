//! The seats of all that came back.
ghost use Rattle.std.specs.Prelude.{◌≡◌, ◌++◌, map, IfOk};

use hb_rules::{Actor, Book};
use std::alloc::{AllocError, Global};
use step_driver::Player;

/// The seats of these actors, in their order, and behind them those of the nodes that lie. Err is want of memory.
pub fn seats_of<B: Book, A: Actor<B>>(
    alloc: Global,
    players: Vec<Player<A>>,
    liars: Vec<B::Seat>,
) -> Result<Vec<B::Seat>, AllocError>
    ensures { IfOk result (λ seats. seats.items ≡ map (λ player. A.seat player.actor) players.items ++ liars.items) }
{
    let mut seats = Vec::new(alloc);
    for player in players {
        let seat = seat_of::<B, A>(player);
        seats.push(seat)?;
    }
    for seat in liars {
        seats.push(seat)?;
    }
    Ok(seats)
}

// The seat of an actor.
fn seat_of<B: Book, A: Actor<B>>(player: Player<A>) -> B::Seat
    ensures { result ≡ A.seat player.actor }
{
    let Player { actor, fate: _ } = player;
    actor.into_seat()
}
