//! Actors in the order of their nodes and numbers.
ghost use Rattle.std.specs.Prelude.{◌≡◌, ℕ, ◌<◌, ◌≤◌, length, insert, get_or, OnOk};
ghost use Rattle.std.specs.List.Sorted.{IsNonDecreasingBy};
ghost use Rattle.returned_players.specs.Ordering.{place_number};

use hb_rules::{Actor, Book};
use std::alloc::AllocError;
use step_driver::Player;

// The number of an actor's seat.
fn place_number<B: Book, A: Actor<B>>(player: &Player<A>) -> u32
    ensures { result ≡ place_number B.node B.actor A.seat player.now }
{
    player.actor.kept();
    1 + 256 * (player.actor.node() as u32) + (player.actor.actor() as u32)
}

// Where a player with this number comes behind those that are not after it. It looks from the end.
fn place_for<B: Book, A: Actor<B>>(players: &[Player<A>], number: u32) -> usize
    requires in_order { IsNonDecreasingBy (place_number B.node B.actor A.seat) players.now }
    ensures within { result ≤ length players.now }
    ensures before { (k : ℕ) (d : Player A) → k < result → place_number B.node B.actor A.seat (get_or players.now k d) ≤ number }
    ensures after { (k : ℕ) (d : Player A) → result ≤ k → k < length players.now → number ≤ place_number B.node B.actor A.seat (get_or players.now k d) }
{
    for place in (0..players.len()).rev() {
        if place_number::<B, A>(&players[place]) <= number {
            return place + 1;
        }
    }
    0
}

/// Puts a player among others that are in order, behind those that are not after it: by node, and at a node by their numbers. The
/// error is want of memory.
pub fn insert_in_order<B: Book, A: Actor<B>>(
    players: &mut Vec<Player<A>>,
    player: Player<A>,
) -> Result<(), AllocError>
    requires in_order { IsNonDecreasingBy (place_number B.node B.actor A.seat) players.old.items }
    ensures in_order { OnOk result (IsNonDecreasingBy (place_number B.node B.actor A.seat) players.new.items) }
    ensures one_more { OnOk result ((k : ℕ) × (k ≤ length players.old.items) × (players.new.items ≡ insert players.old.items k player)) }
{
    let place = place_for::<B, A>(players.as_slice(), place_number::<B, A>(&player));
    players.insert(place, player)?;
    Ok(())
}
