//! The steps of a book on its table, which several of its calls make.
ghost use Rattle.std.specs.Prelude.{◌≡◌, ℕ, ◌<◌, [], true, false, Some, Contains};
ghost use Rattle.turn_book.specs.Kept.{IsTable};
ghost use Rattle.turn_book.specs.Told.{Settles, Takes, left_of, right_of};

use crate::history::History;
use crate::plays::{Look, Numbered, Numbering, Settle};
use crate::view::{AWAITED, FREE, HELD, LOCK, Place, Top};
use std::sync::Wait;

// Makes a seat with this number, which is the one that the call picks.
pub(crate) fn split_as<S: History, N: Numbering>(
    top: &Top<S>,
    place: &mut Place<S>,
    number: u32,
) -> Place<S>
    requires table { (place.old.table_id ≡ top.now.table_id) × IsTable top.now.table_id }
    requires first { place.old.me.0.number ≡ Some 0 }
    requires number { (number ≡ N.number) × (0 < number) × (¬ Contains place.old.me.0.given number) }
    ensures place { (place.new.table_id ≡ place.old.table_id) × (place.new.me ≡ (left_of number place.old.me.0, place.old.me.1)) }
    ensures new { (result.table_id ≡ place.old.table_id) × (result.me ≡ (right_of number place.old.me.0, [])) }
{
    let _ = number;
    top.split_seat::<Numbered<N>>(place)
}

// Keeps the longer of the two beginnings that the seat knows.
pub(crate) fn settle<S: History>(top: &Top<S>, place: &mut Place<S>)
    requires table { (place.old.table_id ≡ top.now.table_id) × IsTable top.now.table_id }
    requires out { place.old.me.0.in_turn ≡ false }
    ensures table { place.new.table_id ≡ place.old.table_id }
    ensures settles { Settles S.names place.old.me place.new.me }
{
    top.load::<Settle>(place, LOCK);
}

// How often a thread looks at a held lock before it sleeps on it: most turns end sooner, and to sleep and be woken costs more.
// Nothing rests on it but speed.
const LOOKS: u32 = 100;

// Takes the slot, if it is free at one of some looks. Whether it took it.
fn takes_soon<S: History>(top: &Top<S>, place: &mut Place<S>) -> bool
    requires table { (place.old.table_id ≡ top.now.table_id) × IsTable top.now.table_id }
    requires number { (n : ℕ) × (place.old.me.0.number ≡ Some n) }
    requires out { (place.old.me.0.in_turn ≡ false) × (place.old.me.1 ≡ []) }
    ensures table { place.new.table_id ≡ place.old.table_id }
    ensures takes { result ≡ true → Takes S.entries S.names place.old.me place.new.me }
    ensures same { result ≡ false → place.new.me ≡ place.old.me }
{
    for _ in 0..LOOKS {
        if top.peek(LOCK) == FREE {
            if top.compare_exchange::<Look>(place, LOCK, FREE, HELD) == FREE {
                return true;
            }
        }
    }
    false
}

// Waits until no other seat has the slot, and takes it.
//
// A thread that finds the lock held looks again, up to the end of most turns. Then it marks the lock as awaited, and sleeps.
// A lock that it gets behind these looks it holds with that mark, since others may sleep.
pub(crate) fn wait<S: History, R: Wait>(rt: &R, top: &Top<S>, place: &mut Place<S>)
    requires table { (place.old.table_id ≡ top.now.table_id) × IsTable top.now.table_id }
    requires number { (n : ℕ) × (place.old.me.0.number ≡ Some n) }
    requires out { (place.old.me.0.in_turn ≡ false) × (place.old.me.1 ≡ []) }
    ensures table { place.new.table_id ≡ place.old.table_id }
    ensures takes { Takes S.entries S.names place.old.me place.new.me }
{
    if takes_soon(top, place) {
        return;
    }
    for _ in rt.forever() {
        if top.swap::<Look>(place, LOCK, AWAITED) == FREE {
            return;
        }
        top.park(rt, LOCK, AWAITED as u32);
    }
    unreachable!()
}
