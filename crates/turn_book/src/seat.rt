//! A seat of a book.
use crate::history::History;
use crate::view::Place;
use std::marker::Model;

/// A token of no bytes, with which one thread at a time takes its turns.
///
/// A clause sees it as a `SeatState`: which `book` it is of, its `number`, whether it is `in_turn`, the beginning of the history
/// that it has `seen`, the entries in it that are `mine`, how often it `looks` at the whole history, which is once in each turn,
/// and, of the first seat, the numbers `given` and those `ended`.
#[derive(Drop)]
pub struct Seat<S: History> {
    pub(crate) place: Place<S>,
}

impl<S: History> Model for Seat<S> {
    ghost use Rattle.turn_book.specs.SeatState.{SeatState, shown, IsReady};

    ghost Value = { SeatState S.Entry };

    ghost view = { λ s. shown S.names s.place.table_id s.place.me.0 };

    ghost invariant = { λ s. IsReady s.place.me };
}

impl<S: History> Seat<S> {
    ghost use Rattle.std.specs.Prelude.{◌≡◌};
    ghost use Rattle.turn_book.specs.Entries.{entries_of};

    /// What it calls its own are the entries of its number in what it has seen.
    pub fn entries_are_own(&self)
        ensures { self.now.mine ≡ entries_of S.names self.now.number self.now.seen }
    {
        let _ = &self.place;
    }
}
