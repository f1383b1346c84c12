//! The book, and its turns.
ghost use Rattle.std.specs.Prelude.{◌≡◌, ℕ, ◌+◌, ◌<◌, ◌⊎◌, ◌++◌, true, false, List, [], ◌∷◌, Contains, IfOk};
ghost use mathlib.Core.List.{IsPrefix};
ghost use Rattle.turn_book.specs.Entries.{entries_of, AddsAtMostOne, NamesGiven};
ghost use Rattle.turn_book.specs.SeatState.{new_seat, AllEnded};

use crate::history::History;
use crate::plays::{Bare, End, Meet, Pass};
use crate::seat::Seat;
use crate::steps::{settle, split_as, wait};
use crate::view::{AWAITED, FREE, LOCK, Turntable, VALUE, WORDS};
use atomic_table::Table;
use std::alloc::{AllocError, Global};
use std::marker::{Brand, Model};
use std::sync::Wait;

/// A value whose history grows by turns. A clause sees the book as its name, which each of its seats has as `book`.
///
/// Every call takes only seats of this book. Only `new` takes memory, and only `begin` may wait.
#[derive(Drop)]
pub struct TurnBook<S: History + Drop> {
    table: Turntable<S>,
}

impl<S: History + Drop> Model for TurnBook<S> {
    ghost use Rattle.atomic_table.specs.Seated.{TableId, table_id_coded};
    ghost use Rattle.turn_book.specs.Kept.{IsTable};

    ghost Value = { TableId };

    ghost coded = { table_id_coded };

    ghost view = { λ b. b.table.shared.table_id };

    ghost invariant = { λ b. IsTable b.table.shared.table_id };
}

impl<S: History + Drop> TurnBook<S> {
    /// A book round a value with no entry, and its first seat, whose number is 0. The error means want of memory: the value is
    /// dropped.
    pub fn new(alloc: Global, first: S) -> Result<(TurnBook<S>, Seat<S>), AllocError>
        requires { S.entries first ≡ [] }
        ensures { IfOk result (λ r. r.1 ≡ new_seat r.0 0 []) }
    {
        let mut slots = Vec::with_capacity(alloc, 1)?;
        slots.push(Some(first))?;
        match Table::new(alloc, &[0; WORDS], slots, &()) {
            Ok((table, place)) => Ok((TurnBook { table }, Seat { place })),
            Err(_) => Err(AllocError),
        }
    }

    /// Makes a seat with a number that was not given before. It has seen what the first seat has, and added nothing.
    pub fn split(&self, seat: &mut Seat<S>, number: u32) -> Seat<S>
        requires book { seat.old.book ≡ self.now }
        requires first { (seat.old.number ≡ 0) × (seat.old.in_turn ≡ false) }
        requires number { (0 < number) × (¬ Contains seat.old.given number) }
        ensures first { seat.new ≡ record seat.old { given = seat.old.given ++ number ∷ [] } }
        ensures new { result ≡ new_seat self.now number seat.old.seen }
    {
        let top = &self.table.shared;
        let mut place = split_as::<S, Brand>(top, &mut seat.place, number);
        settle(top, &mut place);
        Seat { place }
    }

    /// Takes in a seat, whose number and entries the first seat knows as ended from then on. The first seat has then seen what
    /// either had. The number had been given, and had not ended before.
    pub fn join(&self, seat: &mut Seat<S>, other: Seat<S>)
        requires book { (seat.old.book ≡ self.now) × (other.book ≡ self.now) }
        requires first { seat.old.number ≡ 0 }
        requires turns { (seat.old.in_turn ≡ false) × (other.in_turn ≡ false) }
        ensures ended { seat.new ≡ record seat.old { seen = seat.new.seen; ended = seat.old.ended ++ (other.number, other.mine) ∷ [] } }
        ensures longer { (seat.new.seen ≡ seat.old.seen) ⊎ (seat.new.seen ≡ other.seen) }
        ensures both { IsPrefix seat.old.seen seat.new.seen × IsPrefix other.seen seat.new.seen }
        ensures given { Contains seat.old.given other.number }
        ensures once { (entries : List S.Entry) → ¬ Contains seat.old.ended (other.number, entries) }
    {
        let Seat { place } = other;
        let top = &self.table.shared;
        top.join_seat::<End<S>>(&mut seat.place, place);
        settle(top, &mut seat.place);
    }

    /// Lets a seat see what another one has seen: it keeps the longer of the two, which the shorter begins.
    pub fn meet(&self, seat: &mut Seat<S>, other: &mut Seat<S>)
        requires book { (seat.old.book ≡ self.now) × (other.old.book ≡ self.now) }
        requires turns { (seat.old.in_turn ≡ false) × (other.old.in_turn ≡ false) }
        ensures same { (seat.new ≡ record seat.old { seen = seat.new.seen }) × (other.new ≡ other.old) }
        ensures longer { (seat.new.seen ≡ seat.old.seen) ⊎ (seat.new.seen ≡ other.old.seen) }
        ensures both { IsPrefix seat.old.seen seat.new.seen × IsPrefix other.old.seen seat.new.seen }
    {
        let top = &self.table.shared;
        let place = top.split_seat::<Bare>(&mut other.place);
        top.join_seat::<Meet>(&mut seat.place, place);
        settle(top, &mut seat.place);
    }

    /// Waits for the seat's turn, and takes the value out. No other seat gets it before `pass` puts it back. A thread that waits
    /// looks for a while, and then sleeps.
    pub fn begin<R: Wait>(&self, rt: &R, seat: &mut Seat<S>) -> S
        requires book { seat.old.book ≡ self.now }
        requires turn { seat.old.in_turn ≡ false }
        ensures turn { seat.new ≡ record seat.old { in_turn = true; looks = seat.old.looks + 1; seen = S.entries result } }
        ensures begins { IsPrefix seat.old.seen (S.entries result) }
        ensures mine { entries_of S.names seat.old.number (S.entries result) ≡ seat.old.mine }
    {
        let top = &self.table.shared;
        wait(rt, top, &mut seat.place);
        match top.exchange(&mut seat.place, VALUE, None) {
            Some(value) => value,
            None => unreachable!(),
        }
    }

    /// Puts the value back, with at most one entry more, and ends the turn.
    pub fn pass(&self, seat: &mut Seat<S>, value: S)
        requires book { seat.old.book ≡ self.now }
        requires turn { seat.old.in_turn ≡ true }
        requires value { AddsAtMostOne S.names seat.old.number seat.old.seen (S.entries value) }
        ensures turn { seat.new ≡ record seat.old { in_turn = false; seen = S.entries value; mine = seat.new.mine } }
        ensures mine { (added : List S.Entry) → S.entries value ≡ seat.old.seen ++ added → seat.new.mine ≡ seat.old.mine ++ added }
    {
        let top = &self.table.shared;
        match top.exchange(&mut seat.place, VALUE, Some(value)) {
            None => {}
            Some(_) => unreachable!(),
        }
        if top.swap::<Pass>(&mut seat.place, LOCK, FREE) == AWAITED {
            top.wake_one(LOCK);
        }
    }

    /// Gives the value back, once each number given has ended: its history has the entries that the first seat knows, and no
    /// others.
    pub fn close(self, seat: Seat<S>) -> S
        requires book { seat.book ≡ self }
        requires first { (seat.number ≡ 0) × (seat.in_turn ≡ false) }
        requires ended { AllEnded seat }
        ensures begins { IsPrefix seat.seen (S.entries result) }
        ensures mine { entries_of S.names 0 (S.entries result) ≡ seat.mine }
        ensures ended { (number : ℕ) (entries : List S.Entry) → Contains seat.ended (number, entries) → entries_of S.names number (S.entries result) ≡ entries }
        ensures others { NamesGiven S.names seat.given (S.entries result) }
    {
        let TurnBook { table } = self;
        let Seat { place } = seat;
        let mut closed = table.close_with(place);
        let value = closed.take(VALUE);
        closed.free();
        match value {
            Some(value) => value,
            None => unreachable!(),
        }
    }
}
