//! What each step tells, and how seats are split and joined. These types are for the proofs alone.
ghost use Rattle.turn_book.specs.Told.{looked, settled, passed, left_of, right_of, bare, both_seen, both_ended, spent};

use crate::history::History;
use crate::view::View;
use atomic_table::{Join, Play, Split};
use std::marker::{Brand, PhantomData};

// A look at the lock, which is held from then on: it begins the turn where the lock was free.
pub(crate) struct Look;

impl<S: History> Play<Option<S>, View<S::Entry>> for Look {
    ghost then = { looked S.entries S.names };
}

// Of the two beginnings that the seat knows it keeps the longer.
pub(crate) struct Settle;

impl<S: History> Play<Option<S>, View<S::Entry>> for Settle {
    ghost then = { settled S.names };
}

// The value goes back, and the lock is free.
pub(crate) struct Pass;

impl<S: History> Play<Option<S>, View<S::Entry>> for Pass {
    ghost then = { passed S.entries };
}

// The number of a new seat. Each call picks it.
pub(crate) trait Numbering {
    ghost use Rattle.std.specs.Prelude.{ℕ};

    ghost number: { ℕ };
}

impl Numbering for Brand {
    ghost number = { 0 };
}

// A seat with a number is made.
pub(crate) struct Numbered<N> {
    numbering: PhantomData<N>,
}

impl<E, N: Numbering> Split<View<E>> for Numbered<N> {
    ghost left = { left_of N.number };

    ghost right = { right_of N.number };
}

// A seat with no number is made, which has seen what this one has.
pub(crate) struct Bare;

impl<E> Split<View<E>> for Bare {
    ghost left = { λ v. v };

    ghost right = { bare };
}

// A seat with no number is taken in.
pub(crate) struct Meet;

impl<E> Join<View<E>> for Meet {
    ghost both = { both_seen };

    ghost spent = { spent };
}

// A seat with a number is taken in, and has ended.
pub(crate) struct End<S> {
    history: PhantomData<S>,
}

impl<S: History> Join<View<S::Entry>> for End<S> {
    ghost both = { both_ended S.names };

    ghost spent = { spent };
}
