//! What a seat knows, and the rule that all seats of a book keep.
use crate::history::History;
use atomic_table::{Seat, Shared, Table, TableRule};
use std::alloc::Global;
use std::collections::LinkedList;

// The one word, which says whether a seat has the value. Threads that wait sleep on it.
pub(crate) const LOCK: usize = 0;

pub(crate) const FREE: u64 = 0;

// A seat has the value. Its turn ends without a wake: if a thread sleeps, a wake is on its way, or one that is awake marks the
// lock before it sleeps.
pub(crate) const HELD: u64 = 1;

// A seat has the value, and a thread may sleep: the turn ends with a wake.
pub(crate) const AWAITED: u64 = 2;

pub(crate) const WORDS: usize = 1;

// The one slot, which holds the value outside of turns.
pub(crate) const VALUE: usize = 0;

/// What a seat knows. No value of it is made.
pub struct View<E> {
    /// A beginning of the history.
    pub seen: LinkedList<E>,
    /// Another one, which a seat that was taken in had seen.
    pub beside: LinkedList<E>,
    /// The seat's number, which no other seat has. A seat that is made to be taken in at once has none.
    pub number: Option<u32>,
    /// Whether it is the seat's turn.
    pub in_turn: bool,
    /// How often the seat was shown the whole history.
    pub looks: u64,
    /// The numbers that were given to other seats. The first seat alone knows them.
    pub given: LinkedList<u32>,
    /// The numbers of the seats that were taken in, with the entries of each. The first seat alone knows them.
    pub ended: LinkedList<(u32, LinkedList<E>)>,
}

/// The rule of a book's table.
pub struct Turns;

impl<S: History> TableRule<Option<S>, View<S::Entry>, ()> for Turns {
    ghost use Rattle.turn_book.specs.Kept.{Kept};
    ghost use Rattle.turn_book.specs.Told.{first_view};

    ghost holds = { λ _. Kept S.entries S.names };

    ghost first = { λ _. first_view };
}

pub(crate) type Turntable<S> = Table<Option<S>, View<<S as History>::Entry>, (), Turns, Global>;

pub(crate) type Top<S> = Shared<Option<S>, View<<S as History>::Entry>, (), Turns>;

pub(crate) type Place<S> = Seat<Option<S>, View<<S as History>::Entry>>;
