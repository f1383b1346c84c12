//! A small caller of a book, which only the tests run: notes, and who leaves one in a turn.
ghost use Rattle.std.specs.Prelude.{◌≡◌, ◌+◌, false, [], ◌∷◌, ◌++◌, OnOk, OnErr};
ghost use Rattle.turn_book.specs.Entries.{entries_of};

use crate::{History, Seat, TurnBook};
use std::alloc::{AllocError, Global};
use std::sync::Wait;

// An entry: whose it is, and how many that seat had left before.
#[derive(Clone, Copy)]
pub(crate) struct Note {
    pub by: u32,
    pub count: u32,
}

#[derive(Drop)]
pub(crate) struct Notes {
    pub items: Vec<Note>,
}

impl History for Notes {
    type Entry = Note;

    ghost entries = { λ n. n.items.items };

    ghost names = { λ e. e.by };
}

impl Notes {
    pub(crate) fn new(alloc: Global) -> Notes
        ensures { result.items.items ≡ [] }
    {
        Notes {
            items: Vec::new(alloc),
        }
    }
}

// Leaves a note in a turn, unless there is no memory for it. The seat is shown the whole history, either way.
pub(crate) fn leave_note<R: Wait>(
    rt: &R,
    book: &TurnBook<Notes>,
    seat: &mut Seat<Notes>,
    by: u32,
    count: u32,
) -> Result<(), AllocError>
    requires { (seat.old.book ≡ book.now) × (seat.old.in_turn ≡ false) × (seat.old.number ≡ by) }
    ensures turn { seat.new ≡ record seat.old { looks = seat.old.looks + 1; seen = seat.new.seen; mine = seat.new.mine } }
    ensures left { OnOk result (seat.new.mine ≡ seat.old.mine ++ record { by = by; count = count } ∷ []) }
    ensures none { OnErr result (seat.new.mine ≡ seat.old.mine) }
{
    let mut notes = book.begin(rt, seat);
    let left = notes.items.push(Note { by, count });
    book.pass(seat, notes);
    Ok(left?)
}

// Takes in two seats, the only ones that the first has made, and closes the book.
pub(crate) fn close_two(
    book: TurnBook<Notes>,
    mut first: Seat<Notes>,
    a: Seat<Notes>,
    b: Seat<Notes>,
) -> Notes
    requires books { (first.book ≡ book) × (a.book ≡ book) × (b.book ≡ book) }
    requires turns { (first.in_turn ≡ false) × (a.in_turn ≡ false) × (b.in_turn ≡ false) }
    requires first { (first.number ≡ 0) × (first.given ≡ a.number ∷ b.number ∷ []) }
    ensures a { entries_of (λ note. note.by) a.number result.items.items ≡ a.mine }
    ensures b { entries_of (λ note. note.by) b.number result.items.items ≡ b.mine }
{
    book.join(&mut first, a);
    book.join(&mut first, b);
    book.close(first)
}
