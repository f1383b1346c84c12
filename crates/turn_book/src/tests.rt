//! Threads add entries, and the closed history has each of them once, in the order of its thread.
ghost use Rattle.std.specs.Prelude.{◌≡◌, false};

use crate::notes::{Notes, close_two, leave_note};
use crate::{Seat, TurnBook};
use std::mem::size_of;
use std::sync::Wait;
use std::test::Fail;
use std::thread::{Threads, join};

// So many that threads meet often, and one that no turn wakes would sleep for ever.
const MANY: u32 = 200_000;

// Adds as many notes, each in a turn.
fn add_all<R: Wait>(
    rt: &R,
    book: &TurnBook<Notes>,
    mut seat: Seat<Notes>,
    by: u32,
    many: u32,
) -> Seat<Notes>
    requires { (seat.book ≡ book.now) × (seat.in_turn ≡ false) × (seat.number ≡ by) }
    ensures { (result.book ≡ book.now) × (result.in_turn ≡ false) × (result.number ≡ by) }
{
    for count in 0..many {
        let _ = leave_note(rt, book, &mut seat, by, count);
    }
    seat
}

// Two threads with a seat each.
fn two<R: Threads + Wait + Sync>(
    rt: &R,
    book: &TurnBook<Notes>,
    a: Seat<Notes>,
    b: Seat<Notes>,
    first: u32,
    second: u32,
) -> (Seat<Notes>, Seat<Notes>)
    requires a { (a.book ≡ book.now) × (a.in_turn ≡ false) × (a.number ≡ first) }
    requires b { (b.book ≡ book.now) × (b.in_turn ≡ false) × (b.number ≡ second) }
    ensures a { (result.0.book ≡ book.now) × (result.0.in_turn ≡ false) × (result.0.number ≡ first) }
    ensures b { (result.1.book ≡ book.now) × (result.1.in_turn ≡ false) × (result.1.number ≡ second) }
{
    join(
        rt,
        || -> Seat<Notes>
            requires { (a.book ≡ book.now) × (a.in_turn ≡ false) × (a.number ≡ first) }
            ensures { (result.book ≡ book.entry.now) × (result.in_turn ≡ false) × (result.number ≡ first) }
        { add_all(rt, book, a, first, MANY) },
        || -> Seat<Notes>
            requires { (b.book ≡ book.now) × (b.in_turn ≡ false) × (b.number ≡ second) }
            ensures { (result.book ≡ book.entry.now) × (result.in_turn ≡ false) × (result.number ≡ second) }
        { add_all(rt, book, b, second, MANY) },
    )
}

// Whether the notes of one thread are all there, in its order.
fn is_whole(notes: &Notes, by: u32, many: u32) -> bool {
    let mut next = 0u32;
    for note in &notes.items {
        if note.by == by {
            if note.count != next {
                return false;
            }
            next = next.wrapping_add(1);
        }
    }
    next == many
}

#[test]
fn two_threads(rt: HostRuntime) -> Result<(), Fail> {
    let (book, mut first) = TurnBook::new(rt.alloc(), Notes::new(rt.alloc()))?;
    let a = book.split(&mut first, 1);
    let b = book.split(&mut first, 2);
    let (a, b) = two(&rt, &book, a, b, 1, 2);
    let notes = close_two(book, first, a, b);
    assert_eq!(rt; notes.items.len(), 2 * MANY as usize);
    assert!(rt; is_whole(&notes, 1, MANY) && is_whole(&notes, 2, MANY));
    Ok(())
}

// Four threads with a seat each, of which the first two have seats a and b.
fn four<R: Threads + Wait + Sync>(
    rt: &R,
    book: &TurnBook<Notes>,
    a: Seat<Notes>,
    b: Seat<Notes>,
    c: Seat<Notes>,
    d: Seat<Notes>,
) -> ((Seat<Notes>, Seat<Notes>), (Seat<Notes>, Seat<Notes>))
    requires a { (a.book ≡ book.now) × (a.in_turn ≡ false) × (a.number ≡ 1) }
    requires b { (b.book ≡ book.now) × (b.in_turn ≡ false) × (b.number ≡ 2) }
    requires c { (c.book ≡ book.now) × (c.in_turn ≡ false) × (c.number ≡ 3) }
    requires d { (d.book ≡ book.now) × (d.in_turn ≡ false) × (d.number ≡ 4) }
    ensures a { (result.0.0.book ≡ book.now) × (result.0.0.in_turn ≡ false) × (result.0.0.number ≡ 1) }
    ensures b { (result.0.1.book ≡ book.now) × (result.0.1.in_turn ≡ false) × (result.0.1.number ≡ 2) }
    ensures c { (result.1.0.book ≡ book.now) × (result.1.0.in_turn ≡ false) × (result.1.0.number ≡ 3) }
    ensures d { (result.1.1.book ≡ book.now) × (result.1.1.in_turn ≡ false) × (result.1.1.number ≡ 4) }
{
    join(
        rt,
        || -> (Seat<Notes>, Seat<Notes>)
            requires a { (a.book ≡ book.now) × (a.in_turn ≡ false) × (a.number ≡ 1) }
            requires b { (b.book ≡ book.now) × (b.in_turn ≡ false) × (b.number ≡ 2) }
            ensures a { (result.0.book ≡ book.entry.now) × (result.0.in_turn ≡ false) × (result.0.number ≡ 1) }
            ensures b { (result.1.book ≡ book.entry.now) × (result.1.in_turn ≡ false) × (result.1.number ≡ 2) }
        { two(rt, book, a, b, 1, 2) },
        || -> (Seat<Notes>, Seat<Notes>)
            requires c { (c.book ≡ book.now) × (c.in_turn ≡ false) × (c.number ≡ 3) }
            requires d { (d.book ≡ book.now) × (d.in_turn ≡ false) × (d.number ≡ 4) }
            ensures c { (result.0.book ≡ book.entry.now) × (result.0.in_turn ≡ false) × (result.0.number ≡ 3) }
            ensures d { (result.1.book ≡ book.entry.now) × (result.1.in_turn ≡ false) × (result.1.number ≡ 4) }
        { two(rt, book, c, d, 3, 4) },
    )
}

#[test]
fn four_threads(rt: HostRuntime) -> Result<(), Fail> {
    let (book, mut first) = TurnBook::new(rt.alloc(), Notes::new(rt.alloc()))?;
    let a = book.split(&mut first, 1);
    let b = book.split(&mut first, 2);
    let c = book.split(&mut first, 3);
    let d = book.split(&mut first, 4);
    let ((a, b), (c, d)) = four(&rt, &book, a, b, c, d);
    book.join(&mut first, a);
    book.join(&mut first, b);
    book.join(&mut first, c);
    book.join(&mut first, d);
    let notes = book.close(first);
    assert_eq!(rt; notes.items.len(), 4 * MANY as usize);
    assert!(rt; is_whole(&notes, 1, MANY) && is_whole(&notes, 2, MANY));
    assert!(rt; is_whole(&notes, 3, MANY) && is_whole(&notes, 4, MANY));
    Ok(())
}

// One thread takes turns with two seats, which meet before and after, and the first seat takes one too.
#[test]
fn seats_of_one_thread(rt: HostRuntime) -> Result<(), Fail> {
    assert_eq!(rt; size_of::<Seat<Notes>>(), 0);
    let (book, mut first) = TurnBook::new(rt.alloc(), Notes::new(rt.alloc()))?;
    let mut a = book.split(&mut first, 7);
    let mut b = book.split(&mut first, 9);
    book.meet(&mut a, &mut b);
    leave_note(&rt, &book, &mut a, 7, 0)?;
    book.meet(&mut b, &mut a);
    leave_note(&rt, &book, &mut b, 9, 0)?;
    leave_note(&rt, &book, &mut b, 9, 1)?;
    book.meet(&mut a, &mut b);
    leave_note(&rt, &book, &mut a, 7, 1)?;
    book.join(&mut first, b);
    leave_note(&rt, &book, &mut first, 0, 0)?;
    book.join(&mut first, a);
    let notes = book.close(first);
    assert_eq!(rt; notes.items.len(), 5);
    for (at, by, count) in [(0, 7, 0), (1, 9, 0), (2, 9, 1), (3, 7, 1), (4, 0, 0)] {
        let note = notes.items.as_slice().get(at).ok_or("a note")?;
        assert_eq!(rt; (note.by, note.count), (by, count), "at {at}");
    }
    Ok(())
}
