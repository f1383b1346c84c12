//! Four seats that post a vote again and again, each on a thread of its own, and a liar's seat beside them.
ghost use Rattle.std.specs.Prelude.{◌≡◌, ◌<◌, true, false, [], ◌∷◌, ◌++◌, Contains};
ghost use Rattle.hb_base.specs.NodeSet.{is_in};
ghost use Rattle.post_book.specs.Numbering.{seat_number};
ghost use Rattle.book_cases.specs.Posting.{MayPost, IsSame};
ghost use Rattle.book_cases.specs.Run.{IsRun, empty_proposal};

use crate::pair::post_once;
use crate::seating::{close_all, take_in};
use hb_base::Config;
use hb_rules::{Book, BookFault};
use hb_wire::{Post, To, Vote};
use post_book::{FirstSeat, Naming, PostBook, SharedBook, SharedSeat};
use std::alloc::{AllocError, Global};
use std::sync::Wait;
use std::thread::{Threads, join};

pub(crate) const MANY: u32 = 1_000;

// A seat, and what it was told.
#[derive(Drop)]
struct Sent<J: Naming> {
    seat: SharedSeat<J>,
    numbers: Vec<u32>,
}

// Four desks of as many nodes, or what they were told.
#[derive(Drop)]
pub(crate) struct Four<T> {
    pub a: T,
    pub b: T,
    pub c: T,
    pub d: T,
}

// The closed history, what each of the four was told, and what the liar.
#[derive(Drop)]
pub(crate) struct Crowd {
    pub history: Vec<Post>,
    pub desks: Four<Vec<u32>>,
    pub liar: Vec<u32>,
}

// Notes a number that was told.
fn note(numbers: &mut Vec<u32>, told: Result<u32, BookFault>) -> Result<(), BookFault> {
    numbers.push(told?)?;
    Ok(())
}

// Posts a vote many times, and answers the numbers that it was told, in order. Where a post was refused there are fewer.
fn post_many<J: Naming, R: Wait>(
    rt: &R,
    alloc: Global,
    book: &PostBook<J>,
    seat: &mut SharedSeat<J>,
    vote: &Vote,
) -> Vec<u32>
    requires { MayPost book.now vote.now seat.old }
    ensures { IsSame seat.old seat.new }
{
    let mut numbers = Vec::new(alloc);
    for _ in 0..MANY {
        let told = post_once(rt, book, seat, vote);
        let _ = note(&mut numbers, told);
    }
    numbers
}

// Which actor lie k names.
pub(crate) fn actor_of(k: u32) -> u8 {
    (k % 5) as u8
}

// Lie k has the number k as its bytes.
fn lie_once<J: Naming, R: Wait>(
    rt: &R,
    book: &PostBook<J>,
    seat: &mut SharedSeat<J>,
    k: u32,
) -> Result<u32, BookFault>
    requires book { seat.old.book ≡ book.now }
    requires liar { is_in seat.old.seat.config.liars seat.old.seat.node ≡ true }
    ensures same { IsSame seat.old seat.new }
    ensures book { seat.new.book ≡ book.now }
    ensures liar { is_in seat.new.seat.config.liars seat.new.seat.node ≡ true }
{
    let mut shared = SharedBook::at(rt, book);
    shared.lie(seat, actor_of(k), To::All, &k.to_be_bytes())
}

// Lies many times, and answers the numbers that it was told, in order.
fn lie_many<J: Naming, R: Wait>(
    rt: &R,
    alloc: Global,
    book: &PostBook<J>,
    seat: &mut SharedSeat<J>,
) -> Vec<u32>
    requires book { seat.old.book ≡ book.now }
    requires liar { is_in seat.old.seat.config.liars seat.old.seat.node ≡ true }
    ensures { IsSame seat.old seat.new }
{
    let mut numbers = Vec::new(alloc);
    for k in 0..MANY {
        let told = lie_once(rt, book, seat, k);
        let _ = note(&mut numbers, told);
    }
    numbers
}

// The same, with the seat handed in and back, as a thread has it.
fn sent_by<J: Naming, R: Wait>(
    rt: &R,
    alloc: Global,
    book: &PostBook<J>,
    mut seat: SharedSeat<J>,
    vote: &Vote,
) -> Sent<J>
    requires { MayPost book.now vote.now seat }
    ensures { IsSame seat result.seat }
{
    let numbers = post_many(rt, alloc, book, &mut seat, vote);
    Sent { seat, numbers }
}

fn lied_by<J: Naming, R: Wait>(
    rt: &R,
    alloc: Global,
    book: &PostBook<J>,
    mut seat: SharedSeat<J>,
) -> Sent<J>
    requires book { seat.book ≡ book.now }
    requires liar { is_in seat.seat.config.liars seat.seat.node ≡ true }
    ensures { IsSame seat result.seat }
{
    let numbers = lie_many(rt, alloc, book, &mut seat);
    Sent { seat, numbers }
}

fn on_two_threads<'a, J: Naming + Send + Sync, R: Threads + Wait + Sync>(
    rt: &'a R,
    alloc: Global,
    book: &'a PostBook<J>,
    a: SharedSeat<J>,
    b: SharedSeat<J>,
    vote: &Vote,
) -> (Sent<J>, Sent<J>)
    requires a { MayPost book.now vote.now a }
    requires b { MayPost book.now vote.now b }
    ensures a { IsSame a result.0.seat }
    ensures b { IsSame b result.1.seat }
{
    join(
        rt,
        || -> Sent<J>
            requires { MayPost book.now vote.now a }
            ensures { IsSame a result.seat }
        { sent_by(rt, alloc, book, a, vote) },
        || -> Sent<J>
            requires { MayPost book.now vote.now b }
            ensures { IsSame b result.seat }
        { sent_by(rt, alloc, book, b, vote) },
    )
}

fn on_four_threads<'a, J: Naming + Send + Sync, R: Threads + Wait + Sync>(
    rt: &'a R,
    alloc: Global,
    book: &'a PostBook<J>,
    seats: Four<SharedSeat<J>>,
    vote: &Vote,
) -> Four<Sent<J>>
    requires a { MayPost book.now vote.now seats.a }
    requires b { MayPost book.now vote.now seats.b }
    requires c { MayPost book.now vote.now seats.c }
    requires d { MayPost book.now vote.now seats.d }
    ensures a { IsSame seats.a result.a.seat }
    ensures b { IsSame seats.b result.b.seat }
    ensures c { IsSame seats.c result.c.seat }
    ensures d { IsSame seats.d result.d.seat }
{
    let Four { a, b, c, d } = seats;
    let ((a, b), (c, d)) = join(
        rt,
        || -> (Sent<J>, Sent<J>)
            requires a { MayPost book.now vote.now a }
            requires b { MayPost book.now vote.now b }
            ensures a { IsSame a result.0.seat }
            ensures b { IsSame b result.1.seat }
        { on_two_threads(rt, alloc, book, a, b, vote) },
        || -> (Sent<J>, Sent<J>)
            requires c { MayPost book.now vote.now c }
            requires d { MayPost book.now vote.now d }
            ensures c { IsSame c result.0.seat }
            ensures d { IsSame d result.1.seat }
        { on_two_threads(rt, alloc, book, c, d, vote) },
    );
    Four { a, b, c, d }
}

// Four desks and a liar, each on a thread of its own.
fn on_five_threads<'a, J: Naming + Send + Sync, R: Threads + Wait + Sync>(
    rt: &'a R,
    alloc: Global,
    book: &'a PostBook<J>,
    seats: Four<SharedSeat<J>>,
    liar: SharedSeat<J>,
    vote: &Vote,
) -> (Four<Sent<J>>, Sent<J>)
    requires a { MayPost book.now vote.now seats.a }
    requires b { MayPost book.now vote.now seats.b }
    requires c { MayPost book.now vote.now seats.c }
    requires d { MayPost book.now vote.now seats.d }
    requires book { liar.book ≡ book.now }
    requires liar { is_in liar.seat.config.liars liar.seat.node ≡ true }
    ensures a { IsSame seats.a result.0.a.seat }
    ensures b { IsSame seats.b result.0.b.seat }
    ensures c { IsSame seats.c result.0.c.seat }
    ensures d { IsSame seats.d result.0.d.seat }
    ensures liar { IsSame liar result.1.seat }
{
    join(
        rt,
        || -> Four<Sent<J>>
            requires a { MayPost book.now vote.now seats.a }
            requires b { MayPost book.now vote.now seats.b }
            requires c { MayPost book.now vote.now seats.c }
            requires d { MayPost book.now vote.now seats.d }
            ensures a { IsSame seats.a result.a.seat }
            ensures b { IsSame seats.b result.b.seat }
            ensures c { IsSame seats.c result.c.seat }
            ensures d { IsSame seats.d result.d.seat }
        { on_four_threads(rt, alloc, book, seats, vote) },
        || -> Sent<J>
            requires book { liar.book ≡ book.now }
            requires liar { is_in liar.seat.config.liars liar.seat.node ≡ true }
            ensures { IsSame liar result.seat }
        { lied_by(rt, alloc, book, liar) },
    )
}

// Takes in the five seats that were made, and closes the book.
fn closed<J: Naming>(
    book: PostBook<J>,
    first: FirstSeat<J>,
    sent: Four<Sent<J>>,
    lied: Sent<J>,
) -> Crowd
    requires book { first.book ≡ book }
    requires two { (sent.a.seat.book ≡ book) × (sent.b.seat.book ≡ book) }
    requires more { (sent.c.seat.book ≡ book) × (sent.d.seat.book ≡ book) × (lied.seat.book ≡ book) }
    requires given { first.given ≡ seat_number sent.a.seat.seat.node sent.a.seat.seat.actor ∷ seat_number sent.b.seat.seat.node sent.b.seat.seat.actor
        ∷ seat_number sent.c.seat.seat.node sent.c.seat.seat.actor ∷ seat_number sent.d.seat.seat.node sent.d.seat.seat.actor
        ∷ seat_number lied.seat.seat.node lied.seat.seat.actor ∷ [] }
{
    let Four { a, b, c, d } = sent;
    let mut first = first;
    take_in(&book, &mut first, a.seat);
    take_in(&book, &mut first, b.seat);
    take_in(&book, &mut first, c.seat);
    take_in(&book, &mut first, d.seat);
    take_in(&book, &mut first, lied.seat);
    let history = close_all(book, first);
    let desks = Four {
        a: a.numbers,
        b: b.numbers,
        c: c.numbers,
        d: d.numbers,
    };
    Crowd {
        history,
        desks,
        liar: lied.numbers,
    }
}

/// The seat of the desk of node 0, 1, 2 or 3, where nothing was posted.
pub fn desk_seat<J: Naming>(book: &PostBook<J>, first: &mut FirstSeat<J>, node: u8) -> SharedSeat<J>
    requires book { first.old.book ≡ book.now }
    requires run { IsRun J.config }
    requires none { first.old.seen ≡ [] }
    requires honest { (node < 4) × (is_in J.config.liars node ≡ false) }
    requires fresh { ¬ Contains first.old.given (seat_number node 5) }
    ensures first { first.new ≡ record first.old { given = first.old.given ++ seat_number node 5 ∷ [] } }
    ensures place { (result.seat.node ≡ node) × (result.seat.actor ≡ 5) }
    ensures may { MayPost book.now empty_proposal result }
{
    book.seat_for(first, node, 5)
}

// The desks of the nodes 0 to 3 post a proposal many times each, and node 4 lies as often.
pub(crate) fn post_beside<J: Naming + Send + Sync, R: Threads + Wait + Sync>(
    rt: &R,
    alloc: Global,
    config: &Config,
    vote: &Vote,
) -> Result<Crowd, AllocError>
    requires config { config.now ≡ J.config }
    requires run { IsRun J.config }
    requires vote { vote.now ≡ empty_proposal }
{
    let (book, mut first) = PostBook::<J>::new(alloc, config)?;
    let a = desk_seat(&book, &mut first, 0);
    let b = desk_seat(&book, &mut first, 1);
    let c = desk_seat(&book, &mut first, 2);
    let d = desk_seat(&book, &mut first, 3);
    let liar = book.seat_for(&mut first, 4, 255);
    let seats = Four { a, b, c, d };
    let (sent, lied) = on_five_threads(rt, alloc, &book, seats, liar, vote);
    Ok(closed(book, first, sent, lied))
}
