//! A caller of a shared book: two actors post the same vote, one after another or each on a thread of its own.
ghost use Rattle.std.specs.Prelude.{◌≡◌, ℕ, ◌<◌, false, Some, [], ◌∷◌, All, Contains, IfOk};
ghost use Rattle.hb_base.specs.NodeSet.{is_in};
ghost use Rattle.hb_wire.specs.Votes.{Spells, spelling};
ghost use Rattle.hb_rules.specs.Book.{post_of, Watched};
ghost use Rattle.hb_rules.specs.History.{IsAllowed, IsLegal};
ghost use Rattle.post_book.specs.Numbering.{seat_number, post_number};
ghost use Rattle.book_cases.specs.Posting.{MayPost, IsSame, HasPosted, IsOfTwo};
ghost use Rattle.book_cases.specs.Seating.{HasAllOf};

use crate::seating::{close_all, take_in};
use hb_base::Config;
use hb_rules::{Book, BookFault};
use hb_wire::{Post, Vote};
use post_book::{FirstSeat, Naming, PostBook, SharedBook, SharedSeat};
use std::alloc::{AllocError, Global};
use std::sync::Wait;
use std::thread::{Threads, join};

// A seat, and what it was told of the vote that it posted.
#[derive(Drop)]
pub(crate) struct Told<J: Naming> {
    pub seat: SharedSeat<J>,
    pub number: Result<u32, BookFault>,
}

// What a seat reads.
#[derive(Drop)]
pub(crate) struct Look {
    pub at_0: Result<Option<Post>, AllocError>,
    pub again_0: Result<Option<Post>, AllocError>,
    pub at_2: Result<Option<Post>, AllocError>,
    pub count: u32,
}

// The closed history, what each of the two was told, and what the first read when both had posted.
#[derive(Drop)]
pub(crate) struct Pair {
    pub history: Vec<Post>,
    pub one: Result<u32, BookFault>,
    pub two: Result<u32, BookFault>,
    pub look: Look,
}

/// Posts a vote.
pub fn post_once<'a, J: Naming, R: Wait>(
    rt: &'a R,
    book: &'a PostBook<J>,
    seat: &mut SharedSeat<J>,
    vote: &Vote,
) -> Result<u32, BookFault>
    requires { MayPost book.now vote.now seat.old }
    ensures { HasPosted vote.now result seat.old seat.new }
{
    let mut shared = SharedBook::at(rt, book);
    shared.post(seat, vote)
}

// Posts a vote, with the seat handed in and back, as a thread has it.
fn post_by<'a, J: Naming, R: Wait>(
    rt: &'a R,
    book: &'a PostBook<J>,
    mut seat: SharedSeat<J>,
    vote: &Vote,
) -> Told<J>
    requires { MayPost book.now vote.now seat }
    ensures { HasPosted vote.now result.number seat result.seat }
{
    let number = post_once(rt, book, &mut seat, vote);
    Told { seat, number }
}

// Posts a vote and reads it back, whoever posts in between.
pub(crate) fn post_and_read<'a, J: Naming, R: Wait>(
    rt: &'a R,
    book: &'a PostBook<J>,
    seat: &mut SharedSeat<J>,
    vote: &Vote,
) -> Result<Option<Post>, BookFault>
    requires { MayPost book.now vote.now seat.old }
    ensures same { IsSame seat.old seat.new }
    ensures read { IfOk result (λ post. post ≡ Some (post_of seat.old.seat.node seat.old.seat.actor vote.now)) }
{
    let mut shared = SharedBook::at(rt, book);
    let number = shared.post(seat, vote)?;
    Ok(shared.read(seat, number)?)
}

// Reads post 0, once more from what the seat keeps of it, and post 2, and asks how many there are.
fn look_by<'a, J: Naming, R: Wait>(
    rt: &'a R,
    book: &'a PostBook<J>,
    seat: &mut SharedSeat<J>,
) -> Look
    requires { seat.old.book ≡ book.now }
    ensures same { IsSame seat.old seat.new }
    ensures watched { Watched seat.old.seat.config seat.old.seat.node seat.old.seat.actor seat.old.seat.seen seat.new.seat.seen }
    ensures legal { IsLegal seat.new.seat.config seat.new.seat.seen }
{
    let mut shared = SharedBook::at(rt, book);
    let at_0 = shared.read(seat, 0);
    let again_0 = shared.reread(seat, 0);
    let at_2 = shared.reread(seat, 2);
    let count = shared.posts(seat);
    seat.seen_is_legal();
    Look {
        at_0,
        again_0,
        at_2,
        count,
    }
}

// Posts a vote by two seats, each on a thread of its own.
fn post_beside<'a, J: Naming + Send + Sync, R: Threads + Wait + Sync>(
    rt: &'a R,
    book: &'a PostBook<J>,
    a: SharedSeat<J>,
    b: SharedSeat<J>,
    vote: &Vote,
) -> (Told<J>, Told<J>)
    requires a { MayPost book.now vote.now a }
    requires b { MayPost book.now vote.now b }
    ensures a { HasPosted vote.now result.0.number a result.0.seat }
    ensures b { HasPosted vote.now result.1.number b result.1.seat }
{
    join(
        rt,
        || -> Told<J>
            requires { MayPost book.now vote.now a }
            ensures { HasPosted vote.entry.now result.number a result.seat }
        { post_by(rt, book, a, vote) },
        || -> Told<J>
            requires { MayPost book.now vote.now b }
            ensures { HasPosted vote.entry.now result.number b result.seat }
        { post_by(rt, book, b, vote) },
    )
}

// Posts a vote by two seats, on two threads or one after another.
fn post_both<'a, J: Naming + Send + Sync, R: Threads + Wait + Sync>(
    rt: &'a R,
    book: &'a PostBook<J>,
    a: SharedSeat<J>,
    b: SharedSeat<J>,
    vote: &Vote,
    threads: bool,
) -> (Told<J>, Told<J>)
    requires a { MayPost book.now vote.now a }
    requires b { MayPost book.now vote.now b }
    ensures a { HasPosted vote.now result.0.number a result.0.seat }
    ensures b { HasPosted vote.now result.1.number b result.1.seat }
{
    if threads {
        post_beside(rt, book, a, b, vote)
    } else {
        (post_by(rt, book, a, vote), post_by(rt, book, b, vote))
    }
}

// Takes in the two seats of a vote that were made, and closes the book.
pub(crate) fn close_two<J: Naming>(
    book: PostBook<J>,
    mut first: FirstSeat<J>,
    a: SharedSeat<J>,
    b: SharedSeat<J>,
) -> Vec<Post>
    requires books { (first.book ≡ book) × (a.book ≡ book) × (b.book ≡ book) }
    requires given { first.given ≡ seat_number a.seat.node a.seat.actor ∷ seat_number b.seat.node b.seat.actor ∷ [] }
    ensures legal { IsLegal J.config result.items }
    ensures a { HasAllOf J.config a result.items }
    ensures b { HasAllOf J.config b result.items }
    ensures others { All (λ post. Contains first.given (post_number J.config post)) result.items }
{
    take_in(&book, &mut first, a);
    take_in(&book, &mut first, b);
    close_all(book, first)
}

// Actor `actor` of the nodes 0 and 1 posts a vote, on two threads or one after another, and then node 0's looks at the book.
pub(crate) fn post_two<J: Naming + Send + Sync, R: Threads + Wait + Sync>(
    rt: &R,
    alloc: Global,
    config: &Config,
    actor: u8,
    vote: &Vote,
    threads: bool,
) -> Result<Pair, AllocError>
    requires config { config.now ≡ J.config }
    requires nodes { 1 < J.config.n }
    requires honest { (is_in J.config.liars 0 ≡ false) × (is_in J.config.liars 1 ≡ false) }
    requires spelled { Spells J.config.n J.config.version (spelling vote.now) vote.now }
    requires allowed { (i : ℕ) → i < 2 → IsAllowed J.config i actor [] vote.now }
    ensures { IfOk result (λ pair. IsOfTwo J.config actor vote.now pair.one pair.two pair.history.items) }
{
    let made = PostBook::<J>::new(alloc, config)?;
    let (book, mut first) = made;
    let a = book.seat_for(&mut first, 0, actor);
    let b = book.seat_for(&mut first, 1, actor);
    let (mut a, b) = post_both(rt, &book, a, b, vote, threads);
    let look = look_by(rt, &book, &mut a.seat);
    let history = close_two(book, first, a.seat, b.seat);
    Ok(Pair {
        history,
        one: a.number,
        two: b.number,
        look,
    })
}
