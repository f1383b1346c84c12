//! A plain book in use: that its calls find memory, which post stands where, and whom it reaches. What is proved of
//! `post_and_read` and `post_and_show` holds of every book.
ghost use Rattle.std.specs.Prelude.{◌≡◌, [], ◌∷◌, true, false, Some, IfOk, OnOk, IfSome};
ghost use Rattle.hb_base.specs.NodeSet.{is_in};
ghost use Rattle.hb_wire.specs.declared.vote.Vote.TheVariants.{Propose};
ghost use Rattle.hb_rules.specs.History.{IsAllowed, HasSpelling};
ghost use Rattle.hb_rules.specs.Book.{post_of, AreTwo, IsSeatOf, Moved};

use hb_base::{Bytes, Config, NodeSet};
use hb_rules::{Book, BookFault, PlainBook, PlainSeat};
use hb_wire::{Post, PostBytes, To, Vote, reaches};
use std::alloc::{AllocError, Global};
use std::test::Fail;

// Posts a vote and reads it back.
fn post_and_read<B: Book>(
    book: &mut B,
    seat: &mut B::Seat,
    vote: &Vote,
) -> Result<Option<Post>, BookFault>
    requires seat { B.knows book.old seat.old }
    requires spelled { HasSpelling (B.config seat.old) vote.now }
    requires allowed { IsAllowed (B.config seat.old) (B.node seat.old) (B.actor seat.old) (B.seen seat.old) vote.now }
    ensures seat { B.knows book.new seat.new }
    ensures moved { B.moved (B.node seat.old) (B.actor seat.old) book.old book.new }
    ensures read { IfOk result (λ post. post ≡ Some (post_of (B.node seat.old) (B.actor seat.old) vote.now)) }
{
    let number = book.post(seat, vote)?;
    Ok(book.read(seat, number)?)
}

// Posts a vote by one seat, shows it to another, and reads it by that.
fn post_and_show<B: Book>(
    book: &mut B,
    seat: &mut B::Seat,
    other: &mut B::Seat,
    vote: &Vote,
) -> Result<Option<Post>, BookFault>
    requires seat { B.knows book.old seat.old }
    requires other { B.knows book.old other.old }
    requires two { AreTwo (B.config other.old) (B.node seat.old) (B.actor seat.old) (B.node other.old) (B.actor other.old) }
    requires spelled { HasSpelling (B.config seat.old) vote.now }
    requires allowed { IsAllowed (B.config seat.old) (B.node seat.old) (B.actor seat.old) (B.seen seat.old) vote.now }
    ensures other { B.knows book.new other.new }
    ensures read { IfOk result (λ post. post ≡ Some (post_of (B.node seat.old) (B.actor seat.old) vote.now)) }
{
    let number = book.post(seat, vote)?;
    book.meet(other, seat);
    Ok(book.read(other, number)?)
}

// Four nodes, of which node 3 lies.
fn four_nodes() -> Option<Config>
    ensures { IfSome result (λ c. (c.n ≡ 4) × (c.epochs ≡ 2) × (c.version ≡ 1)
        × (is_in c.liars 0 ≡ false) × (is_in c.liars 1 ≡ false) × (is_in c.liars 2 ≡ false) × (is_in c.liars 3 ≡ true)) }
{
    let mut liars = NodeSet::new();
    liars.add(3);
    Config::new(4, 1, 2, 2, 1, 7, 1, liars)
}

// The proposal of an empty batch.
fn proposal(alloc: Global) -> Result<Vote, AllocError>
    ensures { IfOk result (λ vote. vote ≡ Propose 0 (0 ∷ 0 ∷ [])) }
{
    let value = Bytes::copy(alloc, &[0, 0])?;
    Ok(Vote::Propose { epoch: 0, value })
}

// The lies of the run, from the first on: as which actor, where to, and which bytes.
fn lie_at(k: u32) -> (u8, To, &'static [u8]) {
    match k {
        0 => (1, To::All, b"NoMore"),
        1 => (2, To::Node(0), &[0x11, 0]),
        2 => (0, To::Home, &[]),
        3 => (4, To::Book, b"?"),
        _ => (200, To::All, &[255]),
    }
}

fn tell_all(book: &mut PlainBook, liar: &mut PlainSeat) -> Result<(), BookFault>
    requires seat { IsSeatOf book.old liar.old }
    requires liar { is_in liar.old.config.liars liar.old.node ≡ true }
    ensures moved { OnOk result (Moved liar.old.node liar.old.actor book.old book.new) }
{
    for k in 0..5 {
        let (as_actor, to, bytes) = lie_at(k);
        book.lie(liar, as_actor, to, bytes)?;
    }
    Ok(())
}

// The run: the desk of node 0 posts its proposal, and then node 3 lies. The seat of the desk is handed back.
fn fill(book: &mut PlainBook, vote: &Vote) -> Result<PlainSeat, BookFault>
    requires none { book.old.posts ≡ [] }
    requires nodes { book.old.config.n ≡ 4 }
    requires epochs { book.old.config.epochs ≡ 2 }
    requires version { book.old.config.version ≡ 1 }
    requires honest { is_in book.old.config.liars 0 ≡ false }
    requires liar { is_in book.old.config.liars 3 ≡ true }
    requires vote { vote.now ≡ Propose 0 (0 ∷ 0 ∷ []) }
    ensures { IfOk result (λ seat. IsSeatOf book.new seat) }
{
    let mut desk = book.seat(0, 4);
    let mut liar = book.seat(3, 255);
    book.post(&mut desk, vote)?;
    tell_all(book, &mut liar)?;
    Ok(desk)
}

// Post k of the run: the proposal, and then the lies.
fn wanted(alloc: Global, k: u32) -> Result<Post, AllocError> {
    if k == 0 {
        return Ok(Post {
            from: 0,
            actor: 4,
            to: To::Home,
            bytes: PostBytes::plain(Bytes::copy(alloc, &[0x10, 0, 0, 0, 0, 2, 0, 0])?),
        });
    }
    let (actor, to, bytes) = lie_at(k - 1);
    Ok(Post {
        from: 3,
        actor,
        to,
        bytes: PostBytes::plain(Bytes::copy(alloc, bytes)?),
    })
}

// Which actors post k reaches, 5 a node and in order: a proposal the own lanes; what goes to all the actors of its number; what
// a lane sends home the own desk.
fn reached(k: u32) -> &'static [u8] {
    match k {
        0 => &[0, 1, 2, 3],
        1 => &[1, 6, 11, 16],
        2 => &[2],
        3 => &[19],
        _ => &[],
    }
}

// Which actors a post reaches, 5 a node and in order.
fn reach_of(alloc: Global, post: &Post) -> Result<Vec<u8>, AllocError> {
    let mut places = Vec::new(alloc);
    for place in 0u8..20 {
        if reaches(4, post, place / 5, place % 5) {
            places.push(place)?;
        }
    }
    Ok(places)
}

fn is_post(alloc: Global, post: &Post, k: u32) -> Result<bool, AllocError> {
    let same = *post == wanted(alloc, k)?;
    Ok(same && reach_of(alloc, post)?.as_slice() == reached(k))
}

// Whether post k is the one of the run, read twice, and reaches whom it is to reach. There is no seventh.
fn is_read(
    alloc: Global,
    book: &mut PlainBook,
    seat: &mut PlainSeat,
    k: u32,
) -> Result<bool, AllocError>
    requires { IsSeatOf book.old seat.old }
    ensures { IsSeatOf book.new seat.new }
{
    let first = book.read(seat, k)?;
    let again = book.reread(seat, k)?;
    match again {
        None => Ok(k == 6 && first.is_none()),
        Some(post) => Ok(first == Some(post.clone()?) && is_post(alloc, &post, k)?),
    }
}

#[test]
fn posts_stand_and_reach(rt: HostRuntime) -> Result<(), Fail> {
    let alloc = rt.alloc();
    let config = four_nodes().ok_or("a config")?;
    let mut book = PlainBook::new(alloc, &config);
    let vote = proposal(alloc)?;
    let mut seat = fill(&mut book, &vote)?;
    for k in 0..7 {
        assert!(rt; is_read(alloc, &mut book, &mut seat, k)?, "post {k}");
    }
    assert_eq!(rt; book.posts(&mut seat), 6);
    assert_eq!(rt; book.into_history().len(), 6);
    Ok(())
}

#[test]
fn what_is_posted_is_read(rt: HostRuntime) -> Result<(), Fail> {
    let alloc = rt.alloc();
    let config = four_nodes().ok_or("a config")?;
    let mut book = PlainBook::new(alloc, &config);
    let mut desk = book.seat(1, 4);
    let vote = proposal(alloc)?;
    assert!(rt; post_and_read(&mut book, &mut desk, &vote)?.is_some());
    assert_eq!(rt; book.history().len(), 1);
    assert_eq!(rt; book.config().n(), 4);
    Ok(())
}

#[test]
fn what_is_shown_is_read(rt: HostRuntime) -> Result<(), Fail> {
    let alloc = rt.alloc();
    let config = four_nodes().ok_or("a config")?;
    let mut book = PlainBook::new(alloc, &config);
    let mut desk = book.seat(2, 4);
    let mut lane = book.seat(2, 0);
    let vote = proposal(alloc)?;
    assert!(rt; post_and_show(&mut book, &mut desk, &mut lane, &vote)?.is_some());
    Ok(())
}
