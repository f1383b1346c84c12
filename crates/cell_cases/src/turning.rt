//! Turns of a lane over a shared book.
ghost use Rattle.std.specs.Prelude.{◌≡◌, ◌<◌, true, false, [], All, IfSome};
ghost use Rattle.std.specs.Arc.{arc_value};
ghost use Rattle.hb_base.specs.NodeSet.{is_in};
ghost use Rattle.hb_rules.specs.Hearing.{own_in};
ghost use Rattle.actor_cell.specs.Mail.{IsSameTaker};
ghost use Rattle.actor_cell.specs.Passes.{ArePassesOf, AreDealt};

use crate::beginning::begin;
use crate::marking::CountingGate;
use actor_cell::{Boxes, Cell, Mail, Passes, RunName, Served};
use coin_deal::Deal;
use hb_rules::{Actor, Book, Fate};
use hb_wire::To;
use net_script::Script;
use post_book::{NamedBook, Naming, PostBook, SharedBook, SharedSeat};
use std::alloc::{AllocError, Global};
use std::marker::Brand;
use std::sync::{Arc, Wait};

/// The first passes, which are those of lane 0 of node 0, and the others.
pub fn first_passes(boxes: &Boxes, all: &mut Vec<Passes>) -> Option<Passes>
    requires dealt { AreDealt boxes.now.names all.old.items × All (ArePassesOf boxes.now) all.old.items }
    ensures first { IfSome result (λ passes. (passes.place ≡ 0) × ArePassesOf boxes.now passes) }
    ensures rest { All (ArePassesOf boxes.now) all.new.items }
{
    let _ = boxes;
    if all.is_empty() {
        return None;
    }
    Some(all.remove(0))
}

/// What two turns of the lane answered, how it fared, how often the gate was entered, and what it has received.
#[derive(Drop)]
pub struct Turns {
    pub one: Option<Served>,
    pub two: Option<Served>,
    pub fate: Fate,
    pub entered: u64,
    pub got: usize,
}

// Starts the lane over this book, and serves it twice.
fn turns_of<'b, B: NamedBook + Drop, J: RunName, R: Wait>(
    rt: &R,
    alloc: Global,
    script: &'b Script,
    deal: Arc<Deal, Global>,
    book: B,
    seat: B::Seat,
    mail: Mail<'b>,
) -> Turns
    requires plans { script.now.plans.items ≡ [] }
    requires deal { arc_value deal ≡ script.now.config }
    requires honest { is_in script.now.config.liars 0 ≡ false }
    requires nodes { 0 < script.now.config.n }
    requires book { B.knows book seat × (B.name book ≡ J.book) }
    requires script { J.is_script script.now }
    requires seat { (B.config seat ≡ script.now.config) × (B.node seat ≡ 0) × (B.actor seat ≡ 0) }
    requires unused { own_in script.now.config 0 0 (B.seen seat) ≡ [] }
    requires boxes { mail.boxes.config ≡ script.now.config }
    requires place { mail.passes.place ≡ 0 }
{
    let cell = Cell::new(begin::<B, J, R>(rt, alloc, script, deal, book, seat, mail));
    let gate = CountingGate::new();
    let one = cell.serve(rt, alloc, &gate);
    let two = cell.serve(rt, alloc, &gate);
    let (lane, fate, _) = cell.into_held().into_parts();
    Turns {
        one,
        two,
        fate,
        entered: gate.entered(),
        got: lane.got().len(),
    }
}

// The same over a shared book. The run is named here.
fn turn_twice<'a, 'b, K: Naming, J: RunName, R: Wait>(
    rt: &'a R,
    alloc: Global,
    script: &'b Script,
    deal: Arc<Deal, Global>,
    book: &'a PostBook<K>,
    seat: SharedSeat<K>,
    mail: Mail<'b>,
) -> Turns
    requires plans { script.now.plans.items ≡ [] }
    requires deal { arc_value deal ≡ script.now.config }
    requires honest { is_in script.now.config.liars 0 ≡ false }
    requires nodes { 0 < script.now.config.n }
    requires book { (seat.book ≡ book.now) × (book.now ≡ J.book) }
    requires script { J.is_script script.now }
    requires seat { (seat.seat.config ≡ script.now.config) × (seat.seat.node ≡ 0) × (seat.seat.actor ≡ 0) }
    requires unused { own_in script.now.config 0 0 seat.seat.seen ≡ [] }
    requires boxes { mail.boxes.config ≡ script.now.config }
    requires place { mail.passes.place ≡ 0 }
{
    let shared = SharedBook::at(rt, book);
    turns_of::<SharedBook<'a, R, K>, J, R>(rt, alloc, script, deal, shared, seat, mail)
}

// Puts the number of post 0 of the book, by the mail of the lane.
fn tell<K: Naming, R: Wait>(
    rt: &R,
    script: &Script,
    book: &PostBook<K>,
    liar: &mut SharedSeat<K>,
    mail: &mut Mail,
) -> Result<(), AllocError>
    requires book { liar.old.book ≡ book.now }
    ensures taker { IsSameTaker mail.old mail.new }
{
    let mut shared = SharedBook::at(rt, book);
    if let Some(post) = shared.read(liar, 0)? {
        mail.send(rt, script, &post, 0);
    }
    Ok(())
}

/// A lie of node 3 to lane 0 of all nodes stands in a new book and in the lane's mailbox when the lane is started, and then it is
/// served twice. None where there is no such mailbox. The error is want of memory.
pub fn hear_a_lie<K: Naming, R: Wait>(
    rt: &R,
    alloc: Global,
    script: &Script,
    deal: Arc<Deal, Global>,
) -> Result<Option<Turns>, AllocError>
    requires config { script.now.config ≡ K.config }
    requires plans { script.now.plans.items ≡ [] }
    requires deal { arc_value deal ≡ script.now.config }
    requires honest { is_in script.now.config.liars 0 ≡ false }
    requires liar { (is_in script.now.config.liars 3 ≡ true) × (3 < script.now.config.n) }
{
    let (book, mut first) = PostBook::<K>::new(alloc, &script.config)?;
    let seat = book.seat_for(&mut first, 0, 0);
    let mut liar = book.seat_for(&mut first, 3, 255);
    let mut shared = SharedBook::at(rt, &book);
    let _ = shared.lie(&mut liar, 0, To::All, b"?");
    let (boxes, mut all) = Boxes::new(alloc, &script.config)?;
    let Some(passes) = first_passes(&boxes, &mut all) else {
        return Ok(None);
    };
    let mut mail = Mail::new(&boxes, passes);
    tell(rt, script, &book, &mut liar, &mut mail)?;
    Ok(Some(turn_twice::<K, Brand, R>(rt, alloc, script, deal, &book, seat, mail)))
}
