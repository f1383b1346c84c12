//! Turns of a node that lies, over a shared book.
ghost use Rattle.std.specs.Prelude.{◌≡◌, ◌<◌, true, []};
ghost use Rattle.hb_base.specs.NodeSet.{is_in};

use crate::marking::CountingGate;
use crate::turning::first_passes;
use actor_cell::{Boxes, Mail, RunName, Served};
use hb_rules::Book;
use hb_wire::{Post, To};
use liar_cast::{LiarSeat, Lies};
use liar_cell::{HeldLiar, LiarCell};
use net_script::Script;
use post_book::{NamedBook, Naming, PostBook, SharedBook, SharedSeat};
use std::alloc::{AllocError, Global};
use std::marker::Brand;
use std::sync::Wait;
use step_driver::Mouth;

/// Says one lie to lane 0 of all nodes before it has heard anything, and one for each post that it hears.
#[derive(Drop)]
pub struct Echo;

impl Mouth for Echo {
    fn start(&mut self, alloc: Global, _me: &LiarSeat, lies: &mut Lies) {
        let _ = lies.say(alloc, 0, To::All, b"!");
    }

    fn hear(&mut self, alloc: Global, _me: &LiarSeat, _post: &Post, lies: &mut Lies) {
        let _ = lies.say(alloc, 0, To::All, b"?");
    }
}

/// What four turns answered, how often the gate was entered, and how many posts then stood.
#[derive(Drop)]
pub struct LiarTurns {
    pub served: [Option<Served>; 4],
    pub entered: u64,
    pub posts: u32,
}

// Lets the node begin over this book, and serves it four times. `again` is another handle of the book.
fn turns_of<'b, B: NamedBook + Drop, J: RunName, R: Wait>(
    rt: &R,
    alloc: Global,
    script: &'b Script,
    hears: u32,
    book: B,
    again: B,
    seat: B::Seat,
    mail: Mail<'b>,
) -> LiarTurns
    requires liar { is_in script.now.config.liars 0 ≡ true }
    requires nodes { 0 < script.now.config.n }
    requires book { B.knows book seat × (B.name book ≡ J.book) }
    requires again { B.name again ≡ J.book }
    requires script { J.is_script script.now }
    requires seat { (B.config seat ≡ script.now.config) × (B.node seat ≡ 0) × (B.actor seat ≡ 255) }
    requires unused { B.seen seat ≡ [] }
    requires boxes { mail.boxes.config ≡ script.now.config }
    requires place { mail.passes.place ≡ 0 }
{
    let held = HeldLiar::<B, Echo, J>::begin(rt, alloc, 0, seat, hears, Echo, script, book, mail);
    let cell = LiarCell::new(held);
    let gate = CountingGate::new();
    let one = cell.serve(rt, alloc, &gate);
    let two = cell.serve(rt, alloc, &gate);
    let three = cell.serve(rt, alloc, &gate);
    let four = cell.serve(rt, alloc, &gate);
    let (mut seat, _) = cell.into_liar().into_parts();
    let mut again = again;
    let posts = again.posts(&mut seat);
    LiarTurns {
        served: [one, two, three, four],
        entered: gate.entered(),
        posts,
    }
}

// The same over a shared book. The run is named here.
fn turn_often<'a, 'b, K: Naming, J: RunName, R: Wait>(
    rt: &'a R,
    alloc: Global,
    script: &'b Script,
    hears: u32,
    book: &'a PostBook<K>,
    seat: SharedSeat<K>,
    mail: Mail<'b>,
) -> LiarTurns
    requires liar { is_in script.now.config.liars 0 ≡ true }
    requires nodes { 0 < script.now.config.n }
    requires book { (seat.book ≡ book.now) × (book.now ≡ J.book) }
    requires script { J.is_script script.now }
    requires seat { (seat.seat.config ≡ script.now.config) × (seat.seat.node ≡ 0) × (seat.seat.actor ≡ 255) }
    requires unused { seat.seat.seen ≡ [] }
    requires boxes { mail.boxes.config ≡ script.now.config }
    requires place { mail.passes.place ≡ 0 }
{
    let shared = SharedBook::at(rt, book);
    turns_of::<SharedBook<'a, R, K>, J, R>(rt, alloc, script, hears, shared, shared, seat, mail)
}

/// Node 0, which lies and answers each of so many posts with a lie, begins over a new book, and is served four times. None
/// where there is no mailbox for it. The error is want of memory.
pub fn lie_and_hear<K: Naming, R: Wait>(
    rt: &R,
    alloc: Global,
    script: &Script,
    hears: u32,
) -> Result<Option<LiarTurns>, AllocError>
    requires config { script.now.config ≡ K.config }
    requires liar { (is_in script.now.config.liars 0 ≡ true) × (0 < script.now.config.n) }
{
    let (book, mut first) = PostBook::<K>::new(alloc, &script.config)?;
    let seat = book.seat_for(&mut first, 0, 255);
    let (boxes, mut all) = Boxes::new(alloc, &script.config)?;
    let Some(passes) = first_passes(&boxes, &mut all) else {
        return Ok(None);
    };
    let mail = Mail::new(&boxes, passes);
    Ok(Some(turn_often::<K, Brand, R>(rt, alloc, script, hears, &book, seat, mail)))
}
