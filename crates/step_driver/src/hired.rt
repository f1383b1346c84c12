//! A node that lies, and what speaks for it.

ghost use Rattle.std.specs.Prelude.{◌≡◌, ◌-◌, ◌<◌, ◌≤◌, true, [], ◌∷◌, count_by, None, Some};
ghost use Rattle.hb_base.specs.Limits.{most_lies};
ghost use Rattle.hb_base.specs.NodeSet.{is_in};
ghost use Rattle.hb_rules.specs.Book.{IsSeatOf};
ghost use Rattle.step_driver.specs.Places.{hired_view};
ghost use Rattle.step_driver.specs.Delivering.{is_from, IsHired, Speaks};
ghost use Rattle.step_driver.specs.Telling.{Tells};

use crate::coming::{is_drop, reaches_node};
use hb_base::limits::MOST_LIES;
use hb_rules::{Book, PlainBook, PlainSeat};
use hb_wire::{Lie, Post};
use liar_cast::{LiarSeat, Lies};
use net_script::{Script, shape};
use std::alloc::Global;

/// What speaks for a node that lies, as a `Liar` does. Nothing is promised of what it says.
pub trait Mouth: Drop {
    /// Speaks before it has heard anything.
    fn start(&mut self, alloc: Global, me: &LiarSeat, lies: &mut Lies);

    /// Hears a post, and may speak.
    fn hear(&mut self, alloc: Global, me: &LiarSeat, post: &Post, lies: &mut Lies);
}

/// A node that lies, with what speaks for it until it has heard so many posts.
#[derive(Drop)]
pub struct Hired<L> {
    seat: PlainSeat,
    said: u32,
    hears: u32,
    lies: Lies,
    mouth: Option<L>,
}

impl<L: Mouth> Hired<L> {
    /// One that has said nothing. `seat` is the seat of its node; what speaks for it hears `hears` posts, and is then dropped.
    pub fn new(alloc: Global, seat: PlainSeat, hears: u32, mouth: L) -> Hired<L>
        ensures view { hired_view result ≡ record { seat = seat; said = 0 } }
        ensures hears { result.hears ≡ hears }
        ensures mouth { result.mouth ≡ Some mouth }
    {
        let node = seat.node();
        Hired {
            seat,
            said: 0,
            hears,
            lies: Lies::new(alloc, node),
            mouth: Some(mouth),
        }
    }

    pub(crate) fn node(&self) -> u8
        ensures { result ≡ (hired_view self.now).seat.node }
    {
        self.seat.node()
    }

    // Lets it speak before it has heard anything.
    pub(crate) fn start(&mut self, alloc: Global, book: &mut PlainBook)
        requires seat { IsSeatOf book.old (hired_view self.old).seat }
        requires hired { IsHired book.old.config (hired_view self.old) }
        ensures { Speaks book.old book.new (hired_view self.old) (hired_view self.new) }
    {
        let me = self.me(book);
        if let Some(mouth) = &mut self.mouth {
            mouth.start(alloc, &me, &mut self.lies);
        }
        self.tell(book);
    }

    // Delivers post k to it, if it still hears, the post stands, reaches an actor of its node and is not dropped.
    pub(crate) fn hear(&mut self, alloc: Global, script: &Script, book: &mut PlainBook, k: u32)
        requires seat { IsSeatOf book.old (hired_view self.old).seat }
        requires hired { IsHired book.old.config (hired_view self.old) }
        ensures { Speaks book.old book.new (hired_view self.old) (hired_view self.new) }
    {
        let me = self.me(book);
        self.listen(alloc, &me, script, book.history(), k);
        self.tell(book);
    }

    fn me(&self, book: &PlainBook) -> LiarSeat {
        LiarSeat {
            node: self.seat.node(),
            config: book.config(),
        }
    }

    // Hands post k to what speaks for it. Nothing is posted yet.
    fn listen(&mut self, alloc: Global, me: &LiarSeat, script: &Script, posts: &[Post], k: u32)
        ensures { hired_view self.new ≡ hired_view self.old }
    {
        let Some(post) = posts.get(k as usize) else {
            return;
        };
        let comes = reaches_node(&me.config, post, me.node)
            && !is_drop(shape(script, post.from, me.node, k));
        if comes {
            listen(
                alloc,
                me,
                post,
                &mut self.hears,
                &mut self.mouth,
                &mut self.lies,
            );
        }
    }

    // Posts what it has said, and drops what speaks for it where it hears no more.
    fn tell(&mut self, book: &mut PlainBook)
        requires seat { IsSeatOf book.old (hired_view self.old).seat }
        requires hired { IsHired book.old.config (hired_view self.old) }
        ensures { Speaks book.old book.new (hired_view self.old) (hired_view self.new) }
    {
        self.said = tell(
            book,
            &mut self.seat,
            self.said,
            self.hears,
            &mut self.mouth,
            &mut self.lies,
        );
    }
}

/// Lets what speaks for a node hear a post, if it still hears, and counts down how many it hears. Nothing is posted yet.
pub fn listen<L: Mouth>(
    alloc: Global,
    me: &LiarSeat,
    post: &Post,
    hears: &mut u32,
    mouth: &mut Option<L>,
    lies: &mut Lies,
)
    ensures hears { hears.new ≡ hears.old - 1 }
    ensures over { hears.old ≡ 0 → (mouth.new ≡ mouth.old) × (lies.new ≡ lies.old) }
{
    if *hears == 0 {
        return;
    }
    *hears -= 1;
    if let Some(mouth) = mouth {
        mouth.hear(alloc, me, post, lies);
    }
}

/// Posts the lies that wait under the seat's node, in their order and each once, as long as fewer than 4,096 posts of the node
/// stand, and answers how many stand then. A lie that the book refuses is dropped, and so is what speaks for the node where it
/// hears no more.
pub fn tell<B: Book, L: Mouth>(
    book: &mut B,
    seat: &mut B::Seat,
    said: u32,
    hears: u32,
    mouth: &mut Option<L>,
    lies: &mut Lies,
) -> u32
    requires seat { B.knows book.old seat.old }
    requires liar { is_in (B.config seat.old).liars (B.node seat.old) ≡ true }
    requires said { count_by (is_from (B.node seat.old)) (B.seen seat.old) ≡ said }
    requires few { said ≤ most_lies }
    ensures seat { B.knows book.new seat.new }
    ensures moved { B.moved (B.node seat.old) (B.actor seat.old) book.old book.new }
    ensures told { Tells B.config B.node B.actor B.seen lies.old.waiting seat.old seat.new result }
    ensures cleared { lies.new ≡ record lies.old { waiting = [] } }
    ensures dropped { hears ≡ 0 → mouth.new ≡ None }
    ensures kept { 0 < hears → mouth.new ≡ mouth.old }
{
    let said = post_lies(book, seat, said, lies.waiting());
    lies.clear();
    if hears == 0 {
        *mouth = None;
    }
    said
}

// Posts these lies, and answers how many posts of the node stand then.
fn post_lies<B: Book>(book: &mut B, seat: &mut B::Seat, said: u32, lies: &[Lie]) -> u32
    requires seat { B.knows book.old seat.old }
    requires liar { is_in (B.config seat.old).liars (B.node seat.old) ≡ true }
    requires said { count_by (is_from (B.node seat.old)) (B.seen seat.old) ≡ said }
    requires few { said ≤ most_lies }
    ensures seat { B.knows book.new seat.new }
    ensures moved { B.moved (B.node seat.old) (B.actor seat.old) book.old book.new }
    ensures told { Tells B.config B.node B.actor B.seen lies.now seat.old seat.new result }
{
    let mut said = said;
    for lie in lies {
        said = post_lie(book, seat, said, lie);
    }
    said
}

// The same for one lie.
fn post_lie<B: Book>(book: &mut B, seat: &mut B::Seat, said: u32, lie: &Lie) -> u32
    requires seat { B.knows book.old seat.old }
    requires liar { is_in (B.config seat.old).liars (B.node seat.old) ≡ true }
    requires said { count_by (is_from (B.node seat.old)) (B.seen seat.old) ≡ said }
    requires few { said ≤ most_lies }
    ensures seat { B.knows book.new seat.new }
    ensures moved { B.moved (B.node seat.old) (B.actor seat.old) book.old book.new }
    ensures told { Tells B.config B.node B.actor B.seen (lie.now ∷ []) seat.old seat.new result }
{
    if said >= MOST_LIES {
        return said;
    }
    match book.lie(seat, lie.actor, lie.to, lie.bytes.as_slice()) {
        Ok(_) => said + 1,
        Err(_) => said,
    }
}
