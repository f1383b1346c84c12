//! What lies under the lock of a node that lies.

ghost use Rattle.std.specs.Prelude.{◌≡◌, ◌⊎◌, ℕ, ◌+◌, ◌-◌, ◌<◌, ◌≤◌, ◌++◌, true, false, List, [], ◌∷◌, length, count_by, slice_get, Some, IfNone, IfSome, MatchOption};
ghost use Rattle.mailbox.specs.Interleaving.{HasAll};
ghost use Rattle.hb_base.specs.NodeSet.{is_in};
ghost use Rattle.step_driver.specs.Delivering.{is_from};
ghost use Rattle.actor_cell.specs.Boxes.{place_of};
ghost use Rattle.actor_cell.specs.Passes.{own_puts};
ghost use Rattle.actor_cell.specs.Mail.{AreSent, of_found, of_post};
ghost use Rattle.actor_cell.specs.Turning.{TookOnly};
ghost use Rattle.liar_cell.specs.HeldLiar.{seat_at, new_liar, IsHeldLiar};
ghost use Rattle.liar_cell.specs.LiarTurns.{IsOwn, PutsOwn, GoesOn, IsQuiet, TakesNothing, HasTold, IsServed, ServesBack, ServesNew, Turned};

use crate::arrival::{arrives, is_late};
use actor_cell::{Mail, Marks, RunName, Served};
use hb_base::Gate;
use hb_wire::Post;
use liar_cast::{LiarSeat, Lies};
use net_script::Script;
use post_book::NamedBook;
use std::alloc::Global;
use std::collections::VecDeque;
use std::marker::{Model, PhantomData};
use std::sync::Wait;
use step_driver::{Mouth, listen, tell};

/// A node that lies, with all that it needs among threads: its seat, what speaks for it until it has heard so many posts, a
/// handle of the book, the script, its mailbox and its passes to those of the others, and the numbers of late posts that it holds
/// back. Clauses see a `LiarView`.
///
/// In every state the book and the script are those of the run that `J` names, the seat is of this book and for a node that lies,
/// and no more than 4,096 posts stand under it.
#[derive(Drop)]
pub struct HeldLiar<'b, B: NamedBook + Drop, L: Mouth, J: RunName> {
    node: u8,
    seat: B::Seat,
    said: u32,
    hears: u32,
    lies: Lies,
    // none once it hears no more
    mouth: Option<L>,
    book: B,
    script: &'b Script,
    mail: Mail<'b>,
    back: VecDeque<u32>,
    of: PhantomData<J>,
}

impl<'b, B: NamedBook + Drop, L: Mouth, J: RunName> Model for HeldLiar<'b, B, L, J> {
    ghost use Rattle.std.specs.Prelude.{◌≡◌};
    ghost use Rattle.liar_cell.specs.HeldLiar.{LiarView, seat_at, IsHeldLiar};

    ghost Value = { LiarView B };

    ghost view = { λ h. record {
      seat = seat_at B.config B.node B.actor B.seen h.seat;
      said = h.said;
      hears = h.hears;
      book = h.book;
      script = h.script.now;
      mail = h.mail;
      back = h.back.items;
    } };

    ghost invariant = { λ h. B.knows h.book h.seat × (B.node h.seat ≡ h.node)
        × IsHeldLiar J.is_script J.book B.name (record {
          seat = seat_at B.config B.node B.actor B.seen h.seat;
          said = h.said;
          hears = h.hears;
          book = h.book;
          script = h.script.now;
          mail = h.mail;
          back = h.back.items;
        }) };
}

impl<'b, B: NamedBook + Drop, L: Mouth, J: RunName> HeldLiar<'b, B, L, J> {
    /// A node that lies and has said nothing: its number, its seat, which has posted nothing, how many posts it hears, what
    /// speaks for it, the script of the run, a handle of the book of its seat, and the mailboxes of the run with the passes of
    /// its own. It takes no memory.
    pub fn new(
        alloc: Global,
        node: u8,
        seat: B::Seat,
        hears: u32,
        mouth: L,
        script: &'b Script,
        book: B,
        mail: Mail<'b>,
    ) -> HeldLiar<'b, B, L, J>
        requires book { B.knows book seat × (B.name book ≡ J.book) }
        requires script { J.is_script script.now × (B.config seat ≡ script.now.config) }
        requires known { (B.node seat ≡ node) × (node < script.now.config.n) × (B.actor seat ≡ 255) }
        requires liar { is_in script.now.config.liars node ≡ true }
        requires boxes { mail.boxes.config ≡ script.now.config }
        requires place { mail.passes.place ≡ place_of script.now.config node 0 }
        requires fresh { count_by (is_from node) (B.seen seat) ≡ 0 }
        ensures { result ≡ new_liar (seat_at B.config B.node B.actor B.seen seat) hears book script.now mail.entry }
    {
        HeldLiar {
            node,
            seat,
            said: 0,
            hears,
            lies: Lies::new(alloc, node),
            mouth: Some(mouth),
            book,
            script,
            mail,
            back: VecDeque::new(alloc),
            of: PhantomData,
        }
    }

    /// Lets the node speak before it has heard anything. What it says is posted under it, and the numbers are put into the
    /// mailboxes of all whom they reach. Of one that hears nothing what speaks for it is then dropped.
    pub fn begin<R: Wait>(
        rt: &R,
        alloc: Global,
        node: u8,
        seat: B::Seat,
        hears: u32,
        mouth: L,
        script: &'b Script,
        book: B,
        mail: Mail<'b>,
    ) -> HeldLiar<'b, B, L, J>
        requires book { B.knows book seat × (B.name book ≡ J.book) }
        requires script { J.is_script script.now × (B.config seat ≡ script.now.config) }
        requires known { (B.node seat ≡ node) × (node < script.now.config.n) × (B.actor seat ≡ 255) }
        requires liar { is_in script.now.config.liars node ≡ true }
        requires boxes { mail.boxes.config ≡ script.now.config }
        requires place { mail.passes.place ≡ place_of script.now.config node 0 }
        requires fresh { count_by (is_from node) (B.seen seat) ≡ 0 }
        ensures goes { GoesOn B.moved (new_liar (seat_at B.config B.node B.actor B.seen seat) hears book script.now mail.entry) result }
        ensures hears { result.hears ≡ hears }
        ensures nothing { TakesNothing (new_liar (seat_at B.config B.node B.actor B.seen seat) hears book script.now mail.entry) result }
        ensures told { HasTold (new_liar (seat_at B.config B.node B.actor B.seen seat) hears book script.now mail.entry) result }
    {
        let mut held = HeldLiar::new(alloc, node, seat, hears, mouth, script, book, mail);
        held.start(alloc);
        held.speak(rt);
        held
    }

    /// Its seat, and the actors whose mailbox refused a number. It takes no memory.
    pub fn into_parts(self) -> (B::Seat, Marks)
        ensures of_book { B.knows self.entry.book result.0 }
        ensures seat { seat_at B.config B.node B.actor B.seen result.0 ≡ self.entry.seat }
        ensures noted { result.1 ≡ self.entry.mail.noted }
        ensures held { IsHeldLiar J.is_script J.book B.name self.entry }
    {
        let noted = self.mail.noted();
        let HeldLiar {
            node: _,
            seat,
            said: _,
            hears: _,
            lies: _,
            mouth: _,
            book: _,
            script: _,
            mail: _,
            back: _,
            of: _,
        } = self;
        (seat, noted)
    }

    /// One turn: takes at most one number, and lets the node hear its post, if it still hears. It takes the numbers of its
    /// mailbox first. While the node still hears, one whose post is late is moved to those held back, and the turn goes on;
    /// where the mailbox gives none, the first of these is taken. A post that does not stand, reaches no actor of the node or is
    /// dropped on its way is thrown away, and so is one for which there is no memory: such a node is owed nothing. Once the
    /// node hears no more, each number is thrown away unread. Under the lock the gate is entered once for each number that
    /// is taken, as actor 255.
    ///
    /// What it says is posted under it, while fewer than 4,096 posts of it stand, and the numbers are put into the mailboxes of
    /// all whom they reach. Once it has heard as many posts as it was to hear, what speaks for it is dropped.
    pub fn turn<R: Wait, G: Gate>(&mut self, rt: &R, alloc: Global, gate: &G) -> Served
        ensures goes { GoesOn B.moved self.old self.new }
        ensures turned { Turned result self.old self.new }
    {
        for _ in rt.forever() {
            match self.take(rt) {
                None => return self.serve_back(rt, alloc, gate),
                Some(k) => {
                    if self.serve_new(rt, alloc, gate, k) {
                        return Served::Did;
                    }
                }
            }
        }
        unreachable!()
    }

    // Takes the oldest number from the mailbox.
    fn take<R: Wait>(&mut self, rt: &R) -> Option<u32>
        ensures rest { self.new ≡ record self.old { mail = self.new.mail } }
        ensures asked { self.new.mail.passes.take.asked ≡ self.old.mail.passes.take.asked + 1 }
        ensures empty { IfNone result (HasAll self.old.mail.passes.take.joined self.old.mail.passes.take.taken) }
        ensures own { IfNone result (HasAll (own_puts self.old.mail.passes ∷ []) self.old.mail.passes.take.taken) }
        ensures looked { IfNone result (self.new.mail.passes.take.saw_empty ≡ true) }
        ensures taken { MatchOption result (TookOnly self.old.mail self.new.mail []) (λ k. TookOnly self.old.mail self.new.mail (k ∷ [])) }
    {
        self.mail.take(rt)
    }

    // Serves the first number of those held back, where the mailbox gave none.
    fn serve_back<R: Wait, G: Gate>(&mut self, rt: &R, alloc: Global, gate: &G) -> Served
        ensures goes { GoesOn B.moved self.old self.new }
        ensures served { ServesBack result self.old self.new }
    {
        match self.back.pop_front() {
            None => Served::Idle,
            Some(k) => {
                self.serve(rt, alloc, gate, k);
                Served::Did
            }
        }
    }

    // Serves a number that was held back and is not any more.
    fn serve<R: Wait, G: Gate>(&mut self, rt: &R, alloc: Global, gate: &G, k: u32)
        ensures goes { GoesOn B.moved self.old self.new }
        ensures served { IsServed k self.old self.new }
    {
        let found = self.look(k);
        self.deliver(rt, alloc, gate, k, &found);
    }

    // Serves a number from the mailbox, unless its post is late and can be held back: then the answer is false.
    fn serve_new<R: Wait, G: Gate>(&mut self, rt: &R, alloc: Global, gate: &G, k: u32) -> bool
        ensures goes { GoesOn B.moved self.old self.new }
        ensures served { ServesNew k result self.old self.new }
    {
        let found = self.look(k);
        if is_late(self.script, &found, self.node(), k) {
            return self.serve_late(gate, k);
        }
        self.deliver(rt, alloc, gate, k, &found);
        true
    }

    // Holds back a number. Where there is no memory for that, it is thrown away, counts as taken, and the answer is true.
    fn serve_late<G: Gate>(&mut self, gate: &G, k: u32) -> bool
        ensures held { result ≡ false → self.new ≡ record self.old { back = self.old.back ++ k ∷ [] } }
        ensures lost { result ≡ true → self.new ≡ self.old }
    {
        if self.back.push_back(k).is_ok() {
            return false;
        }
        self.enter(gate);
        true
    }

    // Enters the gate as this node.
    fn enter<G: Gate>(&self, gate: &G) {
        gate.enter(self.node, 255);
    }

    // The node whose place it is.
    fn node(&self) -> u8
        ensures { result ≡ self.now.seat.node }
    {
        self.node
    }

    // The post with this number, if the node still hears. None also where there is no memory to look.
    fn look(&mut self, k: u32) -> Option<Post>
        ensures goes { GoesOn B.moved self.old self.new }
        ensures quiet { IsQuiet self.old self.new }
        ensures rest { (self.new.mail ≡ self.old.mail) × (self.new.back ≡ self.old.back) }
        ensures found { IfSome result (λ post. (slice_get self.new.seat.seen k ≡ Some post) × (0 < self.new.hears)) }
    {
        if self.hears == 0 {
            return None;
        }
        self.read(k)
    }

    // The post with this number, if it stands and there is memory to look.
    fn read(&mut self, k: u32) -> Option<Post>
        ensures goes { GoesOn B.moved self.old self.new }
        ensures quiet { IsQuiet self.old self.new }
        ensures rest { (self.new.mail ≡ self.old.mail) × (self.new.back ≡ self.old.back) }
        ensures found { IfSome result (λ post. slice_get self.new.seat.seen k ≡ Some post) }
    {
        match self.book.read(&mut self.seat, k) {
            Ok(found) => found,
            Err(_) => None,
        }
    }

    // Enters the gate, and lets the node hear the post with this number if it was found and arrives.
    fn deliver<R: Wait, G: Gate>(
        &mut self,
        rt: &R,
        alloc: Global,
        gate: &G,
        k: u32,
        found: &Option<Post>,
    )
        requires found { IfSome found.now (λ post. (slice_get self.old.seat.seen k ≡ Some post) × (0 < self.old.hears)) }
        ensures goes { GoesOn B.moved self.old self.new }
        ensures served { IsServed k self.old self.new }
        ensures none { IfNone found.now (self.new ≡ self.old) }
    {
        self.enter(gate);
        match found {
            Some(post) => self.deliver_post(rt, alloc, k, post),
            None => {}
        }
    }

    // Lets the node hear the post with this number if it arrives.
    fn deliver_post<R: Wait>(&mut self, rt: &R, alloc: Global, k: u32, post: &Post)
        requires stands { slice_get self.old.seat.seen k ≡ Some post.now }
        requires hears { 0 < self.old.hears }
        ensures goes { GoesOn B.moved self.old self.new }
        ensures served { IsServed k self.old self.new }
    {
        if arrives(self.script, post, self.node(), k) {
            self.hear(alloc, post);
            self.speak(rt);
        }
    }

    // Lets what speaks for the node hear a post. Nothing is posted yet.
    fn hear(&mut self, alloc: Global, post: &Post)
        ensures { self.new ≡ record self.old { hears = self.old.hears - 1 } }
    {
        let me = self.me();
        listen(
            alloc,
            &me,
            post,
            &mut self.hears,
            &mut self.mouth,
            &mut self.lies,
        );
    }

    // Lets what speaks for the node begin. Nothing is posted yet.
    fn start(&mut self, alloc: Global)
        ensures { self.new ≡ self.old }
    {
        let me = self.me();
        if let Some(mouth) = &mut self.mouth {
            mouth.start(alloc, &me, &mut self.lies);
        }
    }

    fn me(&self) -> LiarSeat {
        LiarSeat {
            node: self.node,
            config: self.script.config,
        }
    }

    // Posts what the node has said, and puts the numbers of its posts. What speaks for it is dropped where it hears no more.
    fn speak<R: Wait>(&mut self, rt: &R)
        ensures goes { GoesOn B.moved self.old self.new }
        ensures hears { self.new.hears ≡ self.old.hears }
        ensures nothing { TakesNothing self.old self.new }
        ensures told { HasTold self.old self.new }
    {
        let first = self.count();
        self.post();
        self.send(rt, first);
    }

    // How many posts stand.
    fn count(&mut self) -> u32
        ensures goes { GoesOn B.moved self.old self.new }
        ensures quiet { IsQuiet self.old self.new }
        ensures rest { (self.new.mail ≡ self.old.mail) × (self.new.back ≡ self.old.back) }
        ensures count { result ≡ length self.new.seat.seen }
    {
        self.book.posts(&mut self.seat)
    }

    // Posts what the node has said.
    fn post(&mut self)
        ensures goes { GoesOn B.moved self.old self.new }
        ensures rest { (self.new.hears ≡ self.old.hears) × (self.new.mail ≡ self.old.mail) × (self.new.back ≡ self.old.back) }
    {
        self.said = tell(
            &mut self.book,
            &mut self.seat,
            self.said,
            self.hears,
            &mut self.mouth,
            &mut self.lies,
        );
    }

    // Puts the numbers of its own posts from this one on. One for which there is no memory is left out.
    fn send<R: Wait>(&mut self, rt: &R, first: u32)
        requires { first ≤ length self.old.seat.seen }
        ensures goes { GoesOn B.moved self.old self.new }
        ensures quiet { IsQuiet self.old self.new }
        ensures nothing { TakesNothing self.old self.new }
        ensures told { PutsOwn first (length self.new.seat.seen) self.old self.new }
    {
        let end = self.count();
        for k in first..end {
            self.send_one(rt, k);
        }
    }

    // Puts the number of one post, if the post is its own.
    fn send_one<R: Wait>(&mut self, rt: &R, k: u32)
        ensures goes { GoesOn B.moved self.old self.new }
        ensures quiet { IsQuiet self.old self.new }
        ensures back { self.new.back ≡ self.old.back }
        ensures sent { (self.new.mail ≡ self.old.mail) ⊎ (IsOwn self.new.seat.node self.new.seat.seen k
            × AreSent self.new.script.config (of_found self.new.script.config self.new.script (slice_get self.new.seat.seen k) k) self.old.mail self.new.mail) }
    {
        if let Some(post) = self.read(k) {
            self.send_own(rt, &post, k);
        }
    }

    // The same, of a post that was read.
    fn send_own<R: Wait>(&mut self, rt: &R, post: &Post, k: u32)
        ensures rest { self.new ≡ record self.old { mail = self.new.mail } }
        ensures sent { (self.new.mail ≡ self.old.mail) ⊎ ((post.now.from ≡ self.old.seat.node)
            × AreSent self.old.script.config (of_post self.old.script.config self.old.script post.now k) self.old.mail self.new.mail) }
    {
        if post.from == self.node {
            self.mail.send(rt, self.script, post, k);
        }
    }
}
