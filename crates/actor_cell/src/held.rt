//! What lies under the lock of an actor.

ghost use Rattle.std.specs.Prelude.{◌≡◌, ◌≢◌, ℕ, ◌+◌, ◌<◌, ◌≤◌, ◌++◌, true, false, List, [], ◌∷◌, length, IfSome, IfNone, MatchOption};
ghost use Rattle.std.specs.List.{AllByRecursion};
ghost use Rattle.mailbox.specs.Interleaving.{HasAll};
ghost use Rattle.hb_rules.specs.declared.report.Fate.TheVariants.{Running, Memory};
ghost use Rattle.hb_rules.specs.Report.{IsReceived};
ghost use Rattle.actor_cell.specs.Boxes.{place_of};
ghost use Rattle.actor_cell.specs.Passes.{own_puts};
ghost use Rattle.actor_cell.specs.Held.{player_at, IsHeld, WasShown};
ghost use Rattle.actor_cell.specs.Mail.{ArePut, IsSameTaker, deliveries, sent_of};
ghost use Rattle.actor_cell.specs.Turning.{turning, arrival, IsShown, TookOnly, IsServed, IsDelivered, Begins, Delivers, ServesBack, ServesNew, Turned};
ghost use Rattle.step_driver.specs.Delivering.{IsPlayer};

use crate::arrival::{Arrival, arrives, is_late};
use crate::hearing::{hear, look, start};
use crate::mail::Mail;
use crate::marks::Marks;
use crate::run_name::RunName;
use crate::sending::send_all;
use crate::served::Served;
use hb_base::Gate;
use hb_rules::{Actor, Fate, Outbox};
use net_script::Script;
use post_book::NamedBook;
use std::alloc::Global;
use std::collections::VecDeque;
use std::marker::{Model, PhantomData};
use std::sync::Wait;
use step_driver::is_running;

/// An actor of a correct node with all that it needs among threads: a handle of the book, the script, its mailbox and its passes
/// to those of the others, and the numbers of late posts that it holds back. Clauses see a `HeldView`.
///
/// In every state the book and the script are those of the run that `J` names, the actor is one of the config and goes by the
/// script, and its fate has its cause.
#[derive(Drop)]
pub struct Held<'b, B: NamedBook + Drop, A: Actor<B>, J: RunName> {
    actor: A,
    fate: Fate,
    book: B,
    script: &'b Script,
    mail: Mail<'b>,
    back: VecDeque<u32>,
    of: PhantomData<J>,
}

impl<'b, B: NamedBook + Drop, A: Actor<B>, J: RunName> Model for Held<'b, B, A, J> {
    ghost use Rattle.std.specs.VecDeque.{deque_capacity};
    ghost use Rattle.actor_cell.specs.Held.{HeldView, player_at, IsHeld};

    ghost Value = { HeldView A B };

    ghost view = { λ h. record {
      actor = h.actor;
      fate = h.fate;
      book = h.book;
      script = h.script.now;
      mail = h.mail;
      back = h.back.items;
      room = deque_capacity h.back;
    } };

    ghost invariant = { λ h. IsHeld B.knows J.is_script J.book (A.seat h.actor) h.book (B.name h.book) h.script.now h.mail
        (player_at B.config B.node B.actor B.seen A.seat A.view h.actor h.fate) };
}

impl<'b, B: NamedBook + Drop, A: Actor<B>, J: RunName> Held<'b, B, A, J> {
    /// An actor that was started, with its fate since then, the script by which it goes, a handle of the book of its seat, and
    /// the mailboxes of the run with the passes of its own. It takes no memory.
    pub fn new(
        alloc: Global,
        actor: A,
        fate: Fate,
        script: &'b Script,
        book: B,
        mail: Mail<'b>,
    ) -> Held<'b, B, A, J>
        requires book { B.knows book (A.seat actor) × (B.name book ≡ J.book) }
        requires script { J.is_script script.now × (B.config (A.seat actor) ≡ script.now.config) }
        requires known { (B.node (A.seat actor) < script.now.config.n) × (B.actor (A.seat actor) ≤ script.now.config.n) }
        requires boxes { mail.boxes.config ≡ script.now.config }
        requires place { mail.passes.place ≡ place_of script.now.config (B.node (A.seat actor)) (B.actor (A.seat actor)) }
        requires player { IsPlayer script.now.config script.now true (player_at B.config B.node B.actor B.seen A.seat A.view actor fate) }
        ensures actor { (result.actor ≡ actor) × (result.fate ≡ fate) × (result.book ≡ book) × (result.script ≡ script.now) }
        ensures mail { (result.mail ≡ mail.entry) × (result.back ≡ []) }
    {
        Held {
            actor,
            fate,
            book,
            script,
            mail,
            back: VecDeque::new(alloc),
            of: PhantomData,
        }
    }

    /// Starts an actor that was never started, and restarts it where a stop leaves it without power. The numbers of its posts are
    /// put into the mailboxes of all whom they reach. Want of memory ends it, and so does a fault of the journal that leaves the
    /// power on, or a full book; then nothing more is put.
    pub fn begin<R: Wait>(
        rt: &R,
        alloc: Global,
        actor: A,
        script: &'b Script,
        book: B,
        mail: Mail<'b>,
    ) -> Held<'b, B, A, J>
        requires book { B.knows book (A.seat actor) × (B.name book ≡ J.book) }
        requires script { J.is_script script.now × (B.config (A.seat actor) ≡ script.now.config) }
        requires known { (B.node (A.seat actor) < script.now.config.n) × (B.actor (A.seat actor) ≤ script.now.config.n) }
        requires boxes { mail.boxes.config ≡ script.now.config }
        requires place { mail.passes.place ≡ place_of script.now.config (B.node (A.seat actor)) (B.actor (A.seat actor)) }
        requires player { IsPlayer script.now.config script.now false (player_at B.config B.node B.actor B.seen A.seat A.view actor Running) }
        ensures script { (result.script ≡ script.now) × (result.back ≡ []) }
        ensures moved { B.moved (B.node (A.seat actor)) (B.actor (A.seat actor)) book result.book }
        ensures taker { IsSameTaker mail.entry result.mail }
        ensures begun { Begins script.now (player_at B.config B.node B.actor B.seen A.seat A.view actor Running)
            (player_at B.config B.node B.actor B.seen A.seat A.view result.actor result.fate) (sent_of mail.entry) (sent_of result.mail) }
    {
        let mut actor = actor;
        let mut book = book;
        let mut out = Outbox::new(alloc);
        let fate = start(alloc, &mut book, &mut actor, &mut out);
        let mut held = Held::new(alloc, actor, fate, script, book, mail);
        if is_running(fate) {
            held.send(rt, &out);
        }
        held
    }

    /// The actor, its fate, and the actors whose mailbox refused a number. It takes no memory.
    pub fn into_parts(self) -> (A, Fate, Marks)
        ensures parts { (result.0 ≡ self.entry.actor) × (result.1 ≡ self.entry.fate) × (result.2 ≡ self.entry.mail.noted) }
        ensures held { IsHeld B.knows J.is_script J.book (A.seat result.0) self.entry.book (B.name self.entry.book) self.entry.script self.entry.mail
            (player_at B.config B.node B.actor B.seen A.seat A.view result.0 result.1) }
    {
        let noted = self.mail.noted();
        let Held {
            actor,
            fate,
            book: _,
            script: _,
            mail: _,
            back: _,
            of: _,
        } = self;
        (actor, fate, noted)
    }

    /// One turn: takes at most one number, and lets the actor hear its post. It takes the numbers of its mailbox first. One whose
    /// post is late is moved to those held back, and the turn goes on; where the mailbox gives none, the first of these is taken.
    /// A post that does not stand, does not reach the actor or is dropped on its way is thrown away. Under the lock the gate is
    /// entered once for each number that is taken, after its post was looked at. A look shows the actor's seat the whole history
    /// of that moment.
    ///
    /// An actor that a stop leaves without power is restarted at once. Want of memory ends it, and so does a fault of the journal
    /// that leaves the power on, or a full book. The numbers of its new posts are put into the mailboxes of all whom they reach:
    /// one that is dropped not at all, one that comes twice twice. Whose mailbox refuses one is noted. Of an actor that ends in
    /// this turn nothing more is sent.
    pub fn turn<R: Wait, G: Gate>(&mut self, rt: &R, alloc: Global, gate: &G) -> Served
        ensures script { self.new.script ≡ self.old.script }
        ensures moved { B.moved (B.node (A.seat self.old.actor)) (B.actor (A.seat self.old.actor)) self.old.book self.new.book }
        ensures whole { result ≡ Served.Did → WasShown B.is_whole B.moved B.seen (B.node (A.seat self.old.actor)) (B.actor (A.seat self.old.actor)) self.old.book self.new.book (A.seat self.new.actor) }
        ensures turned { Turned self.old.script result (turning B.config B.node B.actor B.seen A.seat A.view self.old) (turning B.config B.node B.actor B.seen A.seat A.view self.new) }
    {
        if !is_running(self.fate) {
            return Served::Ended;
        }
        for _ in rt.forever() {
            match self.take(rt) {
                None => return self.serve_back(rt, alloc, gate),
                Some(k) => {
                    if self.serve_new(rt, alloc, gate, k) {
                        return Served::Did;
                    }
                }
            }
        }
        unreachable!()
    }

    // Takes a number from the mailbox.
    fn take<R: Wait>(&mut self, rt: &R) -> Option<u32>
        ensures rest { self.new ≡ record self.old { mail = self.new.mail } }
        ensures asked { self.new.mail.passes.take.asked ≡ self.old.mail.passes.take.asked + 1 }
        ensures empty { IfNone result (HasAll self.old.mail.passes.take.joined self.old.mail.passes.take.taken) }
        ensures own { IfNone result (HasAll (own_puts self.old.mail.passes ∷ []) self.old.mail.passes.take.taken) }
        ensures looked { IfNone result (self.new.mail.passes.take.saw_empty ≡ true) }
        ensures taken { MatchOption result (TookOnly self.old.mail self.new.mail []) (λ k. TookOnly self.old.mail self.new.mail (k ∷ [])) }
    {
        self.mail.take(rt)
    }

    // Serves the first number of those held back, where the mailbox gave none.
    fn serve_back<R: Wait, G: Gate>(&mut self, rt: &R, alloc: Global, gate: &G) -> Served
        requires running { self.old.fate ≡ Running }
        ensures script { self.new.script ≡ self.old.script }
        ensures moved { B.moved (B.node (A.seat self.old.actor)) (B.actor (A.seat self.old.actor)) self.old.book self.new.book }
        ensures whole { result ≡ Served.Did → WasShown B.is_whole B.moved B.seen (B.node (A.seat self.old.actor)) (B.actor (A.seat self.old.actor)) self.old.book self.new.book (A.seat self.new.actor) }
        ensures served { ServesBack self.old.script result (turning B.config B.node B.actor B.seen A.seat A.view self.old) (turning B.config B.node B.actor B.seen A.seat A.view self.new) }
    {
        match self.back.pop_front() {
            None => Served::Idle,
            Some(k) => {
                self.serve(rt, alloc, gate, k);
                Served::Did
            }
        }
    }

    // Serves a number that was held back and is not any more.
    fn serve<R: Wait, G: Gate>(&mut self, rt: &R, alloc: Global, gate: &G, k: u32)
        requires running { self.old.fate ≡ Running }
        ensures script { self.new.script ≡ self.old.script }
        ensures moved { B.moved (B.node (A.seat self.old.actor)) (B.actor (A.seat self.old.actor)) self.old.book self.new.book }
        ensures whole { WasShown B.is_whole B.moved B.seen (B.node (A.seat self.old.actor)) (B.actor (A.seat self.old.actor)) self.old.book self.new.book (A.seat self.new.actor) }
        ensures served { IsServed self.old.script k (turning B.config B.node B.actor B.seen A.seat A.view self.old) (turning B.config B.node B.actor B.seen A.seat A.view self.new) }
    {
        let found = self.look(k);
        self.deliver(rt, alloc, gate, k, found);
    }

    // Serves a number from the mailbox, unless its post is late and can be held back: then the answer is false.
    fn serve_new<R: Wait, G: Gate>(&mut self, rt: &R, alloc: Global, gate: &G, k: u32) -> bool
        requires running { self.old.fate ≡ Running }
        ensures script { self.new.script ≡ self.old.script }
        ensures moved { B.moved (B.node (A.seat self.old.actor)) (B.actor (A.seat self.old.actor)) self.old.book self.new.book }
        ensures whole { WasShown B.is_whole B.moved B.seen (B.node (A.seat self.old.actor)) (B.actor (A.seat self.old.actor)) self.old.book self.new.book (A.seat self.new.actor) }
        ensures served { ServesNew self.old.script k result (turning B.config B.node B.actor B.seen A.seat A.view self.old) (turning B.config B.node B.actor B.seen A.seat A.view self.new) }
    {
        let found = self.look(k);
        if is_late(&found) {
            return self.serve_late(gate, k);
        }
        self.deliver(rt, alloc, gate, k, found);
        true
    }

    // How the post with this number arrives. Where there is no memory to look, the post stands, and the actor has ended.
    fn look(&mut self, k: u32) -> Option<Arrival>
        requires running { self.old.fate ≡ Running }
        ensures rest { (self.new.script ≡ self.old.script) × (self.new.mail ≡ self.old.mail) × (self.new.back ≡ self.old.back) }
        ensures moved { B.moved (B.node (A.seat self.old.actor)) (B.actor (A.seat self.old.actor)) self.old.book self.new.book }
        ensures whole { B.is_whole self.old.book self.new.book (A.seat self.old.actor) (A.seat self.new.actor) }
        ensures shown { IsShown (player_at B.config B.node B.actor B.seen A.seat A.view self.old.actor self.old.fate) (player_at B.config B.node B.actor B.seen A.seat A.view self.new.actor self.new.fate) }
        ensures arrival { MatchOption result ((self.new.fate ≡ Memory) × (k < length (B.seen (A.seat self.new.actor)))) (λ found. (self.new.fate ≡ Running)
            × (found ≡ arrival self.old.script (player_at B.config B.node B.actor B.seen A.seat A.view self.new.actor self.new.fate) k)) }
    {
        match look(self.script, &mut self.book, &mut self.actor, k) {
            Ok(arrival) => Some(arrival),
            Err(_) => {
                self.fate = Fate::Memory;
                None
            }
        }
    }

    // Holds back a number. Where there is no memory for that, the actor ends, the number counts as taken, and the answer is true.
    fn serve_late<G: Gate>(&mut self, gate: &G, k: u32) -> bool
        requires running { self.old.fate ≡ Running }
        ensures rest { (self.new.actor ≡ self.old.actor) × (self.new.book ≡ self.old.book) × (self.new.script ≡ self.old.script) × (self.new.mail ≡ self.old.mail) }
        ensures held { result ≡ false → (self.new.fate ≡ Running) × (self.new.back ≡ self.old.back ++ k ∷ []) }
        ensures lost { result ≡ true → (self.new.fate ≡ Memory) × (self.new.back ≡ self.old.back) }
        ensures full { result ≡ true → self.old.room ≤ length self.old.back }
    {
        if self.back.push_back(k).is_ok() {
            return false;
        }
        self.fate = Fate::Memory;
        self.enter(gate);
        true
    }

    // Enters the gate as this actor.
    fn enter<G: Gate>(&self, gate: &G) {
        gate.enter(self.actor.node(), self.actor.actor());
    }

    // Enters the gate, and lets the actor hear the post with this number if it arrives.
    fn deliver<R: Wait, G: Gate>(
        &mut self,
        rt: &R,
        alloc: Global,
        gate: &G,
        k: u32,
        found: Option<Arrival>,
    )
        requires found { IfSome found (λ how. (self.old.fate ≡ Running)
            × (how ≡ arrival self.old.script (player_at B.config B.node B.actor B.seen A.seat A.view self.old.actor self.old.fate) k)) }
        ensures script { self.new.script ≡ self.old.script }
        ensures moved { B.moved (B.node (A.seat self.old.actor)) (B.actor (A.seat self.old.actor)) self.old.book self.new.book }
        ensures delivered { Delivers self.old.script k found (turning B.config B.node B.actor B.seen A.seat A.view self.old) (turning B.config B.node B.actor B.seen A.seat A.view self.new) }
    {
        self.enter(gate);
        if arrives(&found) {
            self.hear(rt, alloc, k);
        }
    }

    // Lets the actor hear the post with this number, and sends what comes of it.
    fn hear<R: Wait>(&mut self, rt: &R, alloc: Global, k: u32)
        requires running { self.old.fate ≡ Running }
        requires comes { IsReceived self.old.script.config self.old.script (B.seen (A.seat self.old.actor)) (B.node (A.seat self.old.actor)) (B.actor (A.seat self.old.actor)) k }
        ensures script { self.new.script ≡ self.old.script }
        ensures moved { B.moved (B.node (A.seat self.old.actor)) (B.actor (A.seat self.old.actor)) self.old.book self.new.book }
        ensures delivered { IsDelivered self.old.script k (turning B.config B.node B.actor B.seen A.seat A.view self.old) (turning B.config B.node B.actor B.seen A.seat A.view self.new) }
    {
        let mut out = Outbox::new(alloc);
        self.fate = hear(alloc, &mut self.book, &mut self.actor, k, &mut out);
        if is_running(self.fate) {
            self.send(rt, &out);
        }
    }

    // Puts the numbers of these posts of the actor. Where there is no memory to read one, the actor ends.
    fn send<R: Wait>(&mut self, rt: &R, out: &Outbox)
        requires running { self.old.fate ≡ Running }
        requires stand { AllByRecursion (λ k. k < length (B.seen (A.seat self.old.actor))) out.now }
        ensures rest { (self.new.script ≡ self.old.script) × (self.new.back ≡ self.old.back) }
        ensures shown { IsShown (player_at B.config B.node B.actor B.seen A.seat A.view self.old.actor self.old.fate) (player_at B.config B.node B.actor B.seen A.seat A.view self.new.actor self.new.fate) }
        ensures moved { B.moved (B.node (A.seat self.old.actor)) (B.actor (A.seat self.old.actor)) self.old.book self.new.book }
        ensures taker { IsSameTaker self.old.mail self.new.mail }
        ensures sent { (front rest : List ℕ) × (out.now ≡ front ++ rest) × (self.new.fate ≡ Running → rest ≡ [])
            × (self.new.fate ≡ Memory → rest ≢ [])
            × ArePut self.old.script.config (deliveries self.old.script.config self.old.script (B.seen (A.seat self.new.actor)) front)
            (sent_of self.old.mail) (sent_of self.new.mail) }
        ensures looked { self.new.fate ≡ Memory → WasShown B.is_whole B.moved B.seen (B.node (A.seat self.old.actor)) (B.actor (A.seat self.old.actor)) self.old.book self.new.book (A.seat self.new.actor) }
    {
        match send_all(
            rt,
            self.script,
            &mut self.book,
            &mut self.actor,
            &mut self.mail,
            out.numbers(),
        ) {
            Ok(()) => {}
            Err(_) => self.fate = Fate::Memory,
        }
    }
}
