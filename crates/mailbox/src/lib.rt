//! A mailbox for numbers that threads share: any number of senders, each with a put pass, and one receiver with
//! the take pass. Each number that is put comes out once, and the numbers of one put pass in their order.
#![tactic(auto)]

ghost use Rattle.std.specs.Prelude.{◌≡◌, ℕ, ◌+◌, true, List, [], ◌∷◌, ◌++◌, map, All, IfNone, IfSome, IfOk, IfErr, OnOk, OnErr, MatchOption};
ghost use Rattle.mailbox.specs.Interleaving.{HasAll, IsInterleaving, IsMoreLeft};
ghost use Rattle.mailbox.specs.Shares.{AreWhole};
ghost use Rattle.mailbox.specs.Ordered.{putter, taker, after_put, after_take, asked_once, joined_with};

use crossbeam_queue::{RuledSegQueue, SegPass};
use rule::{Asks, Halves, InOrder, Joins, Looks, Puts, Receipts, Sides, Takes, Tells, View};
use std::alloc::{AllocError, Global};
use std::marker::Model;
use std::sync::Wait;

mod rule;
#[cfg(test)]
mod tests;

type Line = RuledSegQueue<u32, View, InOrder>;

type LinePass = SegPass<u32, View>;

/// A queue of numbers with no bound, shared by reference. A contract sees its name, which its passes have too.
pub struct Mailbox {
    line: Line,
}

impl Model for Mailbox {
    ghost use Rattle.atomic_blocks.specs.Laid.{WebId};

    ghost Value = { WebId };

    ghost view = { λ m. m.line.web };
}

impl Drop for Mailbox {
    fn drop(self) {
        let Mailbox { line } = self;
        line.destroy();
    }
}

/// The right of one sender to put numbers into one mailbox. It has no bytes. A contract sees the mailbox's name,
/// how many splits the pass comes from, the list of what was put through it, how often it was asked to put, and whether the
/// last that it saw of the queue is a place that needs a new block of memory, or the end of the places.
#[derive(Drop)]
pub struct PutPass {
    seat: LinePass,
}

impl Model for PutPass {
    ghost use Rattle.mailbox.specs.Passes.{PutPassView, put_pass_view, IsPutSeat};

    ghost Value = { PutPassView };

    ghost view = { λ p. put_pass_view p.seat };

    ghost invariant = { λ p. IsPutSeat p.seat };
}

/// The right of the one receiver to take numbers from one mailbox. It has no bytes. A contract sees the mailbox's
/// name, the list of what was taken, of the put passes that were handed in the splits and the lists of what was put, how
/// often it was asked for a number, the receiver's own numbers that it was told of (`put_own`), and whether both ends of the
/// mailbox's queue were seen at one place since it was asked last.
#[derive(Drop)]
pub struct TakePass {
    seat: LinePass,
    last: Look,
}

impl Model for TakePass {
    ghost use Rattle.mailbox.specs.Passes.{TakePassView, take_pass_view, IsTakeSeat, AreOf};

    ghost Value = { TakePassView };

    ghost view = { λ p. take_pass_view p.seat p.last.front p.last.back };

    ghost invariant = { λ p. IsTakeSeat p.seat × AreOf p.seat.web p.last.front p.last.back };
}

// Two passes with no right, by which the front and the back of the queue were looked at.
#[derive(Drop)]
struct Look {
    front: LinePass,
    back: LinePass,
}

/// A law of the condition of `close`: the first pass alone is the whole right to put, and a split, of whichever
/// pass, keeps it whole.
pub fn split_keeps_whole()
    ensures first { AreWhole (0 ∷ []) }
    ensures split { (before after : List ℕ) (splits : ℕ) → AreWhole (before ++ splits ∷ after)
        → AreWhole ((before ++ (splits + 1) ∷ after) ++ (splits + 1) ∷ []) }
{}

impl Mailbox {
    ghost use Rattle.mailbox.specs.Passes.{IsFree, IsPutSeat, IsTaker, IsTakerAsKnown, AreOf, known_to, saw_no_room, is_empty_seen};

    /// An empty mailbox with its first put pass, which has the whole right to put, and its take pass. The error is
    /// want of memory.
    pub fn new(alloc: Global) -> Result<(Mailbox, PutPass, TakePass), AllocError>
        ensures put { IfOk result (λ r. (r.1.at ≡ r.0) × (r.1.splits ≡ 0) × (r.1.put ≡ [])) }
        ensures take { IfOk result (λ r. (r.2.at ≡ r.0) × (r.2.taken ≡ []) × (r.2.splits ≡ []) × (r.2.joined ≡ []) × (r.2.asked ≡ 0) × (r.2.own ≡ [])) }
    {
        let (line, mut first) = Line::with_rule(alloc)?;
        let mut second = line.another::<Sides>(&mut first);
        let front = line.another::<Looks>(&mut second);
        let back = line.another::<Looks>(&mut second);
        Ok((
            Mailbox { line },
            PutPass { seat: first },
            TakePass {
                seat: second,
                last: Look { front, back },
            },
        ))
    }

    /// A new put pass, which has put nothing. Each of the two has half of the share that `pass` had. It takes no memory.
    #[tactic(auto, using(crate::proofs::Forks::forks_halves))]
    pub fn split(&self, pass: &mut PutPass) -> PutPass
        requires { pass.old.at ≡ self.now }
        ensures same { (pass.new.at ≡ pass.old.at) × (pass.new.splits ≡ pass.old.splits + 1) × (pass.new.put ≡ pass.old.put)
            × (pass.new.asked ≡ pass.old.asked) }
        ensures new { (result.at ≡ self.now) × (result.splits ≡ pass.old.splits + 1) × (result.put ≡ []) }
    {
        let seat = self.line.another::<Halves>(&mut pass.seat);
        PutPass { seat }
    }

    /// Puts `number` behind those that this pass has put. The error hands the number back, and comes only where a place was seen
    /// that needs a new block, or the end of the queue's 2^62 places. That memory was wanting no clause says. The pass counts
    /// each call (`asked`), and what it saw before is forgotten then: so a refusal has looked at the queue in this very call.
    pub fn put<R: Wait>(&self, rt: &R, pass: &mut PutPass, number: u32) -> Result<(), u32>
        requires { pass.old.at ≡ self.now }
        ensures same { (pass.new.at ≡ pass.old.at) × (pass.new.splits ≡ pass.old.splits) }
        ensures asked { pass.new.asked ≡ pass.old.asked + 1 }
        ensures put { OnOk result (pass.new.put ≡ pass.old.put ++ number ∷ []) }
        ensures back { IfErr result (λ back. back ≡ number) }
        ensures none { OnErr result (pass.new.put ≡ pass.old.put) }
        ensures no_room { OnErr result (pass.new.needs_block ≡ true) }
    {
        self.push(rt, &mut pass.seat, number)
    }

    /// Puts `number` as `put` does, for the receiver: after Ok the take pass knows all that was put through its own put pass.
    pub fn put_own<R: Wait>(
        &self,
        rt: &R,
        take: &mut TakePass,
        own: &mut PutPass,
        number: u32,
    ) -> Result<(), u32>
        requires { (take.old.at ≡ self.now) × (own.old.at ≡ self.now) }
        ensures same { (own.new.at ≡ own.old.at) × (own.new.splits ≡ own.old.splits) }
        ensures asked { own.new.asked ≡ own.old.asked + 1 }
        ensures put { OnOk result (own.new.put ≡ own.old.put ++ number ∷ []) }
        ensures told { OnOk result (take.new ≡ record take.old { own = own.new.put }) }
        ensures back { IfErr result (λ back. back ≡ number) }
        ensures none { OnErr result ((own.new.put ≡ own.old.put) × (take.new ≡ take.old)) }
        ensures no_room { OnErr result (own.new.needs_block ≡ true) }
    {
        self.put(rt, own, number)?;
        self.tell(take, own);
        Ok(())
    }

    /// Takes a number; those of one put pass come in their order, as `close` tells. After `None` what was taken has all that was
    /// put through the passes that were handed in, and the receiver's own numbers that the pass was told of. The pass counts each
    /// call (`asked`). `None` comes only where both ends of the queue were seen at one place since this count (`looked`), so that
    /// nothing lay between them.
    #[tactic(auto, using(crate::proofs::Moves::all_taken))]
    pub fn take<R: Wait>(&self, rt: &R, pass: &mut TakePass) -> Option<u32>
        requires { pass.old.at ≡ self.now }
        ensures same { (pass.new.at ≡ pass.old.at) × (pass.new.splits ≡ pass.old.splits) × (pass.new.joined ≡ pass.old.joined)
            × (pass.new.own ≡ pass.old.own) }
        ensures asked { pass.new.asked ≡ pass.old.asked + 1 }
        ensures empty { IfNone result (HasAll pass.old.joined pass.old.taken) }
        ensures own { IfNone result (HasAll (pass.old.own ∷ []) pass.old.taken) }
        ensures looked { IfNone result (pass.new.saw_empty ≡ true) }
        ensures taken { MatchOption result (pass.new.taken ≡ pass.old.taken) (λ number. pass.new.taken ≡ pass.old.taken ++ number ∷ []) }
    {
        self.ask(&mut pass.seat);
        match self.search(rt, &mut pass.seat) {
            Ok(number) => Some(number),
            Err(look) => {
                pass.last = look;
                None
            }
        }
    }

    /// Hands in a put pass, through which nothing more is put. It takes no memory.
    pub fn join(&self, pass: &mut TakePass, put: PutPass)
        requires { (pass.old.at ≡ self.now) × (put.at ≡ self.now) }
        ensures same { (pass.new.at ≡ pass.old.at) × (pass.new.taken ≡ pass.old.taken) × (pass.new.asked ≡ pass.old.asked)
            × (pass.new.own ≡ pass.old.own) }
        ensures joined { (pass.new.splits ≡ pass.old.splits ++ put.splits ∷ []) × (pass.new.joined ≡ pass.old.joined ++ put.put ∷ []) }
    {
        self.take_in(&mut pass.seat, put);
    }

    /// Ends the mailbox and gives what was not taken, in order. It asks for all passes: the shares of the put passes,
    /// those handed in before among them, are the whole right to put. What was taken and then the rest is an
    /// interleaving of what the put passes put. The error is want of memory. It comes only where something is left, and drops
    /// that.
    pub fn close<R: Wait>(
        self,
        rt: &R,
        alloc: Global,
        puts: Vec<PutPass>,
        take: TakePass,
    ) -> Result<Vec<u32>, AllocError>
        requires same { (take.at ≡ self) × All (λ p. p.at ≡ self) puts.items }
        requires all { AreWhole (take.splits ++ map (λ p. p.splits) puts.items) }
        ensures rest { IfOk result (λ rest.
            IsInterleaving (take.joined ++ map (λ p. p.put) puts.items) (take.taken ++ rest.items)) }
        ensures left { OnErr result (IsMoreLeft (take.joined ++ map (λ p. p.put) puts.items) take.taken) }
    {
        let TakePass { mut seat, last: _ } = take;
        self.join_all(&mut seat, puts);
        self.drain(rt, alloc, &mut seat)
    }

    // The take pass learns what was put through a put pass.
    fn tell(&self, take: &mut TakePass, own: &mut PutPass)
        requires { (take.old.at ≡ self.now) × (own.old.at ≡ self.now) }
        ensures same { (own.new.at ≡ own.old.at) × (own.new.splits ≡ own.old.splits) × (own.new.put ≡ own.old.put)
            × (own.new.asked ≡ own.old.asked) }
        ensures told { take.new ≡ record take.old { own = own.old.put } }
    {
        let receipt = self.line.another::<Receipts>(&mut own.seat);
        self.line.absorb::<Tells>(&mut take.seat, receipt);
    }

    // The take pass counts that it was asked. So whatever tells of this count was made from here on.
    fn ask(&self, seat: &mut LinePass)
        requires { IsTakerAsKnown self.now seat.old }
        ensures { IsTaker self.now (asked_once (known_to seat.old)) seat.new }
    {
        let _ = self.line.another::<Asks>(seat);
    }

    // One step of a put pass, which counts that it was asked: the number goes to the back of the queue. What the pass saw
    // before no clause of the kit tells then, so a refusal has looked since.
    fn push<R: Wait>(&self, rt: &R, seat: &mut LinePass, number: u32) -> Result<(), u32>
        requires { (seat.old.web ≡ self.now) × IsPutSeat seat.old }
        ensures seat { (seat.new.web ≡ self.now) × IsFree seat.new }
        ensures put { OnOk result (known_to seat.new ≡ after_put (asked_once (known_to seat.old)) number) }
        ensures back { IfErr result (λ back. back ≡ number) }
        ensures none { OnErr result (known_to seat.new ≡ asked_once (known_to seat.old)) }
        ensures no_room { OnErr result (saw_no_room seat.new.me.view.stage seat.new.me.view.at ≡ true) }
    {
        let _ = self.line.another::<Asks>(seat);
        self.line.push_as::<Puts, R>(rt, seat, number)
    }

    // The front and the back of the queue, each seen by a new pass, where they are at one place.
    fn look(&self, seat: &mut LinePass) -> Option<Look>
        requires { IsTakerAsKnown self.now seat.old }
        ensures seat { IsTaker self.now (known_to seat.old) seat.new }
        ensures of { IfSome result (λ look. AreOf self.now look.front look.back) }
        ensures empty { IfSome result (λ look. is_empty_seen (known_to seat.old).asked look.front look.back ≡ true) }
    {
        let mut front = self.line.another::<Looks>(seat);
        let mut back = self.line.another::<Looks>(seat);
        let head = self.line.head(&mut front);
        let tail = self.line.tail(&mut back);
        if head / 2 == tail / 2 {
            Some(Look { front, back })
        } else {
            None
        }
    }

    // The number at the front of the queue, or a look at the ends that shows that there is none.
    fn search<R: Wait>(&self, rt: &R, seat: &mut LinePass) -> Result<u32, Look>
        requires { IsTakerAsKnown self.now seat.old }
        ensures seat { (seat.new.web ≡ self.now) × IsFree seat.new }
        ensures taken { IfOk result (λ number. known_to seat.new ≡ after_take (known_to seat.old) number) }
        ensures none { OnErr result (known_to seat.new ≡ known_to seat.old) }
        ensures of { IfErr result (λ look. AreOf self.now look.front look.back) }
        ensures looked { IfErr result (λ look. is_empty_seen (known_to seat.old).asked look.front look.back ≡ true) }
        ensures empty { OnErr result (HasAll (known_to seat.old).joined ((known_to seat.old).taken ++ [])) }
        ensures own { OnErr result (HasAll ((known_to seat.old).own ∷ []) ((known_to seat.old).taken ++ [])) }
    {
        for _ in rt.forever() {
            if let Some(number) = self.pop(rt, seat) {
                return Ok(number);
            }
            if let Some(look) = self.look(seat) {
                return Err(look);
            }
        }
        unreachable!()
    }

    // The number at the front of the queue, if any. Where there is none, the take pass has taken all that was put through the
    // passes which it took in, and nothing else once these are the whole right to put.
    fn pop<R: Wait>(&self, rt: &R, seat: &mut LinePass) -> Option<u32>
        requires { IsTakerAsKnown self.now seat.old }
        ensures seat { (seat.new.web ≡ self.now) × IsFree seat.new }
        ensures taken { MatchOption result (known_to seat.new ≡ known_to seat.old)
            (λ number. known_to seat.new ≡ after_take (known_to seat.old) number) }
        ensures more { IfSome result (λ number.
            AreWhole (known_to seat.old).splits → IsMoreLeft (known_to seat.old).joined (known_to seat.old).taken) }
        ensures empty { IfNone result (HasAll (known_to seat.old).joined ((known_to seat.old).taken ++ [])) }
        ensures own { IfNone result (HasAll ((known_to seat.old).own ∷ []) ((known_to seat.old).taken ++ [])) }
        ensures all { IfNone result (AreWhole (known_to seat.old).splits → IsInterleaving (known_to seat.old).joined ((known_to seat.old).taken ++ [])) }
    {
        self.line.pop_as::<Takes, R>(rt, seat)
    }

    // The take pass takes in a put pass.
    fn take_in(&self, seat: &mut LinePass, put: PutPass)
        requires put { put.at ≡ self.now }
        requires taker { IsTakerAsKnown self.now seat.old }
        ensures { IsTaker self.now (joined_with (known_to seat.old) (putter put.splits put.put put.asked)) seat.new }
    {
        let PutPass { seat: other } = put;
        self.line.absorb::<Joins>(seat, other);
    }

    // The take pass takes in the put passes, in their order.
    fn join_all(&self, seat: &mut LinePass, puts: Vec<PutPass>)
        requires same { All (λ p. p.at ≡ self.now) puts.items }
        requires taker { IsTakerAsKnown self.now seat.old }
        ensures { let known = known_to seat.old in
            IsTaker self.now (taker (known.splits ++ map (λ p. p.splits) puts.items) known.taken (known.joined ++ map (λ p. p.put) puts.items) known.asked known.own) seat.new }
    {
        for put in puts {
            self.take_in(seat, put);
        }
    }

    // Takes until the queue is empty. Memory is asked for only once a number was taken, so it lacks only where one is left.
    fn drain<R: Wait>(
        &self,
        rt: &R,
        alloc: Global,
        seat: &mut LinePass,
    ) -> Result<Vec<u32>, AllocError>
        requires whole { AreWhole (known_to seat.old).splits }
        requires taker { IsTakerAsKnown self.now seat.old }
        ensures rest { IfOk result (λ rest. IsInterleaving (known_to seat.old).joined ((known_to seat.old).taken ++ rest.items)) }
        ensures left { OnErr result (IsMoreLeft (known_to seat.old).joined (known_to seat.old).taken) }
    {
        let mut rest = Vec::new(alloc);
        for _ in rt.forever() {
            match self.pop(rt, seat) {
                Some(number) => rest.push(number)?,
                None => return Ok(rest),
            }
        }
        unreachable!()
    }
}
