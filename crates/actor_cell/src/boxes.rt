//! The mailboxes of a run.
ghost use Rattle.std.specs.Prelude.{◌≡◌, ℕ, ◌+◌, ◌<◌, ◌≤◌, ◌++◌, true, false, List, [], ◌∷◌, length, map, All, slice_get, slice_index_or, IfOk, IfErr, IfNone, OnOk, OnErr, MatchOption, Some};
ghost use Rattle.mailbox.specs.Interleaving.{HasAll};
ghost use Rattle.actor_cell.specs.Boxes.{owners, owners_below, owner_of, place_of, firsts_below, BoxesView};
ghost use Rattle.actor_cell.specs.Passes.{ArePassesOf, AreDealt, with_put, puts_of, own_puts, names_of, splits_of, needs_block_at};
ghost use Rattle.hb_base.specs.Numbers.{Numbers};
ghost use Rattle.actor_cell.specs.Making.{IsMade, AreNew};

use crate::passes::Passes;
use hb_base::Config;
use mailbox::{Mailbox, PutPass, TakePass};
use std::alloc::{AllocError, Global};
use std::marker::Model;
use std::sync::Wait;

/// The mailboxes of a run, by node and then actor: one for each actor of a correct node, and one for each node that lies. Clauses
/// see the config and the mailboxes' names.
#[derive(Drop)]
pub struct Boxes {
    config: Config,
    // for each node, how many mailboxes those before it have
    firsts: Vec<usize>,
    boxes: Vec<Mailbox>,
}

impl Model for Boxes {
    ghost use Rattle.std.specs.Prelude.{◌≡◌, length};
    ghost use Rattle.actor_cell.specs.Boxes.{BoxesView, owners, firsts_below};

    ghost Value = { BoxesView };

    ghost view = { λ b. record { config = b.config; names = b.boxes.items } };

    ghost invariant = { λ b. (b.firsts.items ≡ firsts_below b.config b.config.n) × (length b.boxes.items ≡ length (owners b.config)) };
}

/// A law of where mailboxes stand: the one of an actor, or of its node if it lies, is at its own place among all. So actors that
/// share no mailbox have two places.
pub fn each_has_its_place()
    ensures { (c : Numbers) (i x : ℕ) → i < c.n → x ≤ c.n → slice_get (owners c) (place_of c i x) ≡ Some (owner_of c i x) }
{}

impl Boxes {
    /// The mailboxes of a run of this config, all empty, and for each of them, in the same order, its take pass with a put pass
    /// of each mailbox. It costs a step for each two mailboxes, of which there are at most 272. The error is want of memory.
    pub fn new(alloc: Global, config: &Config) -> Result<(Boxes, Vec<Passes>), AllocError>
        ensures boxes { IfOk result (λ r. (r.0.config ≡ config.now) × (length r.0.names ≡ length (owners config.now))) }
        ensures passes { IfOk result (λ r. AreDealt r.0.names r.1.items) }
        ensures fit { IfOk result (λ r. All (ArePassesOf r.0) r.1.items) }
    {
        let Making {
            firsts,
            boxes,
            mut puts,
            takes,
        } = Making::of(alloc, config)?;
        let passes = Passes::deal(alloc, boxes.as_slice(), &mut puts, takes)?;
        let config = *config;
        Ok((
            Boxes {
                config,
                firsts,
                boxes,
            },
            passes,
        ))
    }

    /// The config of the run.
    pub fn config(&self) -> Config
        ensures { result ≡ self.now.config }
    {
        self.config
    }

    /// Puts a number into the mailbox of an actor, or of its node if it lies. The error hands the number back, and comes only
    /// where a place was seen that needs a new block, or the end of the queue's 2^62 places. That memory was wanting no clause
    /// says. The take pass is told of a put into the own mailbox, and nothing else of it changes.
    pub fn put<R: Wait>(
        &self,
        rt: &R,
        passes: &mut Passes,
        node: u8,
        actor: u8,
        number: u32,
    ) -> Result<(), u32>
        requires known { (node < self.now.config.n) × (actor ≤ self.now.config.n) }
        requires passes { ArePassesOf self.now passes.old }
        ensures passes { ArePassesOf self.now passes.new }
        ensures same { (passes.new.place ≡ passes.old.place)
            × (passes.new.take ≡ record passes.old.take { own = passes.new.take.own })
            × (splits_of passes.new ≡ splits_of passes.old) }
        ensures put { OnOk result (puts_of passes.new ≡ with_put (place_of self.now.config node actor) number (puts_of passes.old)) }
        ensures back { IfErr result (λ back. back ≡ number) }
        ensures none { OnErr result (puts_of passes.new ≡ puts_of passes.old) }
        ensures no_room { OnErr result (needs_block_at (place_of self.now.config node actor) passes.new ≡ true) }
    {
        let place = self.place_of(node, actor);
        let mailbox = &self.boxes[place];
        let is_own = place == passes.place;
        let pass = &mut passes.puts[place];
        if is_own {
            mailbox.put_own(rt, &mut passes.take, pass, number)
        } else {
            mailbox.put(rt, pass, number)
        }
    }

    /// Takes a number from the mailbox whose take pass this is, as `Mailbox::take`. After `None` both ends of its queue were seen
    /// at one place in this call, and what was taken has all that was put through the passes that were handed in, and all own
    /// puts.
    pub fn take<R: Wait>(&self, rt: &R, passes: &mut Passes) -> Option<u32>
        requires passes { ArePassesOf self.now passes.old }
        ensures passes { ArePassesOf self.now passes.new }
        ensures same { (passes.new.place ≡ passes.old.place) × (passes.new.puts ≡ passes.old.puts)
            × (passes.new.take.splits ≡ passes.old.take.splits) × (passes.new.take.joined ≡ passes.old.take.joined) }
        ensures asked { passes.new.take.asked ≡ passes.old.take.asked + 1 }
        ensures empty { IfNone result (HasAll passes.old.take.joined passes.old.take.taken) }
        ensures own { IfNone result (HasAll (own_puts passes.old ∷ []) passes.old.take.taken) }
        ensures looked { IfNone result (passes.new.take.saw_empty ≡ true) }
        ensures taken { MatchOption result (passes.new.take.taken ≡ passes.old.take.taken)
            (λ number. passes.new.take.taken ≡ passes.old.take.taken ++ number ∷ []) }
    {
        let mailbox = &self.boxes[passes.place];
        mailbox.take(rt, &mut passes.take)
    }

    // Where the mailbox of an actor, or of its node if it lies, stands among all.
    fn place_of(&self, node: u8, actor: u8) -> usize
        requires { (node < self.now.config.n) × (actor ≤ self.now.config.n) }
        ensures place { result ≡ place_of self.now.config node actor }
        ensures within { result < length self.now.names }
    {
        let first = self.firsts[node as usize];
        if self.config.liars().has(node) {
            first
        } else {
            first + actor as usize
        }
    }
}

// Mailboxes in the making, with the first put pass and the take pass of each.
#[derive(Drop)]
struct Making {
    firsts: Vec<usize>,
    boxes: Vec<Mailbox>,
    puts: Vec<PutPass>,
    takes: Vec<TakePass>,
}

impl Making {
    // The mailboxes of a run of this config.
    fn of(alloc: Global, config: &Config) -> Result<Making, AllocError>
        ensures { IfOk result (λ made. IsMade config.now config.now.n made) }
    {
        let mut made = Making {
            firsts: Vec::new(alloc),
            boxes: Vec::new(alloc),
            puts: Vec::new(alloc),
            takes: Vec::new(alloc),
        };
        for node in 0..config.n() {
            made.add_node(alloc, config, node)?;
        }
        Ok(made)
    }

    // Adds those of one node more.
    fn add_node(&mut self, alloc: Global, config: &Config, node: u8) -> Result<(), AllocError>
        requires { IsMade config.now node self.old }
        ensures { OnOk result (IsMade config.now (node + 1) self.new) }
    {
        self.firsts.push(self.boxes.len())?;
        let count = if config.liars().has(node) {
            1
        } else {
            config.n() + 1
        };
        for _ in 0..count {
            self.add(alloc)?;
        }
        Ok(())
    }

    // Adds one.
    fn add(&mut self, alloc: Global) -> Result<(), AllocError>
        requires { AreNew self.old }
        ensures new { OnOk result (AreNew self.new) }
        ensures count { OnOk result (length self.new.boxes.items ≡ length self.old.boxes.items + 1) }
        ensures firsts { OnOk result (self.new.firsts.items ≡ self.old.firsts.items) }
    {
        let (mailbox, put, take) = Mailbox::new(alloc)?;
        self.boxes.push(mailbox)?;
        self.puts.push(put)?;
        self.takes.push(take)?;
        Ok(())
    }
}
