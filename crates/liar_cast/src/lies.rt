//! What a liar has said and nobody has posted yet.

ghost use Rattle.std.specs.Prelude.{◌≡◌, ◌≢◌, ◌<◌, ◌≤◌, ◌↔◌, [], length, OnOk, OnErr};
ghost use Rattle.hb_base.specs.Limits.{most_lies, longest_lie};
ghost use Rattle.liar_cast.specs.Lies.{IsWithinLimits, no_lies, with_lie};

use hb_base::Bytes;
use hb_base::limits::{LONGEST_LIE, MOST_LIES};
use hb_wire::{Lie, To};
use std::alloc::{AllocError, Global};
use std::marker::Model;

/// What became of a lie that a liar wants to tell.
#[derive(Clone, Copy, Debug, PartialEq, Eq)]
pub enum Said {
    /// It has more than 20,000 bytes and was not taken.
    Long,
    /// 4,096 lies were taken already, and it was not.
    Spent,
    /// There is no memory for it.
    Memory,
    /// It waits to be posted.
    Taken,
}

/// The lies of one liar: those that wait to be posted, and how many were ever taken, at most 4,096.
#[derive(Debug, Drop)]
pub struct Lies {
    node: u8,
    waiting: Vec<Lie>,
    taken: u32,
}

impl Model for Lies {
    ghost use Rattle.liar_cast.specs.Lies.{LiesView, IsWithinLimits};

    ghost Value = { LiesView };

    ghost view = { λ l. record { node = l.node; waiting = l.waiting.items; taken = l.taken } };

    ghost invariant = { λ l. IsWithinLimits (record { node = l.node; waiting = l.waiting.items; taken = l.taken }) };
}

impl Lies {
    /// No lie, and none taken yet.
    pub fn new(alloc: Global, node: u8) -> Lies
        ensures { result ≡ no_lies node }
    {
        Lies {
            node,
            waiting: Vec::new(alloc),
            taken: 0,
        }
    }

    /// The lies that were taken since the last `clear`, in order, each under this node.
    pub fn waiting(&self) -> &[Lie]
        ensures lies { result.now ≡ self.now.waiting }
        ensures limits { IsWithinLimits self.now }
    {
        self.waiting.as_slice()
    }

    /// Forgets the lies that wait. How many were taken stays.
    pub fn clear(&mut self)
        ensures { self.new ≡ record self.old { waiting = [] } }
    {
        self.waiting.clear();
    }

    /// Takes a lie in this actor's name: bytes, and where they go. Anything but `Taken` changes nothing, and the first
    /// answer that holds comes: `Long` exactly above 20,000 bytes, `Spent` exactly after 4,096 lies, `Memory`, `Taken`.
    pub fn say(&mut self, alloc: Global, actor: u8, to: To, bytes: &[u8]) -> Said
        ensures long { (result ≡ Said.Long) ↔ (longest_lie < length bytes.now) }
        ensures spent { (result ≡ Said.Spent) ↔ (length bytes.now ≤ longest_lie) × (self.old.taken ≡ most_lies) }
        ensures taken { result ≡ Said.Taken → self.new ≡ with_lie self.old actor to bytes.now }
        ensures other { result ≢ Said.Taken → self.new ≡ self.old }
    {
        if bytes.len() > LONGEST_LIE {
            return Said::Long;
        }
        if self.taken == MOST_LIES {
            return Said::Spent;
        }
        match self.add(alloc, actor, to, bytes) {
            Ok(()) => Said::Taken,
            Err(_) => Said::Memory,
        }
    }

    fn add(&mut self, alloc: Global, actor: u8, to: To, bytes: &[u8]) -> Result<(), AllocError>
        requires room { self.old.taken < most_lies }
        requires short { length bytes.now ≤ longest_lie }
        ensures ok { OnOk result (self.new ≡ with_lie self.old actor to bytes.now) }
        ensures err { OnErr result (self.new ≡ self.old) }
    {
        let bytes = Bytes::copy(alloc, bytes)?;
        self.waiting.push(Lie {
            node: self.node,
            actor,
            to,
            bytes,
        })?;
        self.taken += 1;
        Ok(())
    }
}
