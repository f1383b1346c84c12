//! The numbers of the posts that an actor has made.
ghost use Rattle.std.specs.Prelude.{◌≡◌, [], ◌∷◌, ◌++◌, OnOk, OnErr};

use std::alloc::{AllocError, Global};
use std::marker::Model;

/// The numbers of the posts that an actor has made, in order. Clauses see the list.
#[derive(Debug, Drop)]
pub struct Outbox {
    numbers: Vec<u32>,
}

impl Model for Outbox {
    ghost use Rattle.std.specs.Prelude.{List, ℕ};

    ghost Value = { List ℕ };

    ghost view = { λ outbox. outbox.numbers.items };
}

impl Outbox {
    /// No number. It takes no memory.
    pub fn new(alloc: Global) -> Outbox
        ensures { result ≡ [] }
    {
        Outbox {
            numbers: Vec::new(alloc),
        }
    }

    /// Adds a number behind the others. Want of memory changes nothing.
    pub fn push(&mut self, k: u32) -> Result<(), AllocError>
        ensures ok { OnOk result (self.new ≡ self.old ++ k ∷ []) }
        ensures err { OnErr result (self.new ≡ self.old) }
    {
        self.numbers.push(k)?;
        Ok(())
    }

    /// The numbers, lent.
    pub fn numbers(&self) -> &[u32]
        ensures { result.now ≡ self.now }
    {
        self.numbers.as_slice()
    }

    /// Forgets all numbers.
    pub fn clear(&mut self)
        ensures { self.new ≡ [] }
    {
        self.numbers.clear();
    }
}
