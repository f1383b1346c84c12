//! A short list of envelopes.

ghost use Rattle.std.specs.Prelude.{◌≡◌, ◌==◌, [], ◌∷◌, ◌++◌, length, remove, slice_get, IfSome, IfNone, OnOk, OnErr};

use crate::envelope::Envelope;
use std::alloc::{AllocError, Global};
use std::collections::VecDeque;
use std::marker::Model;

// Envelopes in order. One is added behind the others, or taken from the front, at a constant cost.
#[derive(Drop)]
pub(crate) struct Block {
    envelopes: VecDeque<Envelope>,
}

impl Model for Block {
    ghost use Rattle.std.specs.Prelude.{List};
    ghost use Rattle.step_driver.specs.declared.envelope.Envelope.{Envelope};

    ghost Value = { List Envelope };

    ghost view = { λ block. block.envelopes.items };
}

impl Block {
    // No envelope. It takes no memory.
    pub(crate) fn new(alloc: Global) -> Block
        ensures { result ≡ [] }
    {
        Block {
            envelopes: VecDeque::new(alloc),
        }
    }

    // How many there are.
    pub(crate) fn len(&self) -> usize
        ensures { result ≡ length self.now }
    {
        self.envelopes.len()
    }

    // Adds one behind the others. Err changes nothing.
    pub(crate) fn push(&mut self, envelope: Envelope) -> Result<(), AllocError>
        ensures ok { OnOk result (self.new ≡ self.old ++ envelope ∷ []) }
        ensures err { OnErr result (self.new ≡ self.old) }
    {
        self.envelopes.push_back(envelope)?;
        Ok(())
    }

    // Takes out the one at this place, and None where there are no more than so many.
    pub(crate) fn take(&mut self, at: usize) -> Option<Envelope>
        ensures taken { result ≡ slice_get self.old at }
        ensures rest { IfSome result (λ _. self.new ≡ remove self.old at) }
        ensures none { IfNone result (self.new ≡ self.old) }
    {
        self.envelopes.remove(at)
    }
}
