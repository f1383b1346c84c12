//! Bytes that were taken of a source and are not used yet.

ghost use Rattle.std.specs.Prelude.{◌≡◌, [], ◌++◌, ◌+◌, ◌-◌, ◌≤◌, length, drop, OnOk};
ghost use Rattle.trace_reader.specs.Trace.{longest_trace};

use std::alloc::{AllocError, Global};
use std::marker::Model;
use trace_reader::LONGEST_TRACE;

/// Bytes that were taken and are not used yet, and how many more may be taken. A contract sees both.
#[derive(Drop)]
pub(crate) struct Window {
    bytes: Vec<u8>,
    // The bytes before this place are used.
    at: usize,
    budget: usize,
}

impl Model for Window {
    ghost use Rattle.std.specs.Prelude.{◌≤◌, length, drop};
    ghost use Rattle.votes_app.specs.Window.{Span};

    ghost Value = { Span };

    ghost view = { λ w. record { bytes = drop w.at w.bytes.items; budget = w.budget } };

    ghost invariant = { λ w. w.at ≤ length w.bytes.items };
}

impl Window {
    // No bytes. One byte more may be taken than the text of a history may have, which shows that there are more.
    pub(crate) fn new(alloc: Global) -> Window
        ensures { result ≡ record { bytes = []; budget = longest_trace + 1 } }
    {
        Window {
            bytes: Vec::new(alloc),
            at: 0,
            budget: LONGEST_TRACE + 1,
        }
    }

    // The bytes.
    pub(crate) fn bytes(&self) -> &[u8]
        ensures { result.now ≡ self.now.bytes }
    {
        &self.bytes.as_slice()[self.at..]
    }

    // How many more may be taken.
    pub(crate) fn budget(&self) -> usize
        ensures { result ≡ self.now.budget }
    {
        self.budget
    }

    // Uses so many bytes.
    pub(crate) fn skip(&mut self, count: usize)
        requires { count ≤ length self.old.bytes }
        ensures bytes { self.new.bytes ≡ drop count self.old.bytes }
        ensures budget { self.new.budget ≡ self.old.budget }
    {
        self.at += count;
    }

    // Lets go of the bytes that are used. After an error the window is as it was.
    pub(crate) fn tidy(&mut self) -> Result<(), AllocError>
        ensures bytes { self.new.bytes ≡ self.old.bytes }
        ensures budget { self.new.budget ≡ self.old.budget }
    {
        if self.at == 0 {
            return Ok(());
        }
        let mut rest = Vec::new(*self.bytes.allocator());
        rest.extend_from_slice(&self.bytes.as_slice()[self.at..])?;
        self.bytes = rest;
        self.at = 0;
        Ok(())
    }

    // Adds bytes that were taken.
    pub(crate) fn add(&mut self, bytes: &[u8]) -> Result<(), AllocError>
        requires { length bytes.now ≤ self.old.budget }
        ensures bytes { OnOk result (self.new.bytes ≡ self.old.bytes ++ bytes.now) }
        ensures budget { OnOk result (self.new.budget + length bytes.now ≡ self.old.budget) }
    {
        self.bytes.extend_from_slice(bytes)?;
        self.budget -= bytes.len();
        Ok(())
    }
}
