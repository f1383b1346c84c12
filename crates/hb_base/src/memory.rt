//! A source and a sink in memory, of which chosen calls fail.
ghost use Rattle.std.specs.Prelude.{◌≡◌, ◌⊎◌, ℕ, ◌+◌, ◌-◌, ◌^◌, ◌<◌, ◌≤◌, ◌↔◌, min, [], ◌++◌, List, length, drop, Some, vec_capacity, IsErr, IsTrue, IfOk, OnOk, OnErr, MatchResult, Contains};
ghost use Rattle.std.specs.Io.{ReadsAtMost};
ghost use Rattle.std.specs.Io.KnownBytes.{ReadConsumes};
ghost use Rattle.hb_base.specs.Outside.{HasCause, CountsOne, Puts};

use crate::bytes::Bytes;
use crate::outside::{Failed, Sink, Source};
use std::alloc::{AllocError, Global};
use std::marker::Model;

/// A source over bytes in memory, of which chosen calls fail. Clauses see a `Tape`.
#[derive(Debug, Drop)]
pub struct MemorySource {
    bytes: Bytes,
    at: usize,
    step: u32,
    failing: Vec<u32>,
    calls: u64,
    faults: u64,
}

impl Model for MemorySource {
    ghost use Rattle.std.specs.Prelude.{◌<◌, ◌≤◌, length, drop};
    ghost use Rattle.hb_base.specs.Memory.{Tape};

    ghost Value = { Tape };

    ghost view = { λ s. record {
      left = drop s.at s.bytes;
      step = s.step;
      failing = s.failing.items;
      calls = s.calls;
      faults = s.faults;
    } };

    ghost invariant = { λ s. (s.at ≤ length s.bytes) × (0 < s.step) };
}

impl MemorySource {
    /// A source of these bytes, at most `step` in one call. Calls are numbered from 1; those in `failing` fail and
    /// take nothing.
    pub fn new(bytes: Bytes, step: u32, failing: Vec<u32>) -> MemorySource
        requires { 0 < step }
        ensures { result ≡ record { left = bytes; step = step; failing = failing.items; calls = 0; faults = 0 } }
    {
        MemorySource {
            bytes,
            at: 0,
            step,
            failing,
            calls: 0,
            faults: 0,
        }
    }
}

impl Source for MemorySource {
    ghost left = { λ s. Some s.left };

    ghost faults = { λ s. s.faults };

    fn take(&mut self, buf: &mut [u8]) -> Result<usize, Failed>
        requires { 0 < length buf.old }
        ensures bound { ReadsAtMost result buf.new }
        ensures bytes { ReadConsumes (Some self.old.left) (Some self.new.left) result buf.new }
        ensures cause { HasCause self.old.faults self.new.faults result }
        ensures count { IfOk result (λ n. n ≡ min (min self.old.step (length buf.old)) (length self.old.left)) }
        ensures rest { MatchResult result (λ n. drop n buf.new ≡ drop n buf.old) (λ _. buf.new ≡ buf.old) }
        ensures fails { IsErr result ↔ Contains self.old.failing self.new.calls }
        ensures faults { CountsOne self.old.faults self.new.faults result }
        ensures calls { self.new.calls ≡ min (self.old.calls + 1) (2 ^ 64 - 1) }
        ensures plan { (self.new.step ≡ self.old.step) × (self.new.failing ≡ self.old.failing) }
    {
        self.calls = self.calls.saturating_add(1);
        if is_named(&self.failing, self.calls) {
            self.faults = self.faults.saturating_add(1);
            return Err(Failed);
        }
        let left = self.bytes.as_slice().split_at(self.at).1;
        let count = left.len().min(buf.len()).min(self.step as usize);
        buf[..count].copy_from_slice(&left[..count]);
        self.at += count;
        Ok(count)
    }
}

/// A sink in memory, of which chosen calls fail. Clauses see a `Shelf`.
#[derive(Debug, Drop)]
pub struct MemorySink {
    bytes: Vec<u8>,
    failing: Vec<u32>,
    calls: u64,
    faults: u64,
}

impl Model for MemorySink {
    ghost use Rattle.std.specs.Prelude.{vec_capacity};
    ghost use Rattle.hb_base.specs.Memory.{Shelf};

    ghost Value = { Shelf };

    ghost view = { λ s. record {
      held = s.bytes.items;
      room = vec_capacity s.bytes;
      failing = s.failing.items;
      calls = s.calls;
      faults = s.faults;
    } };
}

impl MemorySink {
    /// An empty sink that has no room yet. Calls are numbered from 1; those in `failing` fail and append nothing. So does
    /// one that needs more room and finds no memory for it.
    pub fn new(alloc: Global, failing: Vec<u32>) -> MemorySink
        ensures { result ≡ record { held = []; room = 0; failing = failing.items; calls = 0; faults = 0 } }
    {
        MemorySink::of(Vec::new(alloc), failing)
    }

    /// The same with room for so many bytes. A call whose bytes fit in beside those that it holds fails only if it is in
    /// `failing`.
    pub fn with_room(
        alloc: Global,
        room: usize,
        failing: Vec<u32>,
    ) -> Result<MemorySink, AllocError>
        ensures { IfOk result (λ sink. sink ≡ record { held = []; room = room; failing = failing.items; calls = 0; faults = 0 }) }
    {
        Ok(MemorySink::of(Vec::with_capacity(alloc, room)?, failing))
    }

    // A sink of these bytes.
    fn of(bytes: Vec<u8>, failing: Vec<u32>) -> MemorySink
        ensures { result ≡ record { held = bytes.items; room = vec_capacity bytes; failing = failing.items; calls = 0; faults = 0 } }
    {
        MemorySink {
            bytes,
            failing,
            calls: 0,
            faults: 0,
        }
    }

    /// The bytes that it holds.
    pub fn held(&self) -> &[u8]
        ensures { result.now ≡ self.now.held }
    {
        self.bytes.as_slice()
    }
}

impl Sink for MemorySink {
    ghost held = { λ s. Some s.held };

    ghost faults = { λ s. s.faults };

    fn put(&mut self, bytes: &[u8]) -> Result<(), Failed>
        ensures bytes { Puts (Some self.old.held) (Some self.new.held) result bytes.now }
        ensures cause { HasCause self.old.faults self.new.faults result }
        ensures nothing { OnErr result (self.new.held ≡ self.old.held) }
        ensures fails { Contains self.old.failing self.new.calls → IsErr result }
        ensures fits { OnErr result (Contains self.old.failing self.new.calls ⊎ (self.old.room < length self.old.held + length bytes.now)) }
        ensures room { (self.old.room ≤ self.new.room) × (length self.new.held ≤ self.new.room) }
        ensures faults { CountsOne self.old.faults self.new.faults result }
        ensures calls { self.new.calls ≡ min (self.old.calls + 1) (2 ^ 64 - 1) }
        ensures plan { self.new.failing ≡ self.old.failing }
    {
        self.calls = self.calls.saturating_add(1);
        if is_named(&self.failing, self.calls) {
            self.faults = self.faults.saturating_add(1);
            return Err(Failed);
        }
        if self.bytes.extend_from_slice(bytes).is_err() {
            self.faults = self.faults.saturating_add(1);
            return Err(Failed);
        }
        Ok(())
    }
}

// Whether the list of failing calls names this one.
fn is_named(failing: &Vec<u32>, call: u64) -> bool
    ensures { IsTrue result ↔ Contains failing.now.items call }
{
    failing.iter().any(|named| u64::from(*named) == call)
}
