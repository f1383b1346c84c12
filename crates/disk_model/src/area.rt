//! One half of a disk in memory.
ghost use Rattle.std.specs.Prelude.{◌≡◌, ◌≤◌, ◌<◌, ◌+◌, ◌%◌, ◌^◌, ◌==◌, ◌&&◌, [], length, IfOk, OnOk, OnErr, ℕ, false, slice_index, if◌then◌else◌};
ghost use Rattle.disk_model.specs.Disk.{overwritten, Reads};
ghost use Rattle.disk_model.specs.Area.{IsKept, at_rest, after_write, after_cut, left_by, torn_from, is_in, is_written};

use crate::plan::Leave;
use crate::span::Span;
use crate::undo::{UndoBytes, copied};
use std::alloc::{AllocError, Global};
use std::marker::Model;

/// What stands at the odd offsets of a range that was torn.
const TORN_BYTE: u8 = 0x5A;

/// One half: its bytes, and what a crash may make of them.
#[derive(Drop)]
pub(crate) struct Area {
    /// What a read gives, and behind it what was cut off since the last successful sync. It can put back what that sync
    /// left.
    bytes: UndoBytes,
    /// How many bytes a read gives.
    len: usize,
    /// The ranges written since that sync.
    written: Vec<Span>,
    /// The least length since that sync.
    least: usize,
}

impl Model for Area {
    ghost use Rattle.std.specs.Prelude.{◌≤◌, length, take};
    ghost use Rattle.disk_model.specs.Area.{AreaState, IsKept};

    ghost Value = { AreaState };

    ghost view = { λ a. record { content = take a.len a.bytes.current; synced = a.bytes.settled; written = a.written.items; least = a.least; most = length a.bytes.current } };

    ghost invariant = { λ a. IsKept (record { content = take a.len a.bytes.current; synced = a.bytes.settled; written = a.written.items; least = a.least; most = length a.bytes.current })
        × (a.len ≤ length a.bytes.current) };
}

impl Area {
    pub(crate) fn new(alloc: Global) -> Area
        ensures { result ≡ at_rest [] }
    {
        Area::of(Vec::new(alloc))
    }

    // These bytes, with nothing pending.
    fn of(bytes: Vec<u8>) -> Area
        ensures { result ≡ at_rest bytes.items }
    {
        let len = bytes.len();
        Area {
            written: Vec::new(*bytes.allocator()),
            bytes: UndoBytes::of(bytes),
            len,
            least: len,
        }
    }

    // What a read gives.
    fn content(&self) -> &[u8]
        ensures { result.now ≡ self.now.content }
    {
        &self.bytes.as_slice()[..self.len]
    }

    /// What its type keeps, for a proof.
    pub(crate) fn kept(&self)
        ensures { IsKept self.now }
    {
        let _ = &self.written;
    }

    /// Reads from an offset into the front of `buf`, and answers how many bytes.
    pub(crate) fn read(&self, at: u64, buf: &mut [u8]) -> usize
        ensures { Reads self.now.content at buf.old buf.new result }
    {
        let content = self.content();
        let from = (at.min(content.len() as u64)) as usize;
        let count = buf.len().min(content.len() - from);
        buf[..count].copy_from_slice(&content[from..from + count]);
        count
    }

    /// Writes bytes at an offset that isn't past the end.
    pub(crate) fn write(&mut self, at: u64, bytes: &[u8]) -> Result<(), AllocError>
        requires { at ≤ length self.old.content }
        ensures ok { OnOk result (self.new ≡ after_write at bytes.now self.old) }
        ensures small { OnOk result (at + length bytes.now < 2 ^ 63) }
        ensures err { OnErr result (self.new ≡ self.old) }
        ensures wanting { OnErr result (0 < length bytes.now) }
    {
        self.bytes.kept();
        if bytes.is_empty() {
            return Ok(());
        }
        let at = at as usize;
        self.written.push(Span {
            at,
            len: bytes.len(),
        })?;
        match self.bytes.write(at, bytes) {
            Ok(()) => {
                let end = at + bytes.len();
                self.len = self.len.max(end);
                Ok(())
            }
            Err(refused) => {
                self.written.pop();
                Err(refused)
            }
        }
    }

    /// Cuts to a length that isn't past the end.
    pub(crate) fn cut(&mut self, len: u64)
        requires { len ≤ length self.old.content }
        ensures { self.new ≡ after_cut len self.old }
    {
        self.len = len as usize;
        self.least = self.least.min(self.len);
    }

    /// Makes the content durable. It touches none of it, but gives room back where less than half of the most that it
    /// held is left.
    pub(crate) fn settle(&mut self)
        ensures { self.new ≡ at_rest self.old.content }
    {
        let most = self.bytes.as_slice().len();
        self.bytes.settle(self.len);
        self.written.clear();
        // What is left is copied into a smaller block: fewer bytes than were cut off. A half that grows again asks for the
        // room again.
        if self.len < most / 2 {
            self.bytes.shrink();
        }
        self.least = self.len;
    }

    /// What a stop leaves, with nothing pending. Only bytes that are left take memory.
    pub(crate) fn left(&self, leave: Leave) -> Result<Area, AllocError>
        ensures ok { IfOk result (λ area. area ≡ at_rest (left_by leave self.now)) }
        ensures wanting { OnErr result (0 < length (left_by leave self.now)) }
    {
        let alloc = *self.written.allocator();
        let bytes = match leave {
            Leave::Old => self.bytes.settled(alloc)?,
            Leave::New => copied(alloc, self.content())?,
            Leave::Torn => torn(alloc, self.content(), &self.written)?,
        };
        Ok(Area::of(bytes))
    }
}

// Tears the ranges that were written.
fn torn(alloc: Global, content: &[u8], written: &[Span]) -> Result<Vec<u8>, AllocError>
    ensures ok { IfOk result (λ bytes. bytes.items ≡ torn_from written.now 0 content.now) }
    ensures wanting { OnErr result (0 < length (torn_from written.now 0 content.now)) }
{
    let mut bytes = copied(alloc, content)?;
    for span in written {
        tear(&mut bytes, *span);
    }
    Ok(bytes)
}

fn tear(bytes: &mut [u8], span: Span)
    ensures { (k : ℕ) → k < length bytes.old → slice_index bytes.new k ≡ (if is_in span k && k % 2 == 1 then 0x5A else slice_index bytes.old k) }
{
    let end = span.at.saturating_add(span.len).min(bytes.len());
    for k in span.at..end {
        if k % 2 == 1 {
            bytes[k] = TORN_BYTE;
        }
    }
}
