//! Bytes that can be put back to what they were.
ghost use Rattle.std.specs.Prelude.{◌≡◌, ◌≤◌, ◌<◌, ◌+◌, ◌^◌, [], length, take, IfOk, OnOk, OnErr};
ghost use Rattle.disk_model.specs.Disk.{overwritten};
ghost use Rattle.std.specs.Vec.{vec_capacity};
ghost use Rattle.disk_model.specs.Undo.{put_back, AreWithin, room_made};

use std::alloc::{AllocError, Global};
use std::marker::Model;

/// Bytes that are so many, or more, grow by a quarter.
const LARGE: usize = 1 << 16;

/// What stood in a range before it was written over.
#[derive(Drop)]
pub(crate) struct Saved {
    pub at: usize,
    pub bytes: Vec<u8>,
}

/// Bytes, and what is needed to put them back to those that were settled last: of these, what was written over since
/// is held once more for each time.
#[derive(Drop)]
pub(crate) struct UndoBytes {
    bytes: Vec<u8>,
    /// What was written over of the settled bytes, the oldest first.
    saved: Vec<Saved>,
    /// How many bytes were settled last.
    settled_len: usize,
}

impl Model for UndoBytes {
    ghost use Rattle.std.specs.Prelude.{◌≤◌, length, take};
    ghost use Rattle.disk_model.specs.Undo.{UndoState, put_back, AreWithin};

    ghost Value = { UndoState };

    ghost view = { λ u. record { current = u.bytes.items; settled = put_back u.saved.items (take u.settled_len u.bytes.items) } };

    ghost invariant = { λ u. AreWithin u.settled_len u.saved.items × (u.settled_len ≤ length u.bytes.items) };
}

impl UndoBytes {
    /// These bytes, settled.
    pub(crate) fn of(bytes: Vec<u8>) -> UndoBytes
        ensures { result ≡ record { current = bytes.items; settled = bytes.items } }
    {
        UndoBytes {
            settled_len: bytes.len(),
            saved: Vec::new(*bytes.allocator()),
            bytes,
        }
    }

    /// The bytes.
    pub(crate) fn as_slice(&self) -> &[u8]
        ensures { result.now ≡ self.now.current }
    {
        &self.bytes
    }

    /// How long its bytes can be, for a proof.
    pub(crate) fn kept(&self)
        ensures { length self.now.current < 2 ^ 63 }
    {
        let _ = &self.bytes;
    }

    /// Writes bytes at an offset that isn't past the end.
    pub(crate) fn write(&mut self, at: usize, bytes: &[u8]) -> Result<(), AllocError>
        requires { at ≤ length self.old.current }
        ensures ok { OnOk result (self.new ≡ record self.old { current = overwritten at bytes.now self.old.current }) }
        ensures small { OnOk result (at + length bytes.now < 2 ^ 63) }
        ensures err { OnErr result (self.new ≡ self.old) }
    {
        let from = at.min(self.settled_len);
        let over = bytes.len().min(self.settled_len - from);
        if over == 0 {
            return overwrite(&mut self.bytes, at, bytes);
        }
        let alloc = *self.bytes.allocator();
        let bytes_before = Vec::from_slice(alloc, &self.bytes[from..from + over])?;
        self.saved.push(Saved {
            at: from,
            bytes: bytes_before,
        })?;
        match overwrite(&mut self.bytes, at, bytes) {
            Ok(()) => Ok(()),
            Err(refused) => {
                self.saved.pop();
                Err(refused)
            }
        }
    }

    /// Cuts to a length that isn't past the end, and settles what is left. It touches none of it.
    pub(crate) fn settle(&mut self, len: usize)
        requires { len ≤ length self.old.current }
        ensures { self.new ≡ record { current = take len self.old.current; settled = take len self.old.current } }
    {
        self.bytes.truncate(len);
        self.saved.clear();
        self.settled_len = len;
    }

    /// Gives back the room that the bytes don't use.
    pub(crate) fn shrink(&mut self)
        ensures { self.new ≡ self.old }
    {
        self.bytes.shrink_to_fit();
    }

    /// A copy of the bytes that were settled last.
    pub(crate) fn settled(&self, alloc: Global) -> Result<Vec<u8>, AllocError>
        ensures ok { IfOk result (λ bytes. bytes.items ≡ self.now.settled) }
        ensures wanting { OnErr result (0 < length self.now.settled) }
    {
        let mut bytes = copied(alloc, &self.bytes[..self.settled_len])?;
        restore(&mut bytes, &self.saved);
        Ok(bytes)
    }
}

/// A copy of the bytes. Where there are none it takes no memory.
pub(crate) fn copied(alloc: Global, bytes: &[u8]) -> Result<Vec<u8>, AllocError>
    ensures ok { IfOk result (λ copy. copy.items ≡ bytes.now) }
    ensures wanting { OnErr result (0 < length bytes.now) }
{
    let mut copy = Vec::with_capacity(alloc, bytes.len())?;
    copy.extend_from_slice(bytes)?;
    Ok(copy)
}

fn overwrite(target: &mut Vec<u8>, at: usize, bytes: &[u8]) -> Result<(), AllocError>
    requires { at ≤ length target.old.items }
    ensures ok { OnOk result (target.new.items ≡ overwritten at bytes.now target.old.items) }
    ensures small { OnOk result (at + length bytes.now < 2 ^ 63) }
    ensures err { OnErr result (target.new.items ≡ target.old.items) }
{
    let over = bytes.len().min(target.len() - at);
    make_room(target, bytes.len() - over)?;
    target.extend_from_slice(&bytes[over..])?;
    target[at..at + over].copy_from_slice(&bytes[..over]);
    Ok(())
}

// Makes room for so many bytes more, where there is none and the bytes are large: for a quarter of them at least, so that
// all appends together copy few bytes, and for no more than that. Others grow by doubling as they are appended to.
fn make_room(target: &mut Vec<u8>, more: usize) -> Result<(), AllocError>
    ensures items { target.new.items ≡ target.old.items }
    ensures exact { OnOk result (vec_capacity target.new ≡ room_made (vec_capacity target.old) (length target.old.items) more) }
    ensures full { OnErr result (vec_capacity target.old < length target.old.items + more) }
{
    let len = target.len();
    if len < LARGE || more <= target.capacity() - len {
        return Ok(());
    }
    target.reserve_exact(more.max(len / 4))
}

// Puts back what was saved, the last first.
fn restore(bytes: &mut [u8], saved: &[Saved])
    requires { AreWithin (length bytes.old) saved.now }
    ensures { bytes.new ≡ put_back saved.now bytes.old }
{
    for range in saved.iter().rev() {
        restore_range(bytes, range);
    }
}

fn restore_range(bytes: &mut [u8], range: &Saved)
    requires { range.now.at + length range.now.bytes.items ≤ length bytes.old }
    ensures { bytes.new ≡ overwritten range.now.at range.now.bytes.items bytes.old }
{
    let end = range.at + range.bytes.len();
    bytes[range.at..end].copy_from_slice(&range.bytes);
}
