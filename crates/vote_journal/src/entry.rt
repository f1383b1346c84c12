//! An entry that is framed where it is built.
ghost use Rattle.std.specs.Prelude.{ℕ, List, ◌≡◌, ◌+◌, ◌<◌, ◌≤◌, ◌^◌, [], ◌∷◌, ◌++◌, length, drop, IsOk, IfOk, OnOk, OnErr};
ghost use Rattle.vote_journal.specs.Text.{size_bytes};

use crate::steps::{CLOSED, size_of};
use std::alloc::{AllocError, Global};
use std::marker::Model;

// So many bytes of a length stand before the payload.
const FRONT: usize = 4;

/// An entry that is being built. Its payload stands where it is written from, behind room for its length, so that it is not
/// copied to be framed, and before room for a gate. Clauses see an `EntryView`.
#[derive(Drop)]
pub struct Entry {
    bytes: Vec<u8>,
}

impl Model for Entry {
    ghost use Rattle.std.specs.Prelude.{◌+◌, ◌-◌, ◌<◌, ◌≤◌, length, drop, vec_len, vec_capacity};
    ghost use Rattle.vote_journal.specs.Entries.{EntryView};

    ghost Value = { EntryView };

    ghost view = { λ e. record { payload = drop 4 e.bytes.items; room = vec_capacity e.bytes - (vec_len e.bytes + 1) } };

    ghost invariant = { λ e. (4 ≤ length e.bytes.items) × (vec_len e.bytes < vec_capacity e.bytes) };
}

impl Entry {
    /// An entry with no payload yet, and with room for one of so many bytes.
    pub fn with_room(alloc: Global, room: usize) -> Result<Entry, AllocError>
        ensures payload { IfOk result (λ entry. entry.payload ≡ []) }
        ensures room { IfOk result (λ entry. room ≤ entry.room) }
    {
        let Some(whole) = room.checked_add(FRONT + 1) else {
            return Err(AllocError);
        };
        let mut bytes = Vec::with_capacity(alloc, whole)?;
        bytes.extend_from_slice(&[0; FRONT])?;
        Ok(Entry { bytes })
    }

    /// Makes room for so many bytes of payload more. It changes none.
    pub fn reserve(&mut self, more: usize) -> Result<(), AllocError>
        ensures payload { self.new.payload ≡ self.old.payload }
        ensures room { OnOk result (more ≤ self.new.room) }
        ensures no_less { self.old.room ≤ self.new.room }
        ensures enough { more ≤ self.old.room → IsOk result }
        ensures err { OnErr result (self.new ≡ self.old) }
    {
        self.bytes.reserve(more.saturating_add(1))
    }

    /// Adds bytes behind the payload. With room for them it succeeds. Want of memory changes none.
    pub fn extend_from_slice(&mut self, more: &[u8]) -> Result<(), AllocError>
        ensures ok { OnOk result (self.new.payload ≡ self.old.payload ++ more.now) }
        ensures room { OnOk result (self.old.room ≤ self.new.room + length more.now) }
        ensures enough { length more.now ≤ self.old.room → IsOk result }
        ensures err { OnErr result (self.new ≡ self.old) }
    {
        self.reserve(more.len())?;
        self.bytes.extend_from_slice(more)
    }

    /// How many bytes the payload has.
    pub fn len(&self) -> usize
        ensures { result ≡ length self.now.payload }
    {
        self.bytes.len() - FRONT
    }

    /// What stands behind the gate of the entry: its length, its payload, and a closed gate. It takes no memory.
    pub(crate) fn into_framed(self) -> Vec<u8>
        requires { length self.payload < 2 ^ 32 }
        ensures { result.items ≡ size_bytes (length self.payload) ++ (self.payload ++ 0 ∷ []) }
    {
        let len = self.len();
        let Entry { mut bytes } = self;
        put_size(len, &mut bytes);
        bytes.push_reserved(CLOSED);
        bytes
    }
}

/// The payload of an entry, in what stands behind its gate.
#[tactic(auto, using(crate::proofs::Framing::payload_is))]
pub(crate) fn payload_in(framed: &[u8]) -> &[u8]
    requires { 5 ≤ length framed.now }
    ensures { (payload : List ℕ) → framed.now ≡ size_bytes (length payload) ++ (payload ++ 0 ∷ []) → result.now ≡ payload }
{
    &framed[FRONT..framed.len() - 1]
}

// Puts a length before a payload.
fn put_size(len: usize, bytes: &mut [u8])
    requires short { len < 2 ^ 32 }
    requires front { 4 ≤ length bytes.old }
    ensures { bytes.new ≡ size_bytes len ++ drop 4 bytes.old }
{
    let (front, _) = bytes.split_at_mut(FRONT);
    front.copy_from_slice(&size_of(len));
}
