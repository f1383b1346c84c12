//! Reading the entries of a half.
ghost use Rattle.std.specs.Prelude.{◌≡◌, ◌-◌, length, drop, is_some, IfSome, IfOk};
ghost use Rattle.std.specs.List.{concat, starts_with};
ghost use Rattle.vote_journal.specs.Text.{has_entry, payload_of, behind, entries_in, rest_in, half_entries, is_foreign};
ghost use Rattle.std.specs.Prelude.{nat_eq};

use crate::steps::{OPEN, START};
use hb_base::Bytes;
use std::alloc::{AllocError, Global};

/// The entries of a half, and where the gate behind them stands, counted from the first gate.
#[derive(Drop)]
pub(crate) struct Found {
    pub entries: Vec<Bytes>,
    pub gate: usize,
    pub bytes: usize,
}

/// The payload of the entry behind a gate, and what stands behind it from the next gate on.
pub(crate) fn split_entry(bytes: &[u8]) -> Option<(&[u8], &[u8])>
    ensures some { is_some result ≡ has_entry bytes.now }
    ensures payload { IfSome result (λ parts. parts.0.now ≡ payload_of bytes.now) }
    ensures rest { IfSome result (λ parts. parts.1.now ≡ behind bytes.now) }
{
    let [gate, a, b, c, d, rest @ ..] = bytes else {
        return None;
    };
    let size = ((*a as usize * 256 + *b as usize) * 256 + *c as usize) * 256 + *d as usize;
    if *gate == OPEN && size < rest.len() {
        Some(rest.split_at(size))
    } else {
        None
    }
}

/// The entries from a gate on.
pub(crate) fn entries_from(alloc: Global, bytes: &[u8]) -> Result<Found, AllocError>
    ensures entries { IfOk result (λ found. found.entries.items ≡ entries_in (length bytes.now) bytes.now) }
    ensures gate { IfOk result (λ found. found.gate ≡ length bytes.now - length (rest_in (length bytes.now) bytes.now)) }
    ensures bytes { IfOk result (λ found. found.bytes ≡ length (concat (entries_in (length bytes.now) bytes.now))) }
{
    let mut entries = Vec::new(alloc);
    let mut rest = bytes;
    let mut total: usize = 0;
    while let Some((payload, after)) = split_entry(rest) {
        entries.push(Bytes::copy(alloc, payload)?)?;
        total += payload.len();
        rest = after;
    }
    Ok(Found {
        entries,
        gate: bytes.len() - rest.len(),
        bytes: total,
    })
}

/// Whether a half has more than 9 bytes and doesn't begin with the magic.
pub(crate) fn is_foreign(half: &[u8]) -> bool
    ensures { result ≡ is_foreign half.now }
{
    half.len() > START.len() && !half.starts_with(&START[..8])
}
