//! The steps that a journal is made of: an entry behind a gate, and a half that is given up.
ghost use Rattle.std.specs.Prelude.{◌≡◌, ◌≤◌, ◌<◌, ◌+◌, ◌^◌, [], ◌∷◌, ◌++◌, length, take, nat_le, OnOk, IfErr};
ghost use Rattle.disk_model.specs.Image.{half_of, other, with_half};
ghost use Rattle.disk_model.specs.Disk.{Only, overwritten, TornWrite, OnHalf};
ghost use Rattle.vote_journal.specs.Runs.{IsStep};
ghost use Rattle.vote_journal.specs.Text.{half_entries, size_bytes, blocks, HoldsEntries};
ghost use Rattle.vote_journal.specs.Steps.{MayGain, MayShut, BothTorn, MayBegin, begun, begun_half};

use crate::JournalFault;
use crate::device::{cut_through, make_durable, write_through};
use disk_model::{Disk, Half};
use std::alloc::AllocError;

/// An open gate. Any other byte is a closed one.
pub(crate) const OPEN: u8 = 0x5A;

/// The gate that is written where one is closed.
pub(crate) const CLOSED: u8 = 0;

/// Where the first gate of a half stands: behind the magic.
pub(crate) const FIRST_GATE: u64 = 8;

/// The four bytes of a length.
pub(crate) fn size_of(len: usize) -> [u8; 4]
    requires { len < 2 ^ 32 }
    ensures { result ≡ size_bytes len }
{
    [
        (len / 256 / 256 / 256) as u8,
        (len / 256 / 256 % 256) as u8,
        (len / 256 % 256) as u8,
        (len % 256) as u8,
    ]
}

/// Puts what stands behind a gate into room that was made before: a length, the payload, and a closed gate.
pub(crate) fn frame_into(payload: &[u8], framed: &mut Vec<u8>) -> Result<(), AllocError>
    requires room { framed.old.items ≡ [] }
    requires short { length payload.now < 2 ^ 32 }
    ensures { OnOk result (framed.new.items ≡ size_bytes (length payload.now) ++ (payload.now ++ 0 ∷ [])) }
{
    framed.extend_from_slice(&size_of(payload.len()))?;
    framed.extend_from_slice(payload)?;
    framed.push(CLOSED)?;
    Ok(())
}

/// Writes what stands behind a closed gate, and makes it durable. No image has the gate opened by it.
fn stage<D: Disk>(disk: &mut D, half: Half, gate: u64, framed: &[u8]) -> Result<(), JournalFault>
    requires fits { gate + 1 ≤ length (half_of half (D.seen disk.old)) }
    requires durable { Only (D.seen disk.old) (D.may_leave disk.old) }
    requires small { gate < 2 ^ 63 }
    ensures written { OnOk result (D.seen disk.new ≡ with_half half (overwritten (gate + 1) framed.now (half_of half (D.seen disk.old))) (D.seen disk.old)) }
    ensures small { OnOk result (gate + 1 + length framed.now < 2 ^ 63) }
    ensures step { IsStep D.seen D.may_leave D.moment D.left_since D.faults D.supply D.explains disk.old disk.new
        (OnHalf half (TornWrite (gate + 1) (length framed.now)) (D.seen disk.old)) result }
{
    write_through(disk, half, gate + 1, framed)
}

/// Opens a gate, and makes that durable.
fn open_gate<D: Disk>(disk: &mut D, half: Half, gate: u64) -> Result<(), JournalFault>
    requires fits { gate ≤ length (half_of half (D.seen disk.old)) }
    requires durable { Only (D.seen disk.old) (D.may_leave disk.old) }
    ensures written { OnOk result (D.seen disk.new ≡ with_half half (overwritten gate (0x5A ∷ []) (half_of half (D.seen disk.old))) (D.seen disk.old)) }
    ensures step { IsStep D.seen D.may_leave D.moment D.left_since D.faults D.supply D.explains disk.old disk.new
        (OnHalf half (TornWrite gate 1) (D.seen disk.old)) result }
{
    write_through(disk, half, gate, &[OPEN])
}

/// Closes the first gate of a half, and makes that durable. Nothing else of it changes.
fn shut_gate<D: Disk>(disk: &mut D, half: Half) -> Result<(), JournalFault>
    requires fits { 8 ≤ length (half_of half (D.seen disk.old)) }
    requires durable { Only (D.seen disk.old) (D.may_leave disk.old) }
    ensures written { OnOk result (D.seen disk.new ≡ with_half half (overwritten 8 (0 ∷ []) (half_of half (D.seen disk.old))) (D.seen disk.old)) }
    ensures step { IsStep D.seen D.may_leave D.moment D.left_since D.faults D.supply D.explains disk.old disk.new
        (OnHalf half (TornWrite 8 1) (D.seen disk.old)) result }
{
    write_through(disk, half, FIRST_GATE, &[CLOSED])
}

/// Puts an entry behind the closed gate of a half, makes it durable, and only then opens the gate.
pub(crate) fn add_entry<D: Disk>(
    disk: &mut D,
    half: Half,
    gate: u64,
    payload: &[u8],
    framed: &[u8],
) -> Result<(), JournalFault>
    requires holds { HoldsEntries (half_of half (D.seen disk.old)) (half_entries (half_of half (D.seen disk.old))) }
    requires durable { Only (D.seen disk.old) (D.may_leave disk.old) }
    requires gate { gate ≡ 8 + length (blocks (half_entries (half_of half (D.seen disk.old)))) }
    requires small { gate < 2 ^ 63 }
    requires framed { framed.now ≡ size_bytes (length payload.now) ++ (payload.now ++ 0 ∷ []) }
    requires short { length payload.now < 2 ^ 32 }
    ensures added { OnOk result (HoldsEntries (half_of half (D.seen disk.new)) (half_entries (half_of half (D.seen disk.old)) ++ payload.now ∷ [])) }
    ensures there { OnOk result (half_of (other half) (D.seen disk.new) ≡ half_of (other half) (D.seen disk.old)) }
    ensures small { OnOk result (gate + length framed.now < 2 ^ 63) }
    ensures step { IsStep D.seen D.may_leave D.moment D.left_since D.faults D.supply D.explains disk.old disk.new
        (MayGain half (half_entries (half_of half (D.seen disk.old))) payload.now (half_of (other half) (D.seen disk.old))) result }
{
    stage(disk, half, gate, framed)?;
    open_gate(disk, half, gate)
}

/// Gives up the entries of a half: closes its first gate, makes that durable, and only then cuts them off.
pub(crate) fn retire<D: Disk>(disk: &mut D, half: Half) -> Result<(), JournalFault>
    requires long { 9 ≤ length (half_of half (D.seen disk.old)) }
    requires durable { Only (D.seen disk.old) (D.may_leave disk.old) }
    ensures shut { OnOk result (D.seen disk.new ≡ with_half half (take 9 (overwritten 8 (0 ∷ []) (half_of half (D.seen disk.old)))) (D.seen disk.old)) }
    ensures step { IsStep D.seen D.may_leave D.moment D.left_since D.faults D.supply D.explains disk.old disk.new
        (MayShut half (D.seen disk.old)) result }
{
    shut_gate(disk, half)?;
    cut_through(disk, half, FIRST_GATE + 1)
}

/// What a half begins with: the magic of eight bytes, and a closed gate.
pub(crate) const START: [u8; 9] = *b"HBVJ0002\0";

// Begins both halves, and makes that durable.
fn begin_both<D: Disk>(disk: &mut D) -> Result<(), JournalFault>
    requires durable { Only (D.seen disk.old) (D.may_leave disk.old) }
    ensures made { OnOk result (D.seen disk.new ≡ record { a = overwritten 0 begun (D.seen disk.old).a; b = overwritten 0 begun (D.seen disk.old).b }) }
    ensures step { IsStep D.seen D.may_leave D.moment D.left_since D.faults D.supply D.explains disk.old disk.new
        (BothTorn (D.seen disk.old)) result }
{
    disk.write_at(Half::A, 0, &START)?;
    disk.write_at(Half::B, 0, &START)?;
    make_durable(disk)
}

/// Begins each half that is short, and makes that durable where there is one.
pub(crate) fn begin<D: Disk>(disk: &mut D, a: bool, b: bool) -> Result<(), JournalFault>
    requires durable { Only (D.seen disk.old) (D.may_leave disk.old) }
    requires a { a ≡ nat_le (length (D.seen disk.old).a) 9 }
    requires b { b ≡ nat_le (length (D.seen disk.old).b) 9 }
    ensures made { OnOk result (D.seen disk.new ≡ record { a = begun_half (D.seen disk.old).a; b = begun_half (D.seen disk.old).b }) }
    ensures step { IsStep D.seen D.may_leave D.moment D.left_since D.faults D.supply D.explains disk.old disk.new
        (MayBegin (D.seen disk.old)) result }
{
    match (a, b) {
        (true, true) => begin_both(disk),
        (true, false) => write_through(disk, Half::A, 0, &START),
        (false, true) => write_through(disk, Half::B, 0, &START),
        (false, false) => Ok(()),
    }
}
