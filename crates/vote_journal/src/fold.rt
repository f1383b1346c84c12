//! Folding the entries of a journal into one.
ghost use Rattle.std.specs.Prelude.{◌≡◌, ◌≤◌, ◌<◌, ◌+◌, ◌^◌, true, [], ◌∷◌, ◌++◌, length, OnOk, IfErr};
ghost use Rattle.std.specs.List.{concat};
ghost use Rattle.disk_model.specs.Image.{half_of, other};
ghost use Rattle.disk_model.specs.Disk.{Only};
ghost use Rattle.vote_journal.specs.Runs.{IsStep};
ghost use Rattle.vote_journal.specs.Text.{half_entries, entries_in, size_bytes, blocks, is_some_entry, text_of, live_entries, HoldsEntries, SaysOnly};
ghost use Rattle.vote_journal.specs.Steps.{Folded};

use crate::JournalFault;
use crate::parse::split_entry;
use crate::recover::after_magic;
use crate::steps::{FIRST_GATE, add_entry, frame_into, retire};
use disk_model::{Disk, Half};
use std::alloc::AllocError;

// Puts the payloads of the entries from a gate on, one behind another.
fn gather(bytes: &[u8], text: &mut Vec<u8>) -> Result<(), AllocError>
    requires { text.old.items ≡ [] }
    ensures { OnOk result (text.new.items ≡ concat (entries_in (length bytes.now) bytes.now)) }
{
    let mut rest = bytes;
    while let Some((payload, after)) = split_entry(rest) {
        text.extend_from_slice(payload)?;
        rest = after;
    }
    Ok(())
}

/// Reads a half up to its closed gate, and gathers its payloads.
fn read_text<D: Disk>(
    disk: &mut D,
    live: Half,
    half: &mut [u8],
    text: &mut Vec<u8>,
) -> Result<(), JournalFault>
    requires live { HoldsEntries (half_of live (D.seen disk.old)) (half_entries (half_of live (D.seen disk.old))) }
    requires durable { Only (D.seen disk.old) (D.may_leave disk.old) }
    requires room { length half.old ≡ 9 + length (blocks (half_entries (half_of live (D.seen disk.old)))) }
    requires empty { text.old.items ≡ [] }
    ensures text { OnOk result (text.new.items ≡ concat (half_entries (half_of live (D.seen disk.old)))) }
    ensures seen { D.seen disk.new ≡ D.seen disk.old }
    ensures step { IsStep D.seen D.may_leave D.moment D.left_since D.faults D.supply D.explains disk.old disk.new
        (λ c. c ≡ D.seen disk.old) result }
{
    disk.read(live, 0, half)?;
    gather(after_magic(half), text)?;
    Ok(())
}

/// Puts the payloads of the live half as one entry into the other half, and gives up the live one.
pub(crate) fn fold_disk<D: Disk>(
    disk: &mut D,
    live: Half,
    spare: Half,
    half: &mut [u8],
    text: &mut Vec<u8>,
    framed: &mut Vec<u8>,
) -> Result<(), JournalFault>
    requires spare { spare ≡ other live }
    requires live { HoldsEntries (half_of live (D.seen disk.old)) (half_entries (half_of live (D.seen disk.old))) }
    requires none { HoldsEntries (half_of spare (D.seen disk.old)) [] }
    requires durable { Only (D.seen disk.old) (D.may_leave disk.old) }
    requires some { is_some_entry (half_entries (half_of live (D.seen disk.old))) ≡ true }
    requires small { length (concat (half_entries (half_of live (D.seen disk.old)))) < 2 ^ 32 }
    requires room { length half.old ≡ 9 + length (blocks (half_entries (half_of live (D.seen disk.old)))) }
    requires empty { text.old.items ≡ [] }
    requires unframed { framed.old.items ≡ [] }
    ensures text { OnOk result (text.new.items ≡ concat (half_entries (half_of live (D.seen disk.old)))) }
    ensures framed { OnOk result (length framed.new.items ≡ 5 + length text.new.items) }
    ensures folded { OnOk result (Folded live text.new.items (D.seen disk.new)) }
    ensures step { IsStep D.seen D.may_leave D.moment D.left_since D.faults D.supply D.explains disk.old disk.new
        (SaysOnly (text_of (D.seen disk.old)) (length (live_entries (D.seen disk.old)))) result }
{
    read_text(disk, live, half, text)?;
    frame_into(text, framed)?;
    add_entry(disk, spare, FIRST_GATE, text, framed)?;
    retire(disk, live)
}
