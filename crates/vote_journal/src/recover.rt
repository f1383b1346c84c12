//! Opening a journal on a disk that a crash may have left.
ghost use Rattle.std.specs.Prelude.{◌≡◌, ◌<◌, ◌≤◌, ◌+◌, ◌^◌, ◌||◌, ◌&&◌, false, true, [], ℕ, length, drop, nat_le, IfOk, OnOk, IfErr, IsErrOf};
ghost use Rattle.std.specs.List.{concat};
ghost use Rattle.disk_model.specs.Image.{half_of, other};
ghost use Rattle.disk_model.specs.Disk.{Only, LeavesOnly};
ghost use Rattle.disk_model.specs.Supply.{Draws};
ghost use Rattle.vote_journal.specs.Runs.{Runs, HasReason, IsUnfailed, IsStep, IsUntouched, LeftOrSays};
ghost use Rattle.vote_journal.specs.Text.{HasBytes, half_entries, is_foreign, blocks, live_half, live_by, live_entries, text_of, is_some_entry, both_have_entries};
ghost use Rattle.vote_journal.specs.Text.{IsSound, SaysOnly};
ghost use Rattle.vote_journal.specs.Steps.{IsFoundIn, MayArrange, Arranged, arranged};

use crate::JournalFault;
use crate::parse::{Found, entries_from, is_foreign};
use crate::steps::{begin, retire};
use disk_model::{Disk, Half};
use hb_base::Bytes;
use std::alloc::{AllocError, Global};

// How many bytes are asked for at a time.
const PIECE: usize = 4096;

// All the bytes of a half.
fn read_half<D: Disk>(alloc: Global, disk: &mut D, half: Half) -> Result<Vec<u8>, JournalFault>
    requires { Only (D.seen disk.old) (D.may_leave disk.old) }
    ensures bytes { IfOk result (λ bytes. bytes.items ≡ half_of half (D.seen disk.old)) }
    ensures seen { D.seen disk.new ≡ D.seen disk.old }
    ensures step { IsStep D.seen D.may_leave D.moment D.left_since D.faults D.supply D.explains disk.old disk.new
        (λ c. c ≡ D.seen disk.old) result }
{
    let mut bytes = Vec::new(alloc);
    let mut piece = [0; PIECE];
    loop {
        let count = disk.read(half, bytes.len() as u64, &mut piece)?;
        bytes.extend_from_slice(&piece[..count])?;
        if count < PIECE {
            return Ok(bytes);
        }
    }
}

// The entries of a half.
fn entries_of_half(alloc: Global, half: &[u8]) -> Result<Found, AllocError>
    ensures entries { IfOk result (λ found. found.entries.items ≡ half_entries half.now) }
    ensures gate { IfOk result (λ found. found.gate ≡ length (blocks (half_entries half.now))) }
    ensures bytes { IfOk result (λ found. found.bytes ≡ length (concat (half_entries half.now))) }
    ensures small { IfOk result (λ found. 8 + found.gate < 2 ^ 63) }
    ensures are_bytes { OnOk result (HasBytes half.now) }
{
    let found = entries_from(alloc, after_magic(half))?;
    Ok(found)
}

// What both halves were found to have.
#[derive(Drop)]
struct Findings {
    a: Found,
    b: Found,
    short_a: bool,
    short_b: bool,
}

// Syncs the disk, reads both halves, and finds their entries. It writes nothing.
fn survey<D: Disk>(alloc: Global, disk: &mut D) -> Result<Findings, JournalFault>
    ensures seen { D.seen disk.new ≡ D.seen disk.old }
    ensures durable { OnOk result (Only (D.seen disk.new) (D.may_leave disk.new)) }
    ensures a { IfOk result (λ found. IsFoundIn (D.seen disk.old).a found.a.entries.items found.a.gate found.a.bytes found.short_a) }
    ensures b { IfOk result (λ found. IsFoundIn (D.seen disk.old).b found.b.entries.items found.b.gate found.b.bytes found.short_b) }
    ensures foreign { IfErr result (λ e. e ≡ JournalFault.NotAJournal → (is_foreign (D.seen disk.old).a || is_foreign (D.seen disk.old).b) ≡ true) }
    ensures ours { OnOk result ((is_foreign (D.seen disk.old).a || is_foreign (D.seen disk.old).b) ≡ false) }
    ensures foreign_durable { IfErr result (λ fault. fault ≡ JournalFault.NotAJournal → Only (D.seen disk.new) (D.may_leave disk.new)) }
    ensures failed { IfErr result (HasReason D.faults D.explains disk.old disk.new) }
    ensures unfailed { (IsErrOf result JournalFault.Failed → ⊥) → IsUnfailed D.faults D.supply disk.old disk.new }
    ensures runs { Runs D.moment D.left_since D.faults D.supply disk.old disk.new (D.may_leave disk.old) }
{
    disk.sync()?;
    let a = read_half(alloc, disk, Half::A)?;
    let b = read_half(alloc, disk, Half::B)?;
    if is_foreign(&a) || is_foreign(&b) {
        return Err(JournalFault::NotAJournal);
    }
    Ok(Findings {
        a: entries_of_half(alloc, &a)?,
        b: entries_of_half(alloc, &b)?,
        short_a: a.len() <= 9,
        short_b: b.len() <= 9,
    })
}

// Begins the short halves, and where both have entries gives up those of the spare one.
fn arrange<D: Disk>(
    disk: &mut D,
    short_a: bool,
    short_b: bool,
    both: bool,
    spare: Half,
) -> Result<(), JournalFault>
    requires durable { Only (D.seen disk.old) (D.may_leave disk.old) }
    requires a { short_a ≡ nat_le (length (D.seen disk.old).a) 9 }
    requires b { short_b ≡ nat_le (length (D.seen disk.old).b) 9 }
    ensures made { OnOk result (D.seen disk.new ≡ arranged both spare (D.seen disk.old)) }
    ensures step { IsStep D.seen D.may_leave D.moment D.left_since D.faults D.supply D.explains disk.old disk.new
        (MayArrange both spare (D.seen disk.old)) result }
{
    begin(disk, short_a, short_b)?;
    if both { retire(disk, spare) } else { Ok(()) }
}

/// A disk that is arranged: its live half, and what was found there.
#[derive(Drop)]
pub(crate) struct Opened {
    pub live: Half,
    pub found: Found,
}

/// Finds the entries of a disk, and arranges its halves.
pub(crate) fn open<D: Disk>(alloc: Global, disk: &mut D) -> Result<Opened, JournalFault>
    ensures live { IfOk result (λ opened. opened.live ≡ live_half (D.seen disk.old)) }
    ensures entries { IfOk result (λ opened. opened.found.entries.items ≡ live_entries (D.seen disk.old)) }
    ensures gate { IfOk result (λ opened. opened.found.gate ≡ length (blocks (live_entries (D.seen disk.old)))) }
    ensures bytes { IfOk result (λ opened. opened.found.bytes ≡ length (concat (live_entries (D.seen disk.old)))) }
    ensures small { IfOk result (λ opened. 8 + opened.found.gate < 2 ^ 63) }
    ensures foreign { IfErr result (λ e. e ≡ JournalFault.NotAJournal → (is_foreign (D.seen disk.old).a || is_foreign (D.seen disk.old).b) ≡ true) }
    ensures ours { OnOk result ((is_foreign (D.seen disk.old).a || is_foreign (D.seen disk.old).b) ≡ false) }
    ensures arranged { OnOk result (IsSound (D.seen disk.old) → Arranged (live_half (D.seen disk.old)) (D.seen disk.old) (D.seen disk.new)) }
    ensures image { OnOk result (D.seen disk.new ≡ arranged (both_have_entries (D.seen disk.old)) (other (live_half (D.seen disk.old))) (D.seen disk.old)) }
    ensures durable { OnOk result (Only (D.seen disk.new) (D.may_leave disk.new)) }
    ensures runs { Only (D.seen disk.old) (D.may_leave disk.old) → IsSound (D.seen disk.old)
        → Runs D.moment D.left_since D.faults D.supply disk.old disk.new (SaysOnly (text_of (D.seen disk.old)) (length (live_entries (D.seen disk.old)))) }
    ensures pending { IsSound (D.seen disk.old)
        → Runs D.moment D.left_since D.faults D.supply disk.old disk.new (LeftOrSays (D.may_leave disk.old) (text_of (D.seen disk.old)) (length (live_entries (D.seen disk.old)))) }
    ensures untouched { IfErr result (λ fault. fault ≡ JournalFault.NotAJournal
        → IsUntouched D.seen D.may_leave D.moment D.left_since disk.old disk.new) }
    ensures foreign_stays { (is_foreign (D.seen disk.old).a || is_foreign (D.seen disk.old).b) ≡ true
        → (D.seen disk.new ≡ D.seen disk.old) × LeavesOnly D.moment D.left_since disk.old disk.new (D.may_leave disk.old) }
    ensures supply { Draws (D.supply disk.old) (D.supply disk.new) }
    ensures failed { IfErr result (HasReason D.faults D.explains disk.old disk.new) }
    ensures unfailed { (IsErrOf result JournalFault.Failed → ⊥) → IsUnfailed D.faults D.supply disk.old disk.new }
{
    let found = survey(alloc, disk)?;
    let live = live_of(&found.a.entries, &found.b.entries);
    let both = have_both(&found.a.entries, &found.b.entries);
    arrange(disk, found.short_a, found.short_b, both, other(live))?;
    Ok(pick(found, live))
}

// The live half, by how many entries there are.
fn live_of(a: &[Bytes], b: &[Bytes]) -> Half
    ensures { result ≡ live_by a.now b.now }
{
    if b.is_empty() {
        return Half::A;
    }
    if a.is_empty() {
        return Half::B;
    }
    if b.len() < a.len() { Half::B } else { Half::A }
}

// Whether both halves have entries.
fn have_both(a: &[Bytes], b: &[Bytes]) -> bool
    ensures { result ≡ (is_some_entry a.now && is_some_entry b.now) }
{
    match (a, b) {
        ([_, ..], [_, ..]) => true,
        _ => false,
    }
}

/// The half beside this one.
pub(crate) fn other(half: Half) -> Half
    ensures { result ≡ other half }
{
    match half {
        Half::A => Half::B,
        Half::B => Half::A,
    }
}

fn pick(found: Findings, live: Half) -> Opened
    ensures live { result.live ≡ live }
    ensures a { live ≡ Half.A → result.found ≡ found.a }
    ensures b { live ≡ Half.B → result.found ≡ found.b }
{
    match live {
        Half::A => Opened {
            live,
            found: found.a,
        },
        Half::B => Opened {
            live,
            found: found.b,
        },
    }
}

// What stands from the first gate on.
pub(crate) fn after_magic(half: &[u8]) -> &[u8]
    ensures rest { result.now ≡ drop 8 half.now }
    ensures small { 8 + length result.now < 2 ^ 63 }
{
    if half.len() > 8 {
        &half[8..]
    } else {
        &half[..0]
    }
}
