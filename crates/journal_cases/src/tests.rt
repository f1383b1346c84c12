//! Journals on disks in memory, stopped at each device call or failed once at it, and recovered.
ghost use Rattle.std.specs.Prelude.{◌≡◌, ◌<◌, ◌^◌, [], length, IfOk, OnOk};
ghost use Rattle.disk_model.specs.Disk.{LeavesOnly};
ghost use Rattle.vote_journal.specs.Calls.{IsEmpty};
ghost use Rattle.vote_journal.specs.Text.{IsSound};
ghost use Rattle.vote_journal.specs.Usable.{IsUsable};

use disk_model::{Disk, Half, Leave, MemoryDisk, Plan, Power, Stop};
use hb_base::Bytes;
use std::alloc::{AllocError, Global};
use std::test::Fail;
use vote_journal::{Journal, JournalFault};

const LEAVES: [Leave; 3] = [Leave::Old, Leave::New, Leave::Torn];

const PAYLOAD: [u8; 4] = [7, 0, 3, 1];

fn new_disk(alloc: Global, stops: &[Stop], faults: &[u32]) -> Result<MemoryDisk, AllocError>
    requires { length stops.now < 5 }
    ensures { IfOk result (λ disk. IsEmpty ⟦<MemoryDisk as Disk>⟧.seen ⟦<MemoryDisk as Disk>⟧.may_leave disk) }
{
    let plan = Plan {
        stops: Vec::from_slice(alloc, stops)?,
        faults: Vec::from_slice(alloc, faults)?,
    };
    Ok(MemoryDisk::new(alloc, plan))
}

// A journal on a new disk; its recovery takes six calls.
fn new_journal(
    alloc: Global,
    stops: &[Stop],
    faults: &[u32],
) -> Result<Journal<MemoryDisk>, JournalFault>
    requires { length stops.now < 5 }
    ensures { IfOk result (λ journal. IsUsable ⟦<MemoryDisk as Disk>⟧.seen ⟦<MemoryDisk as Disk>⟧.may_leave journal) }
{
    let disk = new_disk(alloc, stops, faults)?;
    match Journal::recover(alloc, disk) {
        Ok((journal, _)) => Ok(journal),
        Err((_, fault)) => Err(fault),
    }
}

fn append_all(
    journal: &mut Journal<MemoryDisk>,
    count: u32,
    payload: &[u8],
) -> Result<(), JournalFault>
    requires short { length payload.now < 2 ^ 32 }
    requires usable { IsUsable ⟦<MemoryDisk as Disk>⟧.seen ⟦<MemoryDisk as Disk>⟧.may_leave journal.old }
    ensures { OnOk result (IsUsable ⟦<MemoryDisk as Disk>⟧.seen ⟦<MemoryDisk as Disk>⟧.may_leave journal.new) }
{
    for _ in 0..count {
        journal.append(payload)?;
    }
    Ok(())
}

fn fold(journal: &mut Journal<MemoryDisk>) -> Result<(), JournalFault>
    requires { IsUsable ⟦<MemoryDisk as Disk>⟧.seen ⟦<MemoryDisk as Disk>⟧.may_leave journal.old }
    ensures { OnOk result (IsUsable ⟦<MemoryDisk as Disk>⟧.seen ⟦<MemoryDisk as Disk>⟧.may_leave journal.new) }
{
    if journal.entries() == 0 || journal.bytes() >= 1 << 32 {
        return Err(JournalFault::NotAJournal);
    }
    journal.fold()
}

// What a disk that was empty is after a recovery, an append and a second recovery, however they ended.
fn used<D: Disk>(alloc: Global, disk: D, payload: &[u8]) -> D
    requires empty { IsEmpty D.seen D.may_leave disk }
    requires short { length payload.now < 2 ^ 32 }
    ensures { LeavesOnly D.moment D.left_since disk result IsSound }
{
    let journal = match Journal::recover(alloc, disk) {
        Ok((journal, _)) => journal,
        Err((disk, _)) => return disk,
    };
    let mut journal = journal;
    let _ = journal.append(payload);
    match Journal::recover(alloc, journal.into_disk()) {
        Ok((journal, _)) => journal.into_disk(),
        Err((disk, _)) => disk,
    }
}

// The payloads, put together.
fn joined(alloc: Global, entries: &[Bytes]) -> Result<Vec<u8>, AllocError> {
    let mut text = Vec::new(alloc);
    for entry in entries {
        text.extend_from_slice(entry.as_slice())?;
    }
    Ok(text)
}

// A journal of so many appends, folded, and its counts before the fold.
fn folded(alloc: Global, count: u32) -> Result<(Journal<MemoryDisk>, (u32, u64)), JournalFault> {
    let mut journal = new_journal(alloc, &[], &[])?;
    append_all(&mut journal, count, &PAYLOAD)?;
    let before = (journal.entries(), journal.bytes());
    fold(&mut journal)?;
    Ok((journal, before))
}

// How many entries a disk has, and how many payloads they are together, if they are nothing else.
fn found_on(alloc: Global, disk: MemoryDisk) -> Result<(usize, Option<u32>), JournalFault> {
    match Journal::recover(alloc, disk) {
        Ok((_, entries)) => Ok((entries.len(), payloads_in(&joined(alloc, &entries)?))),
        Err((_, fault)) => Err(fault),
    }
}

#[test]
fn many_entries_are_folded_into_one(rt: HostRuntime) -> Result<(), Fail> {
    let alloc = rt.alloc();
    let (journal, before) = folded(alloc, 64)?;
    let counts = (before, (journal.entries(), journal.bytes()));
    let calls = journal.disk().note().calls();
    let mut disk = journal.into_disk();
    let mut bytes = [0; 300];
    let held = (
        disk.read(Half::A, 0, &mut bytes)?,
        disk.read(Half::B, 0, &mut bytes)?,
    );
    let found = found_on(alloc, disk)?;
    assert!(rt; counts == ((64, 256), (1, 256)) && calls == 6 + 4 * 64 + 9);
    assert!(rt;
        held == (9, 270)
            && bytes.starts_with(b"HBVJ0002\x5A\0\0\x01\0\x07\0\x03\x01\x07")
            && found == (1, Some(64))
    );
    Ok(())
}

// What was seen of a disk on which a journal was begun, appended to so many times and folded, up to the first call that failed,
// and which was then switched on where it was off, and recovered, until that went well.
#[derive(Clone, Copy, Debug, PartialEq, Eq)]
struct Outcome {
    acknowledged: u32,
    folded: bool,
    switched_on: u32,
    refused: u32,
    // How many payloads were found, if nothing else was.
    found: Option<u32>,
}

// Begins a journal, appends so many times and folds, up to the first call that fails.
fn written(alloc: Global, disk: MemoryDisk, count: u32) -> (MemoryDisk, u32, bool)
    requires { IsEmpty ⟦<MemoryDisk as Disk>⟧.seen ⟦<MemoryDisk as Disk>⟧.may_leave disk }
{
    let mut journal = match Journal::recover(alloc, disk) {
        Ok((journal, _)) => journal,
        Err((disk, _)) => return (disk, 0, false),
    };
    for done in 0..count {
        if journal.append(&PAYLOAD).is_err() {
            return (journal.into_disk(), done, false);
        }
    }
    let folded = fold(&mut journal).is_ok();
    (journal.into_disk(), count, folded)
}

impl Outcome {
    // The same, but for what was found.
    fn with(self, found: u32) -> Outcome {
        Outcome {
            found: Some(found),
            ..self
        }
    }
}

// How many payloads a text is, if it is nothing else.
fn payloads_in(text: &[u8]) -> Option<u32> {
    let mut parts = text.chunks_exact(PAYLOAD.len());
    let are_all = parts.all(|part| part == PAYLOAD.as_slice());
    if are_all && text.len() % PAYLOAD.len() == 0 {
        u32::try_from(text.len() / PAYLOAD.len()).ok()
    } else {
        None
    }
}

fn outcome_of(
    alloc: Global,
    count: u32,
    stops: &[Stop],
    faults: &[u32],
) -> Result<Outcome, JournalFault>
    requires { length stops.now < 5 }
{
    let (disk, acknowledged, folded) = written(alloc, new_disk(alloc, stops, faults)?, count);
    let mut journal = Journal::shut(alloc, disk);
    let mut switched_on: u32 = 0;
    for refused in 0..8 {
        if journal.disk().is_off() {
            journal.switch_on()?;
            switched_on = switched_on.saturating_add(1);
        }
        match journal.reopen() {
            Ok(entries) => {
                return Ok(Outcome {
                    acknowledged,
                    folded,
                    switched_on,
                    refused,
                    found: payloads_in(&joined(alloc, &entries)?),
                });
            }
            Err(JournalFault::Failed) => {}
            Err(fault) => return Err(fault),
        }
    }
    Err(JournalFault::Failed)
}

// Whether each recovery that was refused had lost its power, as the fold before it had.
fn is_off_each_time(outcome: Outcome) -> bool {
    outcome.refused >= 1 && outcome.switched_on == outcome.refused.saturating_add(1)
}

// Whether so many appends and a fold of which this call is stopped, with each of the things that a stop may leave, or fails,
// come out with so many acknowledged, and then as many found or `most`.
fn is_kept(
    alloc: Global,
    count: u32,
    call: u32,
    acknowledged: u32,
    most: u32,
) -> Result<bool, JournalFault> {
    let want = Outcome {
        acknowledged,
        folded: false,
        switched_on: 1,
        refused: 0,
        found: Some(acknowledged),
    };
    for &leave in &LEAVES {
        let outcome = outcome_of(alloc, count, &[Stop { call, leave }], &[])?;
        if outcome != want && outcome != want.with(most) {
            return Ok(false);
        }
    }
    let want = Outcome {
        switched_on: 0,
        ..want
    };
    let outcome = outcome_of(alloc, count, &[], &[call])?;
    Ok(outcome == want || outcome == want.with(most))
}

// The recovery of a new disk takes the calls 1 to 6, three appends 7 to 18, and the fold 19 to 27. Each of them is stopped or
// fails. What was acknowledged is found, and of the append that failed the entry or nothing.
#[test]
fn each_call_is_stopped_or_fails(rt: HostRuntime) -> Result<(), Fail> {
    let alloc = rt.alloc();
    for call in 1u32..28 {
        let acknowledged = call.saturating_sub(7).min(12) / 4;
        let most = if call < 7 || call > 18 {
            acknowledged
        } else {
            acknowledged + 1
        };
        assert!(rt; is_kept(alloc, 3, call, acknowledged, most)?, "at {call}");
    }
    let outcome = outcome_of(alloc, 3, &[], &[28])?;
    assert!(rt; outcome.folded && outcome.found == Some(3));
    Ok(())
}

// With 64 appends, at which number an actor folds, the fold takes the calls 263 to 271. All of the entries are found.
#[test]
fn each_call_of_a_long_fold_is_stopped_or_fails(rt: HostRuntime) -> Result<(), Fail> {
    let alloc = rt.alloc();
    for call in 263u32..272 {
        assert!(rt; is_kept(alloc, 64, call, 64, 64)?, "at {call}");
    }
    let outcome = outcome_of(alloc, 64, &[], &[272])?;
    assert!(rt; outcome.folded && outcome.found == Some(64));
    Ok(())
}

// The first recovery of a disk is stopped at each of its calls, and the one after it two calls later.
#[test]
fn a_recovery_that_is_stopped_is_taken_up_again(rt: HostRuntime) -> Result<(), Fail> {
    let alloc = rt.alloc();
    for call in 1..7 {
        for &leave in &LEAVES {
            let next = Stop {
                call: call + 2,
                leave,
            };
            let outcome = outcome_of(alloc, 3, &[Stop { call, leave }, next], &[])?;
            let found = (outcome.switched_on, outcome.refused, outcome.found);
            assert!(rt; found == (2, 1, Some(0)), "at {call}");
        }
    }
    Ok(())
}

// The fold is stopped at call 24, where both halves have entries. The recovery after it takes the calls 25 to 31: a sync, two
// reads, and a write, a sync, a cut and a sync that give up a half. It is stopped at each, and the one after it up to seven calls
// later; or it fails at each, and the disk stays on.
#[test]
fn a_recovery_of_two_halves_keeps_the_text(rt: HostRuntime) -> Result<(), Fail> {
    let alloc = rt.alloc();
    let fold_stops = Stop {
        call: 24,
        leave: Leave::Old,
    };
    for call in 25..32 {
        for &leave in &LEAVES {
            for later in 1..8 {
                let next = Stop {
                    call: call + later,
                    leave,
                };
                let outcome = outcome_of(alloc, 3, &[fold_stops, Stop { call, leave }, next], &[])?;
                let keeps_text = outcome.found == Some(3) && is_off_each_time(outcome);
                assert!(rt; keeps_text, "at {call} and {later} later");
            }
        }
        let outcome = outcome_of(alloc, 3, &[fold_stops], &[call])?;
        let found = (outcome.switched_on, outcome.refused, outcome.found);
        assert!(rt; found == (1, 1, Some(3)), "at {call}");
    }
    Ok(())
}

// How many device calls so many appends of a payload take, from the recovery on, and how many bytes a half then has.
fn cost_of(
    alloc: Global,
    count: u32,
    payload: &[u8],
    bytes: &mut [u8],
) -> Result<(u32, usize), JournalFault>
    requires { length payload.now < 2 ^ 32 }
{
    let mut journal = new_journal(alloc, &[], &[])?;
    append_all(&mut journal, count, payload)?;
    let mut disk = journal.into_disk();
    let calls = disk.note().calls();
    let held = disk.read(Half::A, 0, bytes)?;
    Ok((calls, held))
}

// Each append of 4,000 bytes makes four device calls and adds 4,005 bytes; recovery makes six calls and begins the half
// with 9 bytes. So both numbers grow linearly.
#[test]
fn appends_cost_the_same(rt: HostRuntime) -> Result<(), Fail> {
    let alloc = rt.alloc();
    let payload = vec![in alloc; 7; 4000]?;
    let mut bytes = vec![in alloc; 0; 4_100_000]?;
    for (count, want_calls, want_held) in [(500, 2006, 2_002_509), (1000, 4006, 4_005_009)] {
        let (calls, held) = cost_of(alloc, count, &payload, &mut bytes)?;
        println!(rt; "{count} appends of 4,000 bytes: {calls} device calls, {held} bytes held")?;
        assert!(rt; calls == want_calls && held == want_held);
    }
    Ok(())
}

// How many device calls a disk has had once it was used for a payload of so many bytes.
fn calls_with(alloc: Global, len: u16) -> Result<u32, AllocError> {
    let payload = vec![in alloc; 7; len as usize]?;
    let disk = used(alloc, new_disk(alloc, &[], &[])?, &payload);
    Ok(disk.note().calls())
}

// The law of rows of calls is of calls that can be made. The second recovery takes five: a sync, two reads, and a write
// and a sync that begin half B again, which has no more than 9 bytes. Half A has 14 bytes more than the payload, so from
// 4,082 bytes of payload on it takes a read more, and from 8,178 on another.
#[test]
fn a_disk_is_used(rt: HostRuntime) -> Result<(), Fail> {
    let alloc = rt.alloc();
    let disk = used(alloc, new_disk(alloc, &[], &[])?, &PAYLOAD);
    let calls = disk.note().calls();
    let found = found_on(alloc, disk)?;
    assert!(rt; calls == 6 + 4 + 5 && found == (1, Some(1)));
    for (len, want) in [(4081, 15), (4082, 16), (8177, 16), (8178, 17)] {
        assert!(rt; calls_with(alloc, len)? == want, "{len} bytes");
    }
    Ok(())
}

// The text of these halves, and how many bytes the second has then.
fn recovered(alloc: Global, a: &[u8], b: &[u8]) -> Result<(Vec<u8>, usize), JournalFault> {
    let mut disk = new_disk(alloc, &[], &[])?;
    disk.write_at(Half::A, 0, a)?;
    disk.write_at(Half::B, 0, b)?;
    match Journal::recover(alloc, disk) {
        Ok((journal, entries)) => {
            let mut disk = journal.into_disk();
            let left = disk.read(Half::B, 0, &mut [0; 32])?;
            Ok((joined(alloc, &entries)?, left))
        }
        Err((_, fault)) => Err(fault),
    }
}

#[test]
fn the_bytes_say_what_is_recovered(rt: HostRuntime) -> Result<(), Fail> {
    let alloc = rt.alloc();
    let torn = b"HBVJ0002\x5A\0\0\0\x04\x07\0\x03\x01\0\x5A\x5A".as_slice();
    let one = b"HBVJ0002\x5A\0\0\0\x01\x61\0".as_slice();
    let none = b"".as_slice();
    for &(a, b, want, want_left) in &[
        (torn, none, PAYLOAD.as_slice(), 9),
        (none, none, none, 9),
        (b"123456789", &[0xFF; 9], none, 9),
        (one, one, b"a", 9),
        (none, one, b"a", 15),
    ] {
        let (text, left) = recovered(alloc, a, b)?;
        assert!(rt;
            text.as_slice() == want && left == want_left,
            "{want_left} bytes left"
        );
    }
    let refused = recovered(alloc, none, &[0xFF; 10]).err();
    assert!(rt; refused == Some(JournalFault::NotAJournal));
    Ok(())
}

// A half of so many bytes with no entry: the magic and zeros, or the front of that.
fn blank(alloc: Global, len: usize) -> Result<Vec<u8>, AllocError> {
    let mut half = Vec::from_slice(alloc, b"HBVJ0002")?;
    half.resize(len, 0)?;
    Ok(half)
}

// How many device calls the recovery of two halves without an entry takes.
fn calls_of_recovery(alloc: Global, a: usize, b: usize) -> Result<u32, JournalFault> {
    let mut disk = new_disk(alloc, &[], &[])?;
    disk.write_at(Half::A, 0, &blank(alloc, a)?)?;
    disk.write_at(Half::B, 0, &blank(alloc, b)?)?;
    match Journal::recover(alloc, disk) {
        Ok((journal, _)) => Ok(journal.disk().note().calls().saturating_sub(2)),
        Err((_, fault)) => Err(fault),
    }
}

// A recovery syncs, and reads each half in pieces of 4,096 bytes up to the first that comes short: a half of L bytes takes
// L / 4,096 + 1 reads. A half of at most 9 bytes is begun by one write, and one sync follows. No clause says how many calls
// there are, since a disk of any kind counts none.
#[test]
fn halves_are_read_in_pieces(rt: HostRuntime) -> Result<(), Fail> {
    let alloc = rt.alloc();
    for &(a, b, want) in &[
        (0, 0, 6),
        (9, 9, 6),
        (10, 9, 5),
        (9, 10, 5),
        (10, 10, 3),
        (999, 1000, 3),
        (4095, 10, 3),
        (4096, 10, 4),
        (4097, 10, 4),
        (10, 4095, 3),
        (10, 4096, 4),
        (4096, 4096, 5),
        (8191, 10, 4),
        (8192, 9, 7),
        (12_287, 8192, 7),
        (12_288, 0, 8),
    ] {
        assert!(rt;
            calls_of_recovery(alloc, a, b)? == want,
            "{a} and {b} bytes"
        );
    }
    Ok(())
}
