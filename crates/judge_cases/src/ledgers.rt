//! Whether acs_world's definitions of ledgers say what is meant: histories whose answers `tools/oracles/run answers_on_ledgers`
//! works out. Four nodes, of which node 3 lies; actor 4 of a node is its desk, and a list has to have three items.

use acs_world::{batches_ok, common_epochs, comparable, unaltered};
use disk_model::{MemoryDisk, Plan, Power};
use hb_base::{Bytes, Config, NodeSet};
use hb_rules::{End, Fate, Report};
use hb_wire::{Post, PostBytes, To};
use std::alloc::{AllocError, Global};
use std::test::Fail;

// Histories are text, a word for each post: the node, the actor, which is d for the desk, the kind, two digits of the epoch, and
// letters. C closes with a list, which has for each node the letter of its item or a dash; P proposes the letter, and V
// delivers it.

// Whether each list has batches enough.
const LISTS: [(bool, &str); 16] = [
    // no list
    (true, ""),
    // three items
    (true, "0dC00abc-"),
    // all four
    (true, "0dC00abcd"),
    // a list that was posted again
    (true, "0dC00-bcd 0dC00-bcd"),
    // two items
    (false, "0dC00ab--"),
    // one
    (false, "2dC00---d"),
    // none
    (false, "1dC00----"),
    // only the later list
    (false, "0dC00abc- 0dC01ab--"),
    // the last epoch
    (false, "0dC31ab--"),
    // another node
    (false, "0dC00abc- 1dC00ab--"),
    // of a liar
    (true, "3dC00ab--"),
    // of a lane
    (true, "03C00ab--"),
    // of an actor beyond the desk
    (true, "05C00ab--"),
    // of no node
    (true, "4dC00ab--"),
    // of an epoch beyond the limit
    (true, "0dC32ab--"),
    // the second of two lists of an epoch
    (false, "0dC00abc- 0dC00ab--"),
];

// Whether each list has what desks proposed.
const PROPOSALS: [(bool, &str); 19] = [
    // no list
    (true, ""),
    // all were proposed
    (true, "0dP00a 1dP00b 2dP00c 0dC00abc-"),
    // none was
    (false, "0dC00abc-"),
    // one has another value
    (false, "0dP00a 1dP00x 0dC00ab--"),
    // two are exchanged
    (false, "0dP00a 1dP00b 0dC00ba--"),
    // of the liar anything
    (true, "0dP00a 3dP00b 0dC00a--x"),
    // before it was proposed
    (true, "0dC00a--- 0dP00a"),
    // the second of two proposals
    (true, "1dP00x 1dP00b 0dC00-b--"),
    // both of two
    (true, "1dP00x 1dP00b 0dC00-b-- 2dC00-x--"),
    // neither of two
    (false, "1dP00x 1dP00b 0dC00-y--"),
    // for another epoch
    (false, "0dP01a 0dC00a---"),
    // by a lane
    (false, "03P00a 0dC00a---"),
    // another kind of vote
    (false, "0dV00a 0dC00a---"),
    // proposed by another node
    (false, "1dP00a 0dC00a---"),
    // only the later list, of the last epoch
    (false, "2dP00a 0dC00--a- 1dC31--a-"),
    // of a liar
    (true, "3dC00a---"),
    // of a lane
    (true, "03C00a---"),
    // of no node
    (true, "4dC00a---"),
    // only the last item
    (false, "0dP00a 1dP00b 0dC00abc-"),
];

// Whether of any two ledgers one begins with the other.
const LEDGERS: [(bool, &str); 27] = [
    // no list
    (true, ""),
    // one node alone
    (true, "0dC00abc- 0dC01abd-"),
    // all the same
    (true, "0dC00abc- 1dC00abc- 2dC00abc- 1dC01abd- 0dC01abd-"),
    // one behind
    (true, "0dC00abc- 0dC01abd- 1dC00abc- 2dC00abc- 2dC01abd-"),
    // another list of the same length
    (false, "0dC00abc- 1dC00abx-"),
    // of another node's item
    (false, "0dC00abc- 1dC00ab-c"),
    // a longer list
    (false, "0dC00abc- 1dC00abcd"),
    // the second list alone
    (false, "0dC00abc- 1dC00abc- 0dC01abc- 1dC01abx-"),
    // the last two nodes alone
    (false, "1dC00abc- 2dC00abx-"),
    // the first and the last alone
    (false, "0dC00abc- 2dC00abx-"),
    // the last epoch alone
    (false, "0dC31abc- 1dC31abx-"),
    // of a liar
    (true, "0dC00abc- 3dC00abx-"),
    // of a lane
    (true, "0dC00abc- 13C00abx-"),
    // of no node
    (true, "0dC00abc- 4dC00abx-"),
    // an epoch left out, the lists the same
    (true, "0dC01abc- 1dC00abc-"),
    // an epoch left out, and one list more
    (false, "0dC00abc- 0dC01abd- 1dC01abd-"),
    // the later epoch first
    (true, "0dC01abd- 0dC00abc- 1dC00abc-"),
    // the later epoch first, and alone before
    (false, "0dC01abd- 0dC00abc- 1dC01abd-"),
    // two lists of an epoch, and of two epochs
    (true, "0dC00abc- 0dC00abd- 1dC00abc- 1dC01abd-"),
    // two lists of an epoch in another order
    (false, "0dC00abc- 0dC00abd- 1dC00abd- 1dC00abc-"),
    // two lists of an epoch, posted again
    (
        true,
        "0dC00abc- 0dC00abd- 0dC00abc- 1dC00abc- 1dC00abd- 1dC00abd-",
    ),
    // two lists of an epoch, the other node behind
    (true, "0dC00abc- 0dC00abd- 1dC00abc-"),
    // two lists of an epoch, the second alone
    (false, "0dC00abc- 0dC00abd- 1dC00abd-"),
    // two of three alike
    (false, "0dC00abc- 1dC00abc- 2dC00abx-"),
    // one with none between two that differ
    (false, "0dC00abc- 2dC01abx-"),
    // two with the same front and other ends
    (false, "0dC00abc- 0dC01abd- 0dC02abe- 1dC00abc- 1dC02abe-"),
    // the empty list twice
    (true, "0dC00---- 0dC01---- 1dC00---- 1dC02---- 1dC03----"),
];

// Up to which number of lists the ledgers of running nodes are the same, how many actors of each node work, and the history.
const COMMONS: [(u32, [u8; 4], &str); 12] = [
    // none runs
    (0, [0, 0, 0, 0], "0dC00abc- 1dC00abc- 2dC00abc-"),
    // all do
    (1, [5, 5, 5, 0], "0dC00abc- 1dC00abc- 2dC00abc-"),
    // one has closed one epoch less
    (
        1,
        [5, 5, 5, 0],
        "0dC00abc- 1dC00abc- 2dC00abc- 0dC01abc- 2dC01abc-",
    ),
    // two have closed none
    (0, [5, 5, 5, 0], "0dC00abc-"),
    // the one behind does not run
    (
        2,
        [5, 0, 5, 0],
        "0dC00abc- 1dC00abc- 2dC00abc- 0dC01abc- 2dC01abc-",
    ),
    // the one behind lacks an end
    (
        2,
        [5, 4, 5, 0],
        "0dC00abc- 1dC00abc- 2dC00abc- 0dC01abc- 2dC01abc-",
    ),
    // the liar has closed none
    (
        2,
        [5, 0, 5, 5],
        "0dC00abc- 1dC00abc- 2dC00abc- 0dC01abc- 2dC01abc-",
    ),
    // posted again
    (1, [5, 0, 0, 0], "0dC00abc- 0dP01a 0dC00abc-"),
    // two lists of one epoch
    (3, [0, 5, 0, 0], "1dC01abc- 1dC00abc- 1dC00abcd 1dC00abc-"),
    // epochs left out
    (2, [0, 0, 5, 0], "2dC31abc- 23C01abc- 2dC02abc- 1dC03abc-"),
    // another node has two lists of one epoch
    (
        2,
        [5, 5, 0, 0],
        "0dC00abc- 2dC00abc- 2dC00abd- 1dC00abc- 1dC01abc- 0dC01abc-",
    ),
    // one has two lists of one epoch, the other is behind
    (1, [5, 5, 0, 0], "0dC00abc- 0dC00abd- 1dC00abc-"),
];
// The bytes of a vote whose value is this byte.
fn value_bytes(alloc: Global, kind: u8, epoch: u8, letter: u8) -> Result<Bytes, AllocError> {
    Bytes::copy(alloc, &[kind, epoch, 0, 0, 0, 1, letter])
}

// The bytes of a closed list with these letters.
fn list_bytes(alloc: Global, epoch: u8, letters: &[u8]) -> Result<Bytes, AllocError> {
    let mut items = Vec::new(alloc);
    let mut count = 0u8;
    let mut node = 0u8;
    for letter in letters {
        if *letter != b'-' {
            items.extend_from_slice(&[node, 0, 0, 0, 1, *letter])?;
            count = count.saturating_add(1);
        }
        node = node.saturating_add(1);
    }
    let mut bytes = Vec::from_slice(alloc, &[0x12, epoch, count])?;
    bytes.append(&mut items)?;
    Bytes::from_vec(bytes)
}

// The number that a digit tells.
fn digit(byte: u8) -> u8 {
    byte.saturating_sub(b'0')
}

// The post that a word tells.
fn post_of(alloc: Global, word: &str) -> Result<Post, Fail> {
    match word.as_bytes() {
        [node, actor, kind, tens, ones, letters @ ..] => {
            let epoch = digit(*tens).saturating_mul(10).saturating_add(digit(*ones));
            let first = letters.first().copied().unwrap_or(0);
            let bytes = match kind {
                b'C' => list_bytes(alloc, epoch, letters)?,
                b'P' => value_bytes(alloc, 0x10, epoch, first)?,
                _ => value_bytes(alloc, 0x04, epoch, first)?,
            };
            let actor = if *actor == b'd' { 4 } else { digit(*actor) };
            Ok(Post {
                from: digit(*node),
                actor,
                to: To::Home,
                bytes: PostBytes::plain(bytes),
            })
        }
        _ => Err("no post".into()),
    }
}

// The report of a run with this history.
fn report_of(alloc: Global, version: u8, history: &str) -> Result<Report, Fail> {
    let mut liars = NodeSet::new();
    liars.add(3);
    let mut report = Report::empty(alloc);
    report.config = Config::new(4, 1, 32, 8, 16, 7, version, liars).ok_or("no config")?;
    for word in history.split(' ') {
        if !word.is_empty() {
            report.history.push(post_of(alloc, word)?)?;
        }
    }
    Ok(report)
}

#[test]
fn batches(rt: HostRuntime) -> Result<(), Fail> {
    for &(wanted, history) in &LISTS {
        let report = report_of(rt.alloc(), 1, history)?;
        assert!(rt; batches_ok(&report) == wanted, "the history {history}");
    }
    Ok(())
}

#[test]
fn proposals(rt: HostRuntime) -> Result<(), Fail> {
    for &(wanted, history) in &PROPOSALS {
        let report = report_of(rt.alloc(), 2, history)?;
        assert!(rt; unaltered(&report) == wanted, "the history {history}");
    }
    Ok(())
}

#[test]
fn ledgers(rt: HostRuntime) -> Result<(), Fail> {
    for &(wanted, history) in &LEDGERS {
        let report = report_of(rt.alloc(), 2, history)?;
        assert!(rt; comparable(&report) == wanted, "the history {history}");
    }
    Ok(())
}

// Ends of so many actors of each node, all of them at work, with a disk that was never called.
fn ends_of(alloc: Global, at_work: [u8; 4]) -> Result<Vec<End>, AllocError> {
    let plan = Plan {
        stops: Vec::new(alloc),
        faults: Vec::new(alloc),
    };
    let note = MemoryDisk::new(alloc, plan).note();
    let mut ends = Vec::new(alloc);
    for node in 0..4u8 {
        for actor in 0..at_work[node as usize] {
            ends.push(End {
                node,
                actor,
                fate: Fate::Running,
                got: Vec::new(alloc),
                note,
            })?;
        }
    }
    Ok(ends)
}

// The report of a run with this history, and so many actors of each node at work.
fn report_at_work(alloc: Global, at_work: [u8; 4], history: &str) -> Result<Report, Fail> {
    let mut report = report_of(alloc, 2, history)?;
    report.ends = ends_of(alloc, at_work)?;
    Ok(report)
}

#[test]
fn commons(rt: HostRuntime) -> Result<(), Fail> {
    for &(wanted, at_work, history) in &COMMONS {
        let report = report_at_work(rt.alloc(), at_work, history)?;
        assert!(rt; common_epochs(&report) == wanted, "the history {history}");
    }
    Ok(())
}
