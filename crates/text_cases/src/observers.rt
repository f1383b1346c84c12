//! What observers count, and whether they agree.

use crate::reports::{Told, report_of};
use hb_base::{Bytes, Config, NodeSet};
use hb_rules::Report;
use hb_wire::{Post, PostBytes, To};
use net_script::{Link, Shape};
use observer::{Heard, Observer, observers_agree};
use std::alloc::{AllocError, Global};
use std::test::Fail;

// A run among four nodes, of which node 3 lies, with this history. What each rule says of posts: from a node to a node, of so
// many posts the one with this number is dropped.
pub(crate) fn run_of(
    alloc: Global,
    history: &'static str,
    drops: &[(Option<u8>, Option<u8>, u32, u32)],
) -> Result<Report, Fail> {
    let told = Told {
        nodes: 4,
        faulty: 1,
        liars: &[3],
        ends: "",
        history,
        status: 4,
    };
    let mut report = report_of(alloc, told)?;
    for (from, to, every, at) in drops {
        report.script.links.push(Link {
            from: *from,
            to: *to,
            every: *every,
            at: *at,
            shape: Shape::Drop,
        })?;
    }
    Ok(report)
}

pub(crate) const EVERY_TO_TWO: &[(Option<u8>, Option<u8>, u32, u32)] = &[(None, Some(2), 1, 0)];

// What each post of a history does, by a letter: n for nothing, c for a node that is counted; and how many epochs there are then.
const HEARD: [(&str, &str, u32); 16] = [
    // nothing
    ("", "", 0),
    // one, and twice
    ("0dC00abc-", "c", 0),
    ("0dC00abc- 0dC00abc-", "cn", 0),
    // two nodes
    ("0dC00abc- 1dC00abc-", "cc", 1),
    // two nodes, of which one lies, and a third
    ("3dC00abc- 1dC00abc- 2dC00abc-", "ccc", 1),
    // two lists, and a third node that has claimed the second
    ("0dC00abc- 1dC00abcd 2dC00abcd", "ccc", 1),
    // one node with two lists
    ("3dC00abc- 3dC00abcd 3dC00abc- 0dC00abcd", "ccnc", 1),
    // of a lane, of an actor beyond the desk, of no node
    ("03C00abc- 05C00abc- 4dC00abc- fdC00abc-", "nnnn", 0),
    // of an epoch that no run has, and of the last one
    ("0dC32abc- 1dC32abc- 0dC31abc- 1dC31abc-", "nncc", 0),
    // another kind of vote
    ("0dP00a 1dP00a", "nn", 0),
    // the second epoch first
    ("0dC01abc- 1dC01abc- 0dC00abc- 1dC00abc-", "cccc", 2),
    // the second epoch alone
    ("0dC01abc- 1dC01abc-", "cc", 0),
    // an epoch left out
    ("0dC00abc- 1dC00abc- 0dC02abc- 1dC02abc-", "cccc", 1),
    // a second list of an epoch that has one
    ("0dC00abc- 1dC00abc- 3dC00abcd 2dC00abcd", "cccc", 1),
    // three epochs
    (
        "0dC00abc- 0dC01abd- 1dC00abc- 1dC01abd- 2dC02a--- 0dC02a---",
        "cccccc",
        3,
    ),
    // the empty list
    ("0dC00---- 1dC00----", "cc", 1),
];

// What an observer does with the posts of a history, by letters, and how many epochs there are then.
fn heard_of(alloc: Global, history: &'static str) -> Result<(Vec<u8>, u32), Fail> {
    let report = run_of(alloc, history, &[])?;
    let mut observer = Observer::new(alloc, &report.config)?;
    let mut answers = Vec::new(alloc);
    for post in &report.history {
        let letter = match observer.hear(post)? {
            Heard::Nothing => b'n',
            Heard::Counted => b'c',
        };
        answers.push(letter)?;
    }
    Ok((answers, observer.epochs()))
}

#[test]
fn counted(rt: HostRuntime) -> Result<(), Fail> {
    for &(history, wanted, epochs) in &HEARD {
        let (answers, count) = heard_of(rt.alloc(), history)?;
        assert!(rt;
            answers.as_slice() == wanted.as_bytes() && count == epochs,
            "the history {history}"
        );
    }
    Ok(())
}

// A post of the desk of node 0 with these bytes, among four nodes.
fn post_of(alloc: Global, bytes: &[u8]) -> Result<Post, AllocError> {
    Ok(Post {
        from: 0,
        actor: 4,
        to: To::Book,
        bytes: PostBytes::plain(Bytes::copy(alloc, bytes)?),
    })
}

// Bytes, and whether a post of a desk with them is counted, in a run of two epochs.
const SPELLED: [(&[u8], Heard); 9] = [
    (b"", Heard::Nothing),
    (b"\x12\x00\x00", Heard::Counted),
    (b"\x12\x01\x00", Heard::Counted),
    // past the run's epochs
    (b"\x12\x02\x00", Heard::Nothing),
    // a byte behind the list
    (b"\x12\x00\x00\x00", Heard::Nothing),
    // a list cut short
    (b"\x12\x00\x01\x00\x00\x00\x00\x02\x00", Heard::Nothing),
    (b"\x12\x00\x01\x00\x00\x00\x00\x02\x00\x00", Heard::Counted),
    // nodes that do not rise
    (
        b"\x12\x00\x02\x01\x00\x00\x00\x00\x00\x00\x00\x00\x00",
        Heard::Nothing,
    ),
    // another kind of vote of the desk
    (b"\x11\x00", Heard::Nothing),
];

// What comes of such a post where it is the first.
fn first_heard(alloc: Global, config: &Config, bytes: &[u8]) -> Result<Heard, AllocError> {
    let post = post_of(alloc, bytes)?;
    Observer::new(alloc, config)?.hear(&post)
}

#[test]
fn spelled(rt: HostRuntime) -> Result<(), Fail> {
    let config = Config::new(4, 1, 2, 8, 16, 7, 1, NodeSet::new()).ok_or("no config")?;
    for &(bytes, wanted) in &SPELLED {
        let heard = first_heard(rt.alloc(), &config, bytes)?;
        assert!(rt; heard == wanted, "the bytes {bytes:?}");
    }
    Ok(())
}

#[test]
fn lists(rt: HostRuntime) -> Result<(), Fail> {
    let report = run_of(rt.alloc(), "0dC01-b-- 0dC00a--- 1dC01-b-- 2dC00a---", &[])?;
    let mut observer = Observer::new(rt.alloc(), &report.config)?;
    for post in &report.history {
        observer.hear(post)?;
    }
    assert!(rt;
        observer.epochs() == 2
            && observer.list(0) == b"\x01\x00\x00\x00\x00\x05\x00\x01\x00\x01a".as_slice()
            && observer.list(1) == b"\x01\x01\x00\x00\x00\x05\x00\x01\x00\x01b".as_slice(),
        "the lists of two epochs"
    );
    Ok(())
}

// Whether the observers of a history agree, where some posts are dropped.
const AGREEING: [(bool, &str, &[(Option<u8>, Option<u8>, u32, u32)]); 18] = [
    // nothing was closed
    (true, "", &[]),
    // all the same
    (true, "0dC00abc- 1dC00abc- 2dC00abc-", &[]),
    // a node behind, and a liar with another list
    (
        true,
        "0dC00abc- 0dC01abd- 1dC00abc- 3dC00abcd 1dC01abd-",
        &[],
    ),
    // one of the lists is a liar's, and a node differs
    (false, "3dC00abc- 0dC00abc- 1dC00abcd", &[]),
    // two lists of f + 1 nodes each, the first of them counts
    (false, "0dC00abc- 1dC00abc- 2dC00abcd 3dC00abcd", &[]),
    // a node that differs, and no list
    (true, "0dC00abc- 3dC00abcd", &[]),
    // two correct nodes, and each has another list
    (false, "0dC00abc- 1dC00abcd", &[]),
    // too few items
    (false, "0dC00ab-- 1dC00ab--", &[]),
    // the same of two liars' and a node's list
    (false, "0dC00ab-- 3dC00ab--", &[]),
    // a list that one node has alone
    (true, "0dC00ab--", &[]),
    // a later list with too few items, that no observer gets to
    (true, "0dC01ab-- 1dC01ab--", &[]),
    // one observer hears but one of the closings
    (true, "0dC00abc- 1dC00abc-", &[(Some(0), Some(2), 1, 0)]),
    // an observer hears two lists of the liar, one of them twice
    (
        true,
        "0dC00abc- 3dC00abc- 3dC00abcd 3dC00abcd",
        &[(Some(0), Some(2), 1, 0)],
    ),
    // an observer at a node hears nothing
    (true, "0dC00abc- 1dC00abc- 3dC00abc-", EVERY_TO_TWO),
    // a node left epoch 0 out, and is alike
    (true, "0dC01abc- 1dC00abc- 2dC00abc-", &[]),
    // a node left epoch 0 out, and differs
    (false, "0dC01abd- 1dC00abc- 2dC00abc-", &[]),
    // a liar and a node let one observer take a list that another does not
    (
        false,
        "1dC00abc- 3dC00abc- 2dC00abcd 3dC00abcd",
        &[(Some(1), Some(0), 1, 0)],
    ),
    // three correct nodes with three lists, of which the second is a liar's too
    (false, "0dC00abc- 1dC00ab-d 2dC00a-cd 3dC00ab-d", &[]),
];

#[test]
fn agreeing(rt: HostRuntime) -> Result<(), Fail> {
    for &(wanted, history, drops) in &AGREEING {
        let report = run_of(rt.alloc(), history, drops)?;
        assert!(rt;
            observers_agree(rt.alloc(), &report)? == wanted,
            "the history {history}"
        );
    }
    Ok(())
}

// Whether the observers of a history agree, in a run of one epoch.
const PAST_THE_RUN: [(bool, &str); 4] = [
    // a correct node and a liar have closed an epoch that the run does not have
    (true, "0dC00abc- 1dC00abc- 2dC01abc- 3dC01abc-"),
    // two correct nodes have, and no observer takes it
    (false, "0dC00abc- 1dC00abc- 0dC01abc- 1dC01abd-"),
    // they have, but not the epoch before
    (true, "0dC00abc- 0dC01abc- 1dC01abc-"),
    (true, "0dC00abc- 1dC00abc- 0dC02abc- 1dC02abc-"),
];

#[test]
fn past_the_run(rt: HostRuntime) -> Result<(), Fail> {
    let mut liars = NodeSet::new();
    liars.add(3);
    for &(wanted, history) in &PAST_THE_RUN {
        let mut report = run_of(rt.alloc(), history, &[])?;
        report.config = Config::new(4, 1, 1, 8, 16, 7, 2, liars).ok_or("no config")?;
        assert!(rt;
            observers_agree(rt.alloc(), &report)? == wanted,
            "the history {history}"
        );
    }
    Ok(())
}
