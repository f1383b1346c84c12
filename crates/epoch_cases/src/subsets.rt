//! What no clause says: that calls find memory, and what whole epochs come to. `tools/oracles/run subsets` works the rows
//! out.
ghost use Rattle.std.specs.Prelude.{◌≡◌, OnOk};
ghost use Rattle.acs_core.specs.Subset.{node_epoch_of};

use acs_core::Acs;
use hb_base::{Bytes, Config, NodeSet};
use hb_rules::Due;
use hb_wire::Vote;
use std::alloc::{AllocError, Global};
use std::test::Fail;

// Nodes, faulty ones, and whether NoMore is cast at first; what the lanes say: a great letter for one that decides 1, a small
// one for one that decides 0, and the number of one that delivers, each time another letter; what comes of each: n where
// NoMore becomes due, c where the epoch can be closed, b for both; and the list, lane by lane, with the letters delivered.
const CASES: [(u8, u8, bool, &str, &str, &str); 16] = [
    (1, 0, false, "A0", "nc", "0b"),
    (1, 0, false, "0A", ".b", "0a"),
    (1, 0, false, "a0", "cc", ""),
    (1, 0, false, "aA0", "ccc", ""),
    (4, 1, false, "0123ABCD", "......nc", "0a1b2c3d"),
    (4, 1, false, "ABC0120d", "..n....c", "0d1e2f"),
    (4, 1, false, "ABCd1233000", "..n.....ccc", "0i1e2f"),
    (4, 1, false, "aABbCcDd0123", "......n....c", "1j2k3l"),
    (4, 1, false, "D3C2B1a", "....n.c", "1f2d3b"),
    (4, 1, false, "DCBA3210", "..n....c", "0h1g2f3e"),
    (4, 1, false, "abcd0123", "...ccccc", ""),
    (4, 1, false, "AAABBBCd012", "......n...c", "0i1j2k"),
    (4, 1, true, "012ABCd", "......c", "0a1b2c"),
    (4, 1, false, "CaD3B211", "....n.cc", "1g2f3d"),
    (
        7,
        2,
        false,
        "GFEDCBA0123456",
        "....n........c",
        "0h1i2j3k4l5m6n",
    ),
    (
        7,
        2,
        false,
        "0a1bCDEFG23456",
        "........n....c",
        "2j3k4l5m6n",
    ),
];

// The lane that speaks, and what it says in this epoch.
fn said(alloc: Global, epoch: u8, letter: u8, value: u8) -> Result<(u8, Vote), AllocError> {
    Ok(match letter {
        b'A'..=b'P' => (letter - b'A', Vote::Decided { epoch, bit: true }),
        b'a'..=b'p' => (letter - b'a', Vote::Decided { epoch, bit: false }),
        _ => (
            letter.saturating_sub(b'0'),
            Vote::Delivered {
                epoch,
                value: Bytes::copy(alloc, &[value])?,
            },
        ),
    })
}

// Hears what a lane says. Whether NoMore of epoch 3 becomes due: None where something else does.
fn hear(alloc: Global, acs: &mut Acs, n: u8, lane: u8, vote: &Vote) -> Result<Option<bool>, Fail>
    requires { (node_epoch_of acs.old).config.n ≡ n }
    ensures { OnOk result ((node_epoch_of acs.new).config.n ≡ n) }
{
    if lane >= n {
        return Err("no lane".into());
    }
    let mut due = Due::new(alloc);
    acs.hear(lane, vote, &mut due)?;
    Ok(match due.votes() {
        [] => Some(false),
        [Vote::NoMore { epoch: 3 }] => Some(true),
        _ => None,
    })
}

// What comes of what a lane says in epoch 3, after it has said the like in epochs 2 and 4.
fn outcome(alloc: Global, acs: &mut Acs, n: u8, letter: u8, value: u8) -> Result<u8, Fail>
    requires { (node_epoch_of acs.old).config.n ≡ n }
    ensures { OnOk result ((node_epoch_of acs.new).config.n ≡ n) }
{
    let other = Vote::Decided {
        epoch: 2,
        bit: true,
    };
    let (lane, later) = said(alloc, 4, letter, b'z')?;
    let is_heeded = hear(alloc, acs, n, lane, &other)? != Some(false);
    if is_heeded || hear(alloc, acs, n, lane, &later)? != Some(false) {
        return Err("another epoch is heeded".into());
    }
    let (lane, vote) = said(alloc, 3, letter, value)?;
    let is_due = hear(alloc, acs, n, lane, &vote)?;
    let is_closed = acs.closed()?.is_some();
    Ok(match (is_due, is_closed) {
        (Some(false), false) => b'.',
        (Some(true), false) => b'n',
        (Some(false), true) => b'c',
        (Some(true), true) => b'b',
        (None, _) => b'?',
    })
}

// What comes of all that the lanes say, and the list in the end.
fn outcomes(
    alloc: Global,
    config: &Config,
    own: &[Vote],
    script: &str,
) -> Result<(Vec<u8>, Vec<u8>), Fail> {
    let n = config.n();
    let mut acs = Acs::rebuild(alloc, config, 0, 3, own)?;
    let mut text = Vec::new(alloc);
    let mut value = b'a';
    for letter in script.as_bytes() {
        text.push(outcome(alloc, &mut acs, n, *letter, value)?)?;
        value = value.saturating_add(1);
    }
    let closing = acs.closed()?.ok_or("not closed")?;
    Ok((text, listed(alloc, &closing)?))
}

// The list of a closing of epoch 3 as text.
fn listed(alloc: Global, vote: &Vote) -> Result<Vec<u8>, Fail> {
    let mut text = Vec::new(alloc);
    match vote {
        Vote::Closed { epoch: 3, list } => {
            for item in list.as_slice() {
                text.push(b'0'.saturating_add(item.node))?;
                text.extend_from_slice(item.value.as_slice())?;
            }
        }
        _ => return Err("no closing of the epoch".into()),
    }
    Ok(text)
}

// What comes of a run of five epochs with these numbers, and the list in the end. NoMore is cast in epoch 2, and in epoch 3 if it
// is said so.
fn outcomes_of(
    alloc: Global,
    n: u8,
    f: u8,
    is_cast: bool,
    script: &str,
) -> Result<(Vec<u8>, Vec<u8>), Fail> {
    let config = Config::new(n, f, 5, 1, 1, 0, 1, NodeSet::new()).ok_or("no config")?;
    let votes = [Vote::NoMore { epoch: 3 }, Vote::NoMore { epoch: 2 }];
    let first = usize::from(!is_cast);
    outcomes(alloc, &config, votes.get(first..).unwrap_or(&[]), script)
}

#[test]
fn whole_epochs(rt: HostRuntime) -> Result<(), Fail> {
    let alloc = rt.alloc();
    for &(n, f, is_cast, script, wanted, list) in &CASES {
        let (text, listed) = outcomes_of(alloc, n, f, is_cast, script)?;
        assert!(rt;
            text.as_slice() == wanted.as_bytes() && listed.as_slice() == list.as_bytes(),
            "what comes of {script}, or its list"
        );
    }
    Ok(())
}
