//! Whether rbc_world's definition of agreeing deliveries says what is meant: histories whose answer was worked out by hand. Four
//! nodes, of which node 3 lies; actor 4 of a node is its desk.

use hb_base::{Bytes, Config, NodeSet};
use hb_rules::Report;
use hb_wire::{Post, PostBytes, To};
use rbc_world::delivered_agree;
use std::alloc::{AllocError, Global};
use std::test::Fail;

const READY: u8 = 0x03;

const DELIVERED: u8 = 0x04;

const PROPOSE: u8 = 0x10;

// Each post: sender, actor, kind, epoch, and a byte. A Ready's root has this byte 32 times, a value as often as it says.
type Rows = &'static [[u8; 5]];

const CASES: u8 = 28;

// Whether the broadcasts of a history agree, and the history.
fn agreeing(case: u8) -> (bool, Rows) {
    match case {
        0 => (true, &[]),
        1 => (true, &[[0, 1, READY, 0, 7], [1, 1, READY, 0, 7]]),
        // two roots in a lane and epoch, and in a lane of the liar; the last lane and epoch
        2 => (false, &[[0, 1, READY, 0, 7], [1, 1, READY, 0, 8]]),
        3 => (false, &[[0, 3, READY, 0, 7], [1, 3, READY, 0, 8]]),
        4 => (false, &[[0, 3, READY, 31, 7], [1, 3, READY, 31, 8]]),
        // other lanes and other epochs, also where lane and epoch are exchanged
        5 => (true, &[[0, 1, READY, 0, 7], [1, 2, READY, 0, 8]]),
        6 => (true, &[[0, 1, READY, 0, 7], [1, 1, READY, 1, 8]]),
        7 => (true, &[[0, 1, READY, 0, 7], [1, 0, READY, 1, 8]]),
        // one of the two is a liar's, a desk's, of no node, or spells no vote
        8 => (true, &[[0, 1, READY, 0, 7], [3, 1, READY, 0, 8]]),
        9 => (true, &[[0, 4, READY, 0, 7], [1, 4, READY, 0, 8]]),
        10 => (true, &[[0, 1, READY, 0, 7], [4, 1, READY, 0, 8]]),
        11 => (true, &[[0, 1, READY, 32, 7], [1, 1, READY, 32, 8]]),
        12 => (true, &[[0, 1, READY, 0, 7], [1, 1, 0x13, 0, 8]]),
        // one node names two, and the third differs
        13 => (false, &[[0, 1, READY, 0, 7], [0, 1, READY, 0, 8]]),
        14 => (
            false,
            &[
                [0, 1, READY, 0, 7],
                [1, 1, READY, 0, 7],
                [2, 1, READY, 0, 8],
            ],
        ),
        _ => delivering(case),
    }
}

// Likewise, with deliveries.
fn delivering(case: u8) -> (bool, Rows) {
    match case {
        // two values in the lane of the liar, one of them the beginning of the other; a root beside a value
        15 => (true, &[[0, 3, DELIVERED, 0, 7], [1, 3, DELIVERED, 0, 7]]),
        16 => (false, &[[0, 3, DELIVERED, 0, 7], [1, 3, DELIVERED, 0, 8]]),
        17 => (false, &[[0, 3, DELIVERED, 0, 0], [1, 3, DELIVERED, 0, 1]]),
        18 => (true, &[[0, 3, READY, 0, 7], [0, 3, DELIVERED, 0, 8]]),
        // in the lane of a correct node: proposed by nobody, before and after
        19 => (false, &[[0, 1, DELIVERED, 0, 7]]),
        20 => (true, &[[1, 4, PROPOSE, 0, 7], [0, 1, DELIVERED, 0, 7]]),
        21 => (true, &[[0, 1, DELIVERED, 0, 7], [1, 4, PROPOSE, 0, 7]]),
        // another value, another epoch, another desk, a lane
        22 => (false, &[[1, 4, PROPOSE, 0, 8], [0, 1, DELIVERED, 0, 7]]),
        23 => (false, &[[1, 4, PROPOSE, 1, 7], [0, 1, DELIVERED, 0, 7]]),
        24 => (false, &[[2, 4, PROPOSE, 0, 7], [0, 1, DELIVERED, 0, 7]]),
        25 => (false, &[[1, 1, PROPOSE, 0, 7], [0, 1, DELIVERED, 0, 7]]),
        // proposed with another, and proposed but two were delivered
        26 => (
            true,
            &[
                [1, 4, PROPOSE, 0, 8],
                [1, 4, PROPOSE, 0, 7],
                [0, 1, DELIVERED, 0, 7],
            ],
        ),
        _ => (
            false,
            &[
                [1, 4, PROPOSE, 0, 7],
                [0, 1, DELIVERED, 0, 7],
                [2, 1, DELIVERED, 0, 8],
            ],
        ),
    }
}

// The bytes of a vote.
fn bytes_of(alloc: Global, kind: u8, epoch: u8, byte: u8) -> Result<Bytes, AllocError> {
    let mut bytes = Vec::new(alloc);
    bytes.push(kind)?;
    bytes.push(epoch)?;
    let mut count = 32;
    if kind != READY {
        for length in [0, 0, 0, byte] {
            bytes.push(length)?;
        }
        count = byte;
    }
    for _ in 0..count {
        bytes.push(byte)?;
    }
    Bytes::from_vec(bytes)
}

// The report of a run with this history.
fn report_of(alloc: Global, config: Config, rows: Rows) -> Result<Report, AllocError> {
    let mut report = Report::empty(alloc);
    report.config = config;
    for &[from, actor, kind, epoch, byte] in rows {
        report.history.push(Post {
            from,
            actor,
            to: To::Home,
            bytes: PostBytes::plain(bytes_of(alloc, kind, epoch, byte)?),
        })?;
    }
    Ok(report)
}

#[test]
fn histories(rt: HostRuntime) -> Result<(), Fail> {
    let mut liars = NodeSet::new();
    liars.add(3);
    let config = Config::new(4, 1, 32, 8, 16, 7, 1, liars).ok_or("no config")?;
    for case in 0..CASES {
        let (wanted, rows) = agreeing(case);
        let report = report_of(rt.alloc(), config, rows)?;
        assert!(rt; delivered_agree(&report) == wanted, "case {case}");
    }
    Ok(())
}
