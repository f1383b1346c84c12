//! Whether the definitions of run_status say what is meant: reports whose statuses were found by hand.

use disk_model::{MemoryDisk, Note, Plan, Power};
use hb_base::{Bytes, Config, NodeSet};
use hb_rules::{End, Fate, Report};
use hb_wire::{Post, PostBytes, To};
use run_status::status;
use std::alloc::{AllocError, Global};
use std::process::Abort;
use std::test::Fail;

// A run of so many nodes, epochs and rounds, of which these lie, its ends and its history, and the status that is wanted.
//
// Numbers from 10 on are letters, as a for 10. The actors of nodes that do not lie are at work, and those of liars have no end;
// but for each word of the ends the actor of the node, or all for a star, ended so: M for want of memory, J for a failed journal,
// F at a full book, R at work, or with no end for a dash. A post is a node, an actor, its kind, and digits: C closes an epoch, P
// picks in an epoch and a round, D decides in an epoch, and X is the vote of C with one byte more, which spells nothing.
#[derive(Clone, Copy)]
struct Case {
    run: (u8, u8, u8),
    liars: &'static str,
    ends: &'static str,
    history: &'static str,
    status: u8,
}

// Statuses, ends and histories of runs of four nodes, of which node 3 lies, with two epochs of three rounds. Actor 4 of a node is
// its desk.
const CASES: [(u8, &str, &str); 40] = [
    // nothing was posted
    (4, "", ""),
    // each closed the last epoch
    (0, "", "04C1 14C1 24C1"),
    // posted again, and with an earlier one
    (0, "", "04C0 14C1 04C1 24C1 04C1"),
    // one did not
    (4, "", "04C1 24C1"),
    // one closed only the epoch before
    (4, "", "04C1 14C1 24C0"),
    // one in bytes that spell no vote
    (4, "", "04C1 14C1 24X1"),
    // a lane closed for one
    (4, "", "04C1 14C1 23C1"),
    // the liar closed for one
    (4, "", "04C1 14C1 34C1"),
    // one that does not run did not
    (0, "20J", "04C1 14C1"),
    // one whose desk has no end did not
    (0, "24-", "04C1 14C1"),
    // none runs
    (4, "*0F", "04C1 14C1 24C1"),
    // no end at all
    (4, "**-", "04C1 14C1 24C1"),
    // no end at all, and a lane that picked in the last round
    (4, "**-", "01P02"),
    // a lane found no memory
    (9, "01M", "04C1 14C1 24C1"),
    // a desk found none
    (9, "24M", "01P02"),
    // the liar found none
    (0, "30M", "04C1 14C1 24C1"),
    // the liar found none, and nothing was posted
    (4, "3*M", ""),
    // other ends than for want of memory
    (4, "0*J 1*F", ""),
    // a lane picked in the last round
    (5, "", "01P02"),
    // of the last epoch
    (5, "", "20P12"),
    // of an epoch that the run does not have
    (5, "", "01P92"),
    // in the round before
    (4, "", "01P01"),
    // in a round that the run does not have
    (4, "", "01P03"),
    // and decided
    (4, "", "01P02 01D0"),
    // having decided
    (4, "", "01D0 01P02"),
    // and decided in another epoch
    (5, "", "01P02 01D1"),
    // in two epochs, and decided in one
    (5, "", "01P02 01P12 01D0"),
    // another lane decided
    (5, "", "01P02 02D0"),
    // the lane of another node decided
    (5, "", "01P02 11D0"),
    // a desk picked
    (4, "", "04P02"),
    // an actor beyond the desk picked
    (4, "", "05P02"),
    // the liar picked
    (4, "", "31P02"),
    // and has an end
    (4, "3*R", "31P02"),
    // a node picked that is not of the run
    (4, "", "41P02"),
    // the lane has ended
    (4, "01J", "01P02"),
    // at a full book
    (4, "01F", "01P02"),
    // or has no end
    (4, "01-", "01P02"),
    // another lane has ended
    (5, "00J", "01P02"),
    // all is closed besides
    (0, "", "01P02 04C1 14C1 24C1"),
    // all but one closed
    (5, "", "01P02 04C1 14C1"),
];

// Runs of the fewest and of the most nodes.
const EXTREMES: [Case; 12] = [
    // one node: nothing was posted
    Case {
        run: (1, 1, 1),
        liars: "",
        ends: "",
        history: "",
        status: 4,
    },
    // its desk closed
    Case {
        run: (1, 1, 1),
        liars: "",
        ends: "",
        history: "01C0",
        status: 0,
    },
    // its lane picked in the only round
    Case {
        run: (1, 1, 1),
        liars: "",
        ends: "",
        history: "00P00",
        status: 5,
    },
    // and decided
    Case {
        run: (1, 1, 1),
        liars: "",
        ends: "",
        history: "00P00 00D0",
        status: 4,
    },
    // it found no memory
    Case {
        run: (1, 1, 1),
        liars: "",
        ends: "00M",
        history: "01C0",
        status: 9,
    },
    // sixteen nodes: each closed the last epoch
    Case {
        run: (16, 32, 32),
        liars: "",
        ends: "",
        history: "0gCv 1gCv 2gCv 3gCv 4gCv 5gCv 6gCv 7gCv 8gCv 9gCv agCv bgCv cgCv dgCv egCv fgCv",
        status: 0,
    },
    // the last one did not
    Case {
        run: (16, 32, 32),
        liars: "",
        ends: "",
        history: "0gCv 1gCv 2gCv 3gCv 4gCv 5gCv 6gCv 7gCv 8gCv 9gCv agCv bgCv cgCv dgCv egCv",
        status: 4,
    },
    // five lie, and the others closed
    Case {
        run: (16, 32, 32),
        liars: "abcdf",
        ends: "",
        history: "0gCv 1gCv 2gCv 3gCv 4gCv 5gCv 6gCv 7gCv 8gCv 9gCv egCv",
        status: 0,
    },
    // the last lane of the last node has spent its rounds in the last epoch
    Case {
        run: (16, 32, 32),
        liars: "",
        ends: "",
        history: "ffPvv",
        status: 5,
    },
    // and so where others decided
    Case {
        run: (16, 32, 32),
        liars: "",
        ends: "",
        history: "ffPvv fePvv feDv efDv ffDu",
        status: 5,
    },
    // each that picked has decided
    Case {
        run: (16, 32, 32),
        liars: "",
        ends: "",
        history: "ffPvv ffDv 00Pvv 00Dv 0fP0v 0fD0 f0P0v f0D0",
        status: 4,
    },
    // the last node lies
    Case {
        run: (16, 32, 32),
        liars: "f",
        ends: "",
        history: "ffPvv fgPvv",
        status: 4,
    },
];

// The number that a digit or a letter tells.
fn number_of(byte: u8) -> u8 {
    if byte >= b'a' {
        byte.saturating_sub(b'a').saturating_add(10)
    } else {
        byte.saturating_sub(b'0')
    }
}

// The set that digits tell.
fn set_of(digits: &str) -> NodeSet {
    let mut nodes = NodeSet::new();
    for byte in digits.as_bytes() {
        let node = number_of(*byte);
        if node < 16 {
            nodes.add(node);
        }
    }
    nodes
}

// The post that a word tells.
fn post_of(alloc: Global, word: &str) -> Result<Post, Fail> {
    let (node, actor, kind, epoch, round) = match word.as_bytes() {
        [node, actor, kind, epoch] => (*node, *actor, *kind, number_of(*epoch), 0),
        [node, actor, kind, epoch, round] => {
            (*node, *actor, *kind, number_of(*epoch), number_of(*round))
        }
        _ => return Err("no post".into()),
    };
    let bytes = match kind {
        b'C' => Bytes::copy(alloc, &[0x12, epoch, 0])?,
        b'P' => Bytes::copy(alloc, &[0x08, epoch, round, 1])?,
        b'D' => Bytes::copy(alloc, &[0x0A, epoch, 0])?,
        _ => Bytes::copy(alloc, &[0x12, epoch, 0, 0])?,
    };
    Ok(Post {
        from: number_of(node),
        actor: number_of(actor),
        to: To::Book,
        bytes: PostBytes::plain(bytes),
    })
}

// Whether a digit or a star tells this number.
fn tells(byte: u8, number: u8) -> bool {
    byte == b'*' || number_of(byte) == number
}

// The fate of an actor by the words of the ends, or by what has no word.
fn fate_of(ends: &str, node: u8, actor: u8, otherwise: Option<Fate>) -> Option<Fate> {
    let mut fate = otherwise;
    for word in ends.split(' ') {
        if let [first, second, letter] = word.as_bytes()
            && tells(*first, node)
            && tells(*second, actor)
        {
            fate = match letter {
                b'M' => Some(Fate::Memory),
                b'J' => Some(Fate::Journal),
                b'F' => Some(Fate::Full),
                b'R' => Some(Fate::Running),
                _ => None,
            };
        }
    }
    fate
}

// What a disk notes that was never called.
fn first_note(alloc: Global) -> Note {
    let (stops, faults) = (Vec::new(alloc), Vec::new(alloc));
    MemoryDisk::new(alloc, Plan { stops, faults }).note()
}

// The ends of a run.
fn ends_of(alloc: Global, config: &Config, ends: &str) -> Result<Vec<End>, AllocError> {
    let mut list = Vec::new(alloc);
    for node in 0..config.n() {
        let otherwise = if config.liars().has(node) {
            None
        } else {
            Some(Fate::Running)
        };
        for actor in 0..=config.n() {
            if let Some(fate) = fate_of(ends, node, actor, otherwise) {
                list.push(End {
                    node,
                    actor,
                    fate,
                    got: Vec::new(alloc),
                    note: first_note(alloc),
                })?;
            }
        }
    }
    Ok(list)
}

// The report of a run.
fn report_of(alloc: Global, case: &Case) -> Result<Report, Fail> {
    let (n, epochs, rounds) = case.run;
    let faulty = n.saturating_sub(1) / 3;
    let config = Config::new(n, faulty, epochs, rounds, 1, 7, 1, set_of(case.liars));
    let mut report = Report::empty(alloc);
    report.config = config.ok_or("no config")?;
    report.ends = ends_of(alloc, &report.config, case.ends)?;
    for word in case.history.split(' ') {
        if !word.is_empty() {
            report.history.push(post_of(alloc, word)?)?;
        }
    }
    Ok(report)
}

// Checks the status of a run.
fn check_status(rt: &impl Abort, alloc: Global, case: &Case) -> Result<(), Fail> {
    let report = report_of(alloc, case)?;
    assert!(rt;
        status(&report) == case.status,
        "the ends {}, the history {}",
        case.ends,
        case.history
    );
    Ok(())
}

#[test]
fn statuses(rt: HostRuntime) -> Result<(), Fail> {
    for &(wanted, ends, history) in &CASES {
        let case = Case {
            run: (4, 2, 3),
            liars: "3",
            ends,
            history,
            status: wanted,
        };
        check_status(&rt, rt.alloc(), &case)?;
    }
    Ok(())
}

#[test]
fn extremes(rt: HostRuntime) -> Result<(), Fail> {
    for case in &EXTREMES {
        check_status(&rt, rt.alloc(), case)?;
    }
    Ok(())
}
