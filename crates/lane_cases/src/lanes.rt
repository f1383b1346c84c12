//! What no clause says: that calls find memory, and what whole epochs come to. The texts are of runs of the oracle
//! `tools/oracles/run lanes`, which has the rules and the coins from their definitions.
ghost use Rattle.std.specs.Prelude.{◌≡◌, ◌<◌, true};
ghost use Rattle.rbc_core.specs.Broadcast.{IsShort};

use coin_deal::deal;
use hb_base::{Bytes, Config, NodeSet};
use hb_rules::Due;
use hb_wire::{Spoken, To, Vals, Vote};
use lane_core::LaneCore;
use std::alloc::{AllocError, Global};
use std::sync::Arc;
use std::test::Fail;

// The runs: n, f, epochs, rounds, seed, version, and the lane.
const RUNS: [(u8, u8, u8, u8, u64, u8, u8); 5] = [
    (1, 0, 1, 3, 0, 1, 0),
    (1, 0, 1, 3, 0, 2, 0),
    (4, 1, 1, 32, 0, 1, 0),
    (3, 0, 2, 32, 18_446_744_073_709_551_615, 1, 1),
    (2, 0, 6, 4, 9_554_576_080_000_101_141, 2, 0),
];

// What lanes cast in them: the run, the node, the epoch, and the votes.
const WANTED: [(u8, u8, u8, &str); 16] = [
    (
        0,
        0,
        0,
        "V00O00R00L00E01B01A01P02S08E11B11A11P12S10E21B21A21P22S29D01",
    ),
    (
        1,
        0,
        0,
        "V00O00R00L00E01B01A01C02P02S08E11B11A11C12P12S10E21B21A21C22P22S29D01",
    ),
    (
        2,
        0,
        0,
        "V00V10V20V30O00R00L00E01B01A01P02S04E11B11A11P12S15E21B21A21P22S25E31B31A31P32S39E41D01B41A41P42S42E51B51A51P52S53",
    ),
    (
        2,
        1,
        0,
        "O00R00L00E01B01A01P02S03E11B11A11P12S16E21B21A21P22S20E31B31A31P32S32E41D01B41A41P42S45E51B51A51P52S54",
    ),
    (
        2,
        2,
        0,
        "O00R00L00E01B01A01P02S09E11B11A11P12S13E21B21A21P22S23E31B31A31P32S32E41D01B41A41P42S47E51B51A51P52S52",
    ),
    (
        2,
        3,
        0,
        "O00R00L00E01B01A01P02S04E11B11A11P12S13E21B21A21P22S27E31B31A31P32S31E41D01B41A41P42S42E51B51A51P52S57",
    ),
    (
        3,
        0,
        0,
        "O00R00L00E01B01A01P02S05E11D01B11A11P12S12E21B21A21P22S20E31B31A31P32S33",
    ),
    (
        3,
        1,
        0,
        "V00V10V20O00R00L00E01B01A01P02S05E11D01B11A11P12S12E21B21A21P22S20E31B31A31P32S33",
    ),
    (
        3,
        1,
        1,
        "V00V10V20O00R00L00E01B01A01P02S00E11B11A11P12S15E21D01B21A21P22S22E31B31A31P32S31",
    ),
    (
        3,
        2,
        1,
        "O00R00L00E01B01A01P02S00E11B11A11P12S15E21D01B21A21P22S22E31B31A31P32S31",
    ),
    (
        4,
        0,
        0,
        "V00V10O00R00L00E01B01A01C02P02S06E11B11A11C12P12S19E21D01B21A21C22P22S25",
    ),
    (4, 1, 1, "O00R00L00E01B01A01C02P02S01E11D01B11A11C12P12S19"),
    (
        4,
        0,
        2,
        "V00V10O00R00L00E01B01A01C02P02S08E11B11A11C12P12S13E21D01B21A21C22P22S22E31B31A31C32P32S35",
    ),
    (
        4,
        1,
        3,
        "O00R00L00E01B01A01C02P02S08E11B11A11C12P12S17E21D01B21A21C22P22S20E31B31A31C32P32S33",
    ),
    (
        4,
        0,
        4,
        "V00V10O00R00L00E01B01A01C02P02S01E11D01B11A11C12P12S10E21B21A21C22P22S23",
    ),
    (
        4,
        1,
        5,
        "O00R00L00E01B01A01C02P02S08E11B11A11C12P12S12E21B21A21C22P22S22E31B31A31C32P32S33D01",
    ),
];

// A vote that a node has cast.
#[derive(Drop)]
struct Sent {
    from: u8,
    vote: Vote,
}

impl Sent {
    fn copy(&self) -> Result<Sent, AllocError> {
        Ok(Sent {
            from: self.from,
            vote: self.vote.clone()?,
        })
    }
}

// A lane at a correct node, and what it has cast.
#[derive(Drop)]
struct Node {
    lane: LaneCore,
    n: u8,
    node: u8,
    due: Due,
    cast: Vec<Vote>,
    ghost nodes: { n ≡ lane.config.n },
}

impl Node {
    fn new(alloc: Global, config: &Config, node: u8, lane: u8) -> Result<Node, Fail> {
        let n = config.n();
        if node >= n || lane >= n {
            return Err("no lane".into());
        }
        let deal = Arc::new(alloc, deal(alloc, config)?)?;
        Ok(Node {
            lane: LaneCore::new(alloc, config, node, lane, deal),
            n,
            node,
            due: Due::new(alloc),
            cast: Vec::new(alloc),
        })
    }

    // Hears a vote, if it comes to the lane, and casts what is due.
    fn hear(&mut self, alloc: Global, sent: &Sent, posts: &mut Vec<Sent>) -> Result<(), Fail> {
        if sent.from >= self.n || !is_short(&sent.vote) {
            return Err("no vote".into());
        }
        let vote = Spoken::plain(sent.vote.clone()?);
        self.lane.hear_vote(alloc, sent.from, &vote, &mut self.due)?;
        for vote in self.due.votes() {
            self.cast.push(vote.clone()?)?;
            posts.push(Sent {
                from: self.node,
                vote: vote.clone()?,
            })?;
        }
        self.due.clear();
        Ok(())
    }

    // What it has cast in an epoch.
    fn text(&self, alloc: Global, epoch: u8) -> Result<String, Fail> {
        let mut text = String::new(alloc);
        for vote in &self.cast {
            if vote.epoch() == epoch {
                write_vote(&mut text, vote)?;
            }
        }
        Ok(text)
    }
}

// Whether a value, or a shard, is no longer than those of votes.
fn is_short(vote: &Vote) -> bool
    ensures { result ≡ true → IsShort vote.now }
{
    match vote {
        Vote::Propose { value, .. } => value.as_slice().len() <= 16_514,
        Vote::Echo { shard, .. } => shard.as_slice().len() <= 16_520,
        _ => true,
    }
}

// Whether a vote comes to the lanes of a node.
fn reaches(vote: &Vote, from: u8, node: u8) -> bool {
    match (vote, vote.to()) {
        (Vote::Propose { .. }, _) => from == node,
        (_, To::All) => true,
        (_, To::Node(target)) => target == node,
        _ => false,
    }
}

// A vote in three letters: its kind, its round or target, and its bit, set or share.
fn write_vote(text: &mut String, vote: &Vote) -> Result<(), AllocError> {
    match vote {
        Vote::Val { target, .. } => write_letters(text, 'V', *target, 0),
        Vote::Echo { .. } => write_letters(text, 'O', 0, 0),
        Vote::Ready { .. } => write_letters(text, 'R', 0, 0),
        Vote::Delivered { .. } => write_letters(text, 'L', 0, 0),
        Vote::Est { round, bit, .. } => write_letters(text, 'E', *round, *bit as u8),
        Vote::Bval { round, bit, .. } => write_letters(text, 'B', *round, *bit as u8),
        Vote::Aux { round, bit, .. } => write_letters(text, 'A', *round, *bit as u8),
        Vote::Conf { round, vals, .. } => write_letters(text, 'C', *round, number_of(*vals)),
        Vote::Pick { round, vals, .. } => write_letters(text, 'P', *round, number_of(*vals)),
        Vote::Coin { round, share, .. } => write_letters(text, 'S', *round, *share),
        Vote::Decided { bit, .. } => write_letters(text, 'D', 0, *bit as u8),
        _ => write_letters(text, '?', 0, 0),
    }
}

fn write_letters(text: &mut String, kind: char, round: u8, value: u8) -> Result<(), AllocError> {
    text.push(kind)?;
    text.push(digit(round))?;
    text.push(digit(value))?;
    Ok(())
}

// The last digit of a number.
fn digit(number: u8) -> char {
    (b'0' + number % 10) as char
}

fn number_of(vals: Vals) -> u8 {
    match vals {
        Vals::Zero => 1,
        Vals::One => 2,
        Vals::Both => 3,
    }
}

// The lanes of a number at all nodes.
fn nodes_of(alloc: Global, config: &Config, lane: u8) -> Result<Vec<Node>, Fail> {
    let mut nodes = Vec::new(alloc);
    for node in 0..config.n() {
        nodes.push(Node::new(alloc, config, node, lane)?)?;
    }
    Ok(nodes)
}

// What the sender proposes, in the last epoch first.
fn proposals(alloc: Global, epochs: u8, sender: u8) -> Result<Vec<Sent>, AllocError> {
    let mut posts = Vec::new(alloc);
    for epoch in 0..epochs {
        posts.push(Sent {
            from: sender,
            vote: Vote::Propose {
                epoch: epochs - 1 - epoch,
                value: Bytes::copy(alloc, b"\x00\x00")?,
            },
        })?;
    }
    Ok(posts)
}

// Lets all nodes hear a vote that comes to them.
fn hear_all(
    alloc: Global,
    nodes: &mut [Node],
    sent: &Sent,
    posts: &mut Vec<Sent>,
) -> Result<(), Fail> {
    for node in nodes {
        if reaches(&sent.vote, sent.from, node.node) {
            node.hear(alloc, sent, posts)?;
        }
    }
    Ok(())
}

// The lanes of a number at all nodes, after all votes were heard in their order.
fn run(alloc: Global, run: (u8, u8, u8, u8, u64, u8, u8)) -> Result<Vec<Node>, Fail> {
    let (n, f, epochs, rounds, seed, version, lane) = run;
    let config = Config::new(n, f, epochs, rounds, 1, seed, version, NodeSet::new()).ok_or(
        "no config",
    )?;
    let mut nodes = nodes_of(alloc, &config, lane)?;
    let mut posts = proposals(alloc, epochs, lane)?;
    for k in 0..4_000usize {
        match posts.get(k) {
            Some(sent) => {
                let sent = sent.copy()?;
                hear_all(alloc, &mut nodes, &sent, &mut posts)?;
            }
            None => break,
        }
    }
    Ok(nodes)
}

// Whether one of these nodes has cast this in an epoch.
fn has_cast(alloc: Global, nodes: &[Node], at: u8, epoch: u8, text: &str) -> Result<bool, Fail> {
    let node = nodes.get(at as usize).ok_or("no node")?;
    Ok(node.text(alloc, epoch)?.as_str() == text)
}

#[test]
fn what_lanes_cast(rt: HostRuntime) -> Result<(), Fail> {
    let alloc = rt.alloc();
    for (k, numbers) in RUNS.iter().enumerate() {
        let nodes = run(alloc, *numbers)?;
        for &(of, at, epoch, text) in &WANTED {
            if of as usize == k {
                assert!(rt;
                    has_cast(alloc, &nodes, at, epoch, text)?,
                    "run {of}, node {at}, epoch {epoch}"
                );
            }
        }
    }
    Ok(())
}
