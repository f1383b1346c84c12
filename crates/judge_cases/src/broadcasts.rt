//! What no clause says: that calls find memory, and what the lane of a run of one node may cast, row by row. There each count
//! asks for one node, and the one shard is the frame of the value: its length in 4 bytes, and the value. Votes are read of their
//! bytes.
ghost use Rattle.std.specs.Prelude.{◌≡◌, ◌<◌, ◌≤◌, true, length, IfOk};
ghost use Rattle.hb_base.specs.Limits.{most_nodes};
ghost use Rattle.hb_rules.specs.History.{HasSpelling};
ghost use Rattle.hb_rules.specs.Terms.{AreHeardSpelled};
ghost use Rattle.rbc_judge.specs.Checked.{is_checked, AreChecked};

use crate::votes::vote_of;
use hb_base::{Bytes, Config, NodeSet};
use hb_rules::Heard;
use hb_wire::Vote;
use merkle_branch::is_branch;
use rbc_core::tree_over;
use rbc_judge::{Known, Lane, may_broadcast};
use std::alloc::Global;
use std::test::Fail;

// Votes are words: a kind, an epoch, and a value of two letters. P is the proposal of the value, V the Val with its shard for
// node 0, E the Echo of its shard, R the Ready for its root, and D its delivery. Behind a Val or an Echo may stand a second
// value, under whose root the shard of the first is shown.
//
// Whether the lane may cast a vote where it has cast this and heard these of node 0.
type Row = (&'static str, &'static str, &'static str, bool);

const ROWS: [Row; 17] = [
    // the shard of what the desk proposed for the epoch, once, and no other
    ("", "P0hi", "V0hi", true),
    ("", "", "V0hi", false),
    ("V0hi", "P0hi", "V0hi", false),
    ("", "P0hi", "V0ho", false),
    ("", "P0hi", "V1hi", false),
    // the shard that the sender showed, once
    ("", "V0hi", "E0hi", true),
    ("", "V0hi", "E0ho", false),
    ("E0hi", "V0hi", "E0hi", false),
    ("", "V0hiho", "E0hiho", false),
    // an Echo of all nodes, or a Ready of one that is no liar
    ("", "E0hi", "R0hi", true),
    ("", "E0hi", "R0ho", false),
    ("", "", "R0hi", false),
    ("", "R0hi", "R0hi", true),
    // a value is delivered once a node is ready for its root and its shard is there
    ("", "E0hi R0hi", "D0hi", true),
    ("", "E0hi R0hi", "D0ho", false),
    ("", "E0hi R0hi", "D1hi", false),
    ("D0hi", "E0hi R0hi", "D0hi", false),
];

// One node, and two epochs.
fn one_node() -> Result<Config, Fail> {
    let config = Config::new(1, 0, 2, 1, 1, 5, 1, NodeSet::new()).ok_or("no config")?;
    Ok(config)
}

// The frame of a value of two letters: the one shard of it.
fn frame_of(value: [u8; 2]) -> [u8; 6] {
    let [first, second] = value;
    [0, 0, 0, 2, first, second]
}

// The root over the one shard of a value.
fn root_of(alloc: Global, value: [u8; 2]) -> Result<[u8; 32], Fail> {
    let shards = [Bytes::copy(alloc, &frame_of(value))?];
    Ok(tree_over(alloc, &shards)?.root())
}

// Adds a root and, behind its length, the shard of a value.
fn put_shown(
    alloc: Global,
    bytes: &mut Vec<u8>,
    value: [u8; 2],
    under: [u8; 2],
) -> Result<(), Fail> {
    bytes.extend_from_slice(&root_of(alloc, under)?)?;
    bytes.extend_from_slice(&[0, 0, 0, 6])?;
    bytes.extend_from_slice(&frame_of(value))?;
    Ok(())
}

// The bytes of a word.
fn bytes_of(alloc: Global, word: &str) -> Result<Vec<u8>, Fail> {
    let (kind, epoch, value, under) = match word.as_bytes() {
        &[kind, epoch, a, b] => (kind, epoch, [a, b], [a, b]),
        &[kind, epoch, a, b, c, d] => (kind, epoch, [a, b], [c, d]),
        _ => return Err("no word".into()),
    };
    let epoch = epoch.saturating_sub(b'0');
    let mut bytes = Vec::new(alloc);
    match kind {
        b'V' => {
            bytes.extend_from_slice(&[1, epoch, 0])?;
            put_shown(alloc, &mut bytes, value, under)?;
        }
        b'E' => {
            bytes.extend_from_slice(&[2, epoch])?;
            put_shown(alloc, &mut bytes, value, under)?;
        }
        b'R' => {
            bytes.extend_from_slice(&[3, epoch])?;
            bytes.extend_from_slice(&root_of(alloc, value)?)?;
        }
        _ => {
            bytes.extend_from_slice(&[if kind == b'D' { 4 } else { 16 }, epoch])?;
            bytes.extend_from_slice(&frame_of(value))?;
        }
    }
    Ok(bytes)
}

// A vote of node 0 that is heard. If it is an Echo, its branch is checked.
fn said(alloc: Global, config: &Config, bytes: &[u8]) -> Result<Heard, Fail>
    ensures spelled { IfOk result (λ said. HasSpelling config.now said.vote) }
    ensures checked { IfOk result (λ said. is_checked config.now.n said.from said.vote ≡ true) }
{
    let n = config.n();
    prove!(n >= 1);
    let vote = vote_of(alloc, config, bytes)?;
    if let Vote::Echo {
        root,
        shard,
        branch,
        ..
    } = &vote
    {
        if !is_branch(root, n, 0, shard.as_slice(), branch) {
            return Err("a wrong branch".into());
        }
    }
    Ok(Heard::new(0, vote))
}

// Votes that are heard, told by words.
fn heard_of(alloc: Global, config: &Config, words: &str) -> Result<Vec<Heard>, Fail>
    ensures spelled { IfOk result (λ heard. AreHeardSpelled config.now heard.items) }
    ensures checked { IfOk result (λ heard. AreChecked config.now.n heard.items) }
{
    let mut heard = Vec::new(alloc);
    for word in words.split_ascii_whitespace() {
        let bytes = bytes_of(alloc, word)?;
        let one = said(alloc, config, bytes.as_slice())?;
        heard.push(one)?;
    }
    Ok(heard)
}

// Whether lane 0 may cast a vote. What is known from the first answer changes no second one.
fn may(
    alloc: Global,
    config: &Config,
    own: &[Vote],
    heard: &[Heard],
    vote: &Vote,
) -> Result<bool, Fail>
    requires spelled { AreHeardSpelled config.now heard.now }
    requires checked { AreChecked config.now.n heard.now }
    requires vote { HasSpelling config.now vote.now }
{
    let n = config.n();
    prove!(0 < n);
    let lane = Lane {
        config: *config,
        node: 0,
        lane: 0,
    };
    let mut known = Known::new(alloc);
    let first = may_broadcast(alloc, &mut known, &lane, own, heard, vote)?;
    let again = may_broadcast(alloc, &mut known, &lane, own, heard, vote)?;
    if first != again {
        return Err("another answer where all is known".into());
    }
    Ok(first)
}

// The vote that a word tells.
fn told(alloc: Global, config: &Config, word: &str) -> Result<Vote, Fail>
    ensures { IfOk result (λ vote. HasSpelling config.now vote) }
{
    let bytes = bytes_of(alloc, word)?;
    vote_of(alloc, config, bytes.as_slice())
}

// What the lane has cast, told by at most one word.
fn cast(alloc: Global, config: &Config, word: &str) -> Result<Vec<Vote>, Fail> {
    let mut own = Vec::new(alloc);
    if !word.is_empty() {
        own.push(told(alloc, config, word)?)?;
    }
    Ok(own)
}

// The answer to a row.
fn answer(alloc: Global, row: &Row) -> Result<bool, Fail> {
    let (own, heard, vote, _) = *row;
    let config = one_node()?;
    let own = cast(alloc, &config, own)?;
    let heard = heard_of(alloc, &config, heard)?;
    let vote = told(alloc, &config, vote)?;
    may(alloc, &config, own.as_slice(), heard.as_slice(), &vote)
}

#[test]
fn rows(rt: HostRuntime) -> Result<(), Fail> {
    for row in &ROWS {
        let (own, heard, vote, wanted) = *row;
        let may = answer(rt.alloc(), row)?;
        assert!(rt; may == wanted, "{own}; {heard}; {vote}");
    }
    Ok(())
}
