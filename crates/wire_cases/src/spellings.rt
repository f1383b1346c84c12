//! One vote of each kind, made by hand, and its bytes.

ghost use Rattle.std.specs.Prelude.{◌≤◌};

use hb_base::Bytes;
use hb_wire::*;
use merkle_branch::Branch;
use std::alloc::{AllocError, Global};
use std::test::*;

// The number of nodes, the first version that has the vote, where it goes, and its bytes.
const SPELLINGS: &str = "\
2 1 Node(1) 010001111111111111111111111111111111111111111111111111111111111111111100000001775a5a5a5a5a5a5a5a5a5a5a5a5a5a5a5a5a5a5a5a5a5a5a5a5a5a5a5a5a5a5a5a
4 1 All 021f2222222222222222222222222222222222222222222222222222222222222222000000036162635a5a5a5a5a5a5a5a5a5a5a5a5a5a5a5a5a5a5a5a5a5a5a5a5a5a5a5a5a5a5a5a5b5b5b5b5b5b5b5b5b5b5b5b5b5b5b5b5b5b5b5b5b5b5b5b5b5b5b5b5b5b5b5b
4 1 All 03013333333333333333333333333333333333333333333333333333333333333333
4 1 Home 0402000000026162
4 1 Book 05030401
4 1 All 06000001
4 1 All 07000301
16 1 Book 081f1f03
1 1 All 090506fe44444444444444444444444444444444
4 1 Home 0a0700
4 2 All 0b000302
4 1 Home 1000000000020000
4 1 Home 1102
4 1 Book 12000100000000020000
2 1 Book 12000200000000000100000001ff
";

// A branch of so many digests, of which each is one byte 32 times.
fn branch(len: u8, first: u8, second: u8) -> Branch {
    Branch {
        len,
        digests: [[first; 32], [second; 32], [0; 32], [0; 32]],
    }
}

fn put_item(alloc: Global, items: &mut Items, node: u8, value: &[u8]) -> Result<(), AllocError> {
    let value = Bytes::copy(alloc, value)?;
    items.push(Item { node, value })
}

// The item of node 0, and that of node 1.
fn two_items(alloc: Global) -> Result<Items, AllocError> {
    let mut items = Items::new(alloc);
    put_item(alloc, &mut items, 0, b"")?;
    put_item(alloc, &mut items, 1, &[0xFF])?;
    Ok(items)
}

fn one_item(alloc: Global) -> Result<Items, AllocError> {
    let mut items = Items::new(alloc);
    put_item(alloc, &mut items, 0, &[0, 0])?;
    Ok(items)
}

// A vote of the broadcast.
fn broadcast(alloc: Global, row: u8) -> Result<Vote, AllocError> {
    Ok(match row {
        0 => Vote::Val {
            epoch: 0,
            target: 1,
            root: [0x11; 32],
            shard: Bytes::copy(alloc, b"w")?,
            branch: branch(1, 0x5A, 0),
        },
        1 => Vote::Echo {
            epoch: 31,
            root: [0x22; 32],
            shard: Bytes::copy(alloc, b"abc")?,
            branch: branch(2, 0x5A, 0x5B),
        },
        2 => Vote::Ready {
            epoch: 1,
            root: [0x33; 32],
        },
        _ => Vote::Delivered {
            epoch: 2,
            value: Bytes::copy(alloc, b"ab")?,
        },
    })
}

// A vote of the binary agreement.
fn agreement(row: u8) -> Vote {
    match row {
        4 => Vote::Est {
            epoch: 3,
            round: 4,
            bit: true,
        },
        5 => Vote::Bval {
            epoch: 0,
            round: 0,
            bit: true,
        },
        6 => Vote::Aux {
            epoch: 0,
            round: 3,
            bit: true,
        },
        7 => Vote::Pick {
            epoch: 31,
            round: 31,
            vals: Vals::Both,
        },
        8 => Vote::Coin {
            epoch: 5,
            round: 6,
            share: 0xFE,
            salt: [0x44; 16],
            branch: branch(0, 0, 0),
        },
        9 => Vote::Decided {
            epoch: 7,
            bit: false,
        },
        _ => Vote::Conf {
            epoch: 0,
            round: 3,
            vals: Vals::One,
        },
    }
}

// A vote of the desk.
fn desk(alloc: Global, row: u8) -> Result<Vote, AllocError> {
    Ok(match row {
        11 => Vote::Propose {
            epoch: 0,
            value: Bytes::copy(alloc, &[0, 0])?,
        },
        12 => Vote::NoMore { epoch: 2 },
        13 => Vote::Closed {
            epoch: 0,
            list: one_item(alloc)?,
        },
        _ => Vote::Closed {
            epoch: 0,
            list: two_items(alloc)?,
        },
    })
}

fn vote_of_row(alloc: Global, row: u8) -> Result<Vote, AllocError> {
    match row {
        0..=3 => broadcast(alloc, row),
        4..=10 => Ok(agreement(row)),
        _ => desk(alloc, row),
    }
}

fn is_read(alloc: Global, n: u8, version: u8, bytes: &[u8], vote: &Vote) -> Result<bool, Fail>
    requires some { 1 ≤ n }
    requires few { n ≤ 16 }
{
    let found = read(alloc, n, version, bytes)?;
    let whole = Bytes::copy(alloc, bytes)?;
    let shared = read_shared(alloc, n, version, &whole)?;
    drop(whole);
    Ok(found == *vote && shared == *vote)
}

fn is_viewed(alloc: Global, n: u8, version: u8, bytes: &[u8], vote: &Vote) -> Result<bool, Fail>
    requires some { 1 ≤ n }
    requires few { n ≤ 16 }
{
    let view = view(n, version, bytes).ok_or("a vote")?;
    Ok(view.to_vote(alloc)? == *vote)
}

fn is_seen(n: u8, version: u8, bytes: &[u8], vote: &Vote) -> bool
    requires some { 1 ≤ n }
    requires few { n ≤ 16 }
{
    match glance(n, version, bytes) {
        None => false,
        Some(glance) => {
            glance.epoch == vote.epoch()
                && [glance.kind].as_slice() == &bytes[..1]
                && glance.rest == &bytes[2..]
        }
    }
}

fn is_written(alloc: Global, n: u8, version: u8, bytes: &[u8]) -> Result<bool, Fail>
    requires some { 1 ≤ n }
    requires few { n ≤ 16 }
{
    let found = read(alloc, n, version, bytes)?;
    let written = write(alloc, n, version, &found)?;
    Ok(written.as_slice() == bytes)
}

fn is_cloned(vote: &Vote) -> Result<bool, Fail> {
    Ok(vote.clone()? == *vote)
}

fn is_sent(alloc: Global, vote: &Vote, to: &str) -> Result<bool, Fail> {
    let address = vote.to();
    Ok(format!(in alloc; "{address:?}")?.as_str() == to)
}

// A row: the number of nodes, the version, and the address behind which the bytes stand.
fn row(line: &str) -> Result<(u8, u8, &str, &str), Fail> {
    let (n, rest) = line.split_once(' ').ok_or("a number")?;
    let (version, rest) = rest.split_once(' ').ok_or("a version")?;
    let (to, text) = rest.split_once(' ').ok_or("an address")?;
    Ok((n.parse::<u8>()?, version.parse::<u8>()?, to, text))
}

// Whether the bytes are this vote's, under a version.
fn is_spelling(alloc: Global, n: u8, version: u8, bytes: &[u8], vote: &Vote) -> Result<bool, Fail>
    requires some { 1 ≤ n }
    requires few { n ≤ 16 }
{
    let read = is_read(alloc, n, version, bytes, vote)?
        && is_viewed(alloc, n, version, bytes, vote)?;
    Ok(read && is_seen(n, version, bytes, vote) && is_written(alloc, n, version, bytes)?)
}

// Whether the bytes are this vote's, from a version on.
fn is_spelling_from(
    alloc: Global,
    n: u8,
    version: u8,
    bytes: &[u8],
    vote: &Vote,
) -> Result<bool, Fail> {
    if n < 1 || n > 16 {
        return Ok(false);
    }
    let first = version == 2 || is_spelling(alloc, n, 1, bytes, vote)?;
    Ok(first && is_spelling(alloc, n, 2, bytes, vote)?)
}

// Whether a vote goes where a row says, and its bytes are those of the row.
fn is_vote_of(alloc: Global, vote: &Vote, line: &str) -> Result<bool, Fail> {
    let (n, version, to, text) = row(line)?;
    let bytes = hex::decode(alloc, text)?;
    Ok(is_sent(alloc, vote, to)? && is_spelling_from(alloc, n, version, &bytes, vote)?)
}

// Whether a row has the vote of its number.
fn is_right(alloc: Global, number: u8, line: &str) -> Result<bool, Fail> {
    let vote = vote_of_row(alloc, number)?;
    Ok(is_cloned(&vote)? && is_vote_of(alloc, &vote, line)?)
}

#[test]
fn spellings(rt: HostRuntime) -> Result<(), Fail> {
    let mut number = 0u8;
    for line in SPELLINGS.lines() {
        assert!(rt; is_right(rt.alloc(), number, line)?, "{line}");
        number = number.saturating_add(1);
    }
    assert!(rt; number == 15);
    Ok(())
}

fn are_equal(alloc: Global, one: u8, other: u8) -> Result<bool, AllocError> {
    let vote = vote_of_row(alloc, one)?;
    Ok(vote_of_row(alloc, other)? == vote)
}

// Votes of different rows differ.
#[test]
fn different(rt: HostRuntime) -> Result<(), Fail> {
    for one in 0..15 {
        for other in 0..15 {
            assert!(rt; are_equal(rt.alloc(), one, other)? == (one == other));
        }
    }
    Ok(())
}
