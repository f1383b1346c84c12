//! What no clause says: that calls find memory and succeed, and that the deals are those that `tools/oracles/run dealt_coins`
//! makes.

ghost use Rattle.std.specs.Prelude.{◌≡◌, ◌≤◌, length, IfOk};
ghost use Rattle.coin_deal.specs.Sharing.{AreOfDistinctNodes};

use coin_deal::{DealtShare, NodeShare, deal, leaf_of, others_fit};
use hb_base::{Config, NodeSet};
use merkle_branch::is_branch;
use std::alloc::{AllocError, Global};
use std::process::Abort;
use std::test::Fail;

/// What the oracle `dealt_coins` gives for a coin.
struct Row {
    seed: u64,
    n: u8,
    f: u8,
    epochs: u8,
    rounds: u8,

    // The epoch, the lane and the round of the coin.
    e: u8,
    j: u8,
    r: u8,

    coin: bool,
    shares: &'static [u8],

    // Some of the salts, each with its node.
    salts: &'static [(u8, &'static [u8; 16])],
    root: &'static [u8; 32],
}

static ROWS: [Row; 7] = [
    Row {
        seed: 0,
        n: 4,
        f: 1,
        epochs: 1,
        rounds: 1,
        e: 0,
        j: 0,
        r: 0,
        coin: false,
        shares: b"\xd6\x2b\x8b\xcc",
        salts: &[
            (
                0,
                b"\x40\x5d\x6a\xe5\x53\x86\xbd\x28\xbd\xd2\x19\xb8\xa0\x8d\xed\x1a",
            ),
            (
                1,
                b"\xa8\x36\xef\xcc\x8b\x77\x0d\xc7\xda\x41\x59\x7c\x51\x57\x48\x8d",
            ),
            (
                3,
                b"\xc3\x87\xb6\x69\xb2\xee\x65\x86\x9f\x07\xe7\xbe\x55\x51\x38\x7a",
            ),
        ],
        root: b"\x44\xa6\x1b\xc7\xbb\x8a\xe2\x06\x57\xcd\xb6\xf9\xc9\x0a\x5c\x80\xb8\xf5\x1d\x10\xa6\x89\x9f\xfe\x23\x73\x77\xd0\xe0\x10\x90\xe0",
    },
    Row {
        seed: 0,
        n: 4,
        f: 1,
        epochs: 2,
        rounds: 3,
        e: 1,
        j: 2,
        r: 2,
        coin: true,
        shares: b"\xff\x35\x73\xbc",
        salts: &[(
            3,
            b"\x03\xdf\xff\x65\x23\xa5\xe1\xb4\x28\x5d\x54\xc4\x76\x60\xed\xa1",
        )],
        root: b"\x98\x8c\xdb\xb6\x84\xde\x66\x0e\xa7\xed\x4d\x3c\x4d\x90\x2d\x21\x69\x73\xf5\x0c\x94\x22\xb8\x14\x0a\x15\xaf\xcf\xf6\x00\x8d\x75",
    },
    Row {
        seed: 1,
        n: 1,
        f: 0,
        epochs: 2,
        rounds: 2,
        e: 1,
        j: 0,
        r: 1,
        coin: true,
        shares: b"\x95",
        salts: &[(
            0,
            b"\x19\x0a\xb4\x60\xdf\x0e\x37\xc1\x29\x89\x88\xb4\x5f\x12\x47\x63",
        )],
        root: b"\x14\xeb\x13\x0d\xf7\x7c\x51\x68\x0b\x86\xd8\x3c\x79\xc5\xd1\x51\x33\x15\x08\x42\x9a\xc7\x5b\x2d\x03\x1b\x9a\xd3\x2e\x90\xa3\x6b",
    },
    Row {
        seed: 1,
        n: 7,
        f: 2,
        epochs: 2,
        rounds: 2,
        e: 1,
        j: 6,
        r: 1,
        coin: true,
        shares: b"\xe6\xa0\x93\x73\x40\x06\x35",
        salts: &[(
            6,
            b"\x6c\x96\xa4\xb5\x8e\x0c\xfa\xd6\x46\x37\x60\x78\x79\x87\xa3\x9d",
        )],
        root: b"\x4a\x36\x1d\xc5\x67\xed\x95\x31\x50\x91\x2a\x4c\xb9\x62\x84\x6a\xea\x8d\x4e\x09\xb2\xec\xd5\x81\xcc\x02\xfc\x5d\xfd\x14\x10\xdd",
    },
    Row {
        seed: 1,
        n: 10,
        f: 3,
        epochs: 1,
        rounds: 2,
        e: 0,
        j: 9,
        r: 0,
        coin: true,
        shares: b"\x70\x9f\x25\xc8\x33\x5e\xbe\x8b\x33\x2f",
        salts: &[(
            9,
            b"\x81\xdf\xb9\x4f\x49\x91\x9f\x78\x79\xc5\xd8\x93\xce\x30\x84\xe4",
        )],
        root: b"\x54\xb1\x88\x80\x2f\x47\xb9\xd9\x69\xca\x15\xb1\xef\xba\x6f\xc9\x99\xf4\x06\x66\x64\x55\x94\x03\xe2\x1e\x65\x57\xa9\x67\xfb\x62",
    },
    Row {
        seed: 0xffffffffffffffff,
        n: 13,
        f: 4,
        epochs: 2,
        rounds: 2,
        e: 1,
        j: 12,
        r: 1,
        coin: false,
        shares: b"\x37\x18\x0a\xfe\x32\xbc\xe3\xc7\x19\x3b\x76\xbc\x2f",
        salts: &[(
            12,
            b"\x0e\x44\xb9\x5d\xe9\x2e\x7c\x44\x72\xf1\x8f\x60\x85\x6f\x97\xd9",
        )],
        root: b"\x09\x35\x27\x62\xab\xfb\xc9\xc5\x8d\xa5\xc5\x53\x6e\x42\xc2\x1a\xd4\x01\x7c\x91\x8e\x64\x39\x4e\xb9\xb5\xde\x96\xe5\x47\x64\x8c",
    },
    Row {
        seed: 0xffffffffffffffff,
        n: 16,
        f: 5,
        epochs: 2,
        rounds: 1,
        e: 1,
        j: 15,
        r: 0,
        coin: false,
        shares: b"\x0c\x6d\x30\x62\xa6\x26\x2d\xb7\x86\x29\xd7\x77\x10\x5e\xf6\x9d",
        salts: &[(
            15,
            b"\x90\xda\x0d\x50\x33\x4a\xb3\x38\x2c\xab\x94\x59\x3e\x16\xf2\x64",
        )],
        root: b"\x8c\xbb\xfa\x37\x2e\x43\x92\xb2\xe5\xcd\x41\xc3\x1c\x46\x6f\x44\xb8\x5d\x91\x8c\xf9\x0c\x94\x30\xfe\x8c\x94\xdd\xa2\xda\x05\x01",
    },
];

/// The coins of all rows. That of the first, whose words are those of the zero key, has the coefficients 76 and A0.
#[test]
fn rows(rt: HostRuntime) -> Result<(), Fail> {
    for row in &ROWS {
        compare(&rt, rt.alloc(), row)?;
    }
    Ok(())
}

fn compare(rt: &impl Abort, alloc: Global, row: &Row) -> Result<(), Fail> {
    let Row { n, f, e, j, r, .. } = *row;
    let liars = NodeSet::new();
    let config = Config::new(n, f, row.epochs, row.rounds, 1, row.seed, 1, liars).expect(
        rt, "a config",
    );
    assert!(rt; e < config.epochs() && j < config.n() && r < config.rounds());
    let run = deal(alloc, &config)?;
    let (root, coin) = (run.root_of(e, j, r), run.coin_of(e, j, r));
    assert!(rt; root == *row.root && coin == row.coin && row.shares.len() == config.n() as usize);
    for m in 0..config.n() {
        let dealt = run.dealt_to(e, j, r, m);
        compare_share(rt, row, m, &dealt);
    }
    Ok(())
}

// The share of node m, which leads to the root.
fn compare_share(rt: &impl Abort, row: &Row, m: u8, dealt: &DealtShare) {
    let share = row.shares.get(m as usize).copied();
    assert!(rt; m < row.n && row.n <= 16 && share == Some(dealt.share));
    let leaf = leaf_of(dealt.share, &dealt.salt);
    assert!(rt; is_branch(row.root, row.n, m, &leaf, &dealt.branch));
    for (node, salt) in row.salts {
        assert!(rt; *node != m || dealt.salt == **salt);
    }
}

/// Shares of the nodes 0, 3, 6 .., a secret, and the coefficients that the oracle `dealt_coins` gives.
const FITS: [(&[u8], u8, &[u8]); 9] = [
    (&[0xB5], 0x35, &[0x35, 0x80]),
    (&[0xD6], 0x76, &[0x76, 0xA0]),
    (&[], 0xFF, &[0xFF]),
    (&[0x11], 0, &[0, 0x11]),
    (&[0x11, 0xF0], 0xFF, &[0xFF, 0x11, 0xFF]),
    (&[0x11, 0xF0, 7], 0, &[0, 0x5D, 0x1A, 0x56]),
    (
        &[0x11, 0xF0, 7, 0x9C],
        0xFF,
        &[0xFF, 0x37, 0xBC, 0xD3, 0xB6],
    ),
    (
        &[0x11, 0xF0, 7, 0x9C, 0x55],
        0,
        &[0, 0x32, 0x6E, 0x3A, 0xF9, 0x8E],
    ),
    (
        &[0x11, 0xF0, 7, 0x9C, 0x55],
        0xFF,
        &[0xFF, 0xE7, 0x73, 0x31, 0xCA, 0x81],
    ),
];

#[test]
fn others(rt: HostRuntime) -> Result<(), Fail> {
    for &(shares, secret, coefficients) in &FITS {
        assert!(rt; shares.len() <= 5);
        let known = every_third(rt.alloc(), shares)?;
        let others = others_fit(rt.alloc(), shares.len() as u8, &known, secret)?;
        assert!(rt; others.as_slice() == coefficients);
    }
    Ok(())
}

fn every_third(alloc: Global, shares: &[u8]) -> Result<Vec<NodeShare>, AllocError>
    requires { length shares.now ≤ 5 }
    ensures count { IfOk result (λ known. length known.items ≡ length shares.now) }
    ensures distinct { IfOk result (λ known. AreOfDistinctNodes known.items) }
{
    let mut known = Vec::with_capacity(alloc, shares.len())?;
    for i in 0..shares.len() {
        known.push(NodeShare {
            node: 3 * i as u8,
            share: shares[i],
        })?;
    }
    Ok(known)
}
