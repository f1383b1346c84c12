//! What no clause says: that calls find memory, and what whole broadcasts come to. `tools/oracles/run broadcast_roots` works
//! the roots out from the formats; the votes are by the numbers of the rules.
ghost use Rattle.std.specs.Prelude.{◌≡◌, ◌<◌, ◌≤◌, length, IfOk, OnOk};
ghost use Rattle.hb_base.specs.Limits.{most_nodes, longest_value};
ghost use Rattle.merkle_branch.specs.Digests.{leaf_digests};
ghost use Rattle.rbc_core.specs.Broadcast.{place_of};

use hb_base::{Bytes, Config, NodeSet};
use hb_rules::Due;
use hb_wire::{Spoken, Vote};
use merkle_branch::{Tree, is_branch};
use rbc_core::{Check, Rbc, check, tree_over};
use rs_shards::encode;
use std::alloc::Global;
use std::process::Abort;
use std::test::Fail;

// The largest f of so many nodes, and lengths of values.
pub(crate) const SIZES: [(u8, u8); 6] = [(1, 0), (2, 0), (4, 1), (6, 1), (7, 2), (16, 5)];

const LENGTHS: [u16; 4] = [0, 1, 255, 16_514];

// The root of the value of this length among so many nodes.
fn root_of(n: u8, len: u16) -> &'static [u8; 32] {
    match (n, len) {
        (1, 0) =>
            b"\xb0\xf6\x6a\xdc\x83\x64\x15\x86\x65\x68\x66\x81\x3f\xd9\xdd\x0b\x8e\xbb\x63\x79\x60\x75\x66\x1b\xa4\x5d\x1a\xa8\x08\x9e\x1d\x44",
        (1, 1) =>
            b"\xd4\xce\x9a\xa2\x14\x23\x81\xc8\x30\x4e\xc4\x0c\x46\xa3\xea\xf6\xd6\x36\x36\x5c\xa8\xcd\x15\x02\x30\x52\x6f\xf8\xff\xe9\xb0\xc8",
        (1, 255) =>
            b"\xc4\xda\xf4\x25\x9d\x13\xc8\xb0\x4c\xe6\x40\xed\x6c\x3c\xe3\x3d\x62\xbb\x79\x5f\xf0\x91\xf1\x80\xc1\x82\x6c\xe2\x05\x9a\x43\xb3",
        (1, 16514) =>
            b"\x96\xd8\x76\x3b\x33\x03\xdf\x34\xe8\x26\x54\x78\x7f\xe0\x48\xd9\x31\xe7\x40\x48\x16\xed\xd5\x31\x94\x1d\x3c\x35\xd6\xf6\x94\xac",
        (2, 0) =>
            b"\xc5\xeb\x78\x22\x02\x40\xcc\x4d\x27\x4d\x55\x6e\xc4\x27\xbe\x1d\x0b\xa2\x41\xdb\xb9\xd2\x39\x0c\x24\xfa\xa4\x18\xac\xbd\x68\x2b",
        (2, 1) =>
            b"\x45\x2a\xb1\x67\x93\x26\xa5\x18\xb0\x2a\x2e\x63\x68\xb2\xd0\x93\xed\x86\x3b\x92\x30\x09\x48\x75\x93\x90\x67\xca\x70\x81\xb6\xa3",
        (2, 255) =>
            b"\xe6\xa3\xb5\x27\x7b\x5b\x80\x37\xbd\x13\x07\x8f\x7b\x1d\xa5\x0a\x1e\x09\xf4\x2c\x3b\x63\x50\xd9\xca\x49\x0a\x8c\x9a\x1f\x2f\x79",
        (2, 16514) =>
            b"\x42\x41\xac\x3e\xdc\xd0\xe3\x81\xbb\x99\xb5\xb9\xbf\x1b\x31\xe1\x52\x8a\xfd\xbc\x6a\xd5\x9b\x3f\xa5\x54\x25\x87\xcd\xd9\x80\x7c",
        (4, 0) =>
            b"\xf8\x37\xbc\xda\x91\x9e\x62\xcc\xdf\x0b\x6c\x08\x14\xc2\xf9\x77\x83\x36\xdb\x77\xde\x00\x94\x4d\xa9\x34\x7a\xf1\xd3\x60\xb8\x73",
        (4, 1) =>
            b"\x48\xde\xd0\x34\x95\xe6\x4e\x75\x8a\x67\x57\xc5\x87\xb6\x08\xd2\x64\x88\x66\xc5\xf4\x33\x01\x8c\x72\x06\x7c\x67\xa5\x41\x10\x3e",
        (4, 255) =>
            b"\x9e\x33\x82\xed\x50\xd2\xb9\x85\x7f\x6d\xa3\x27\x07\x97\xe6\xe8\x1b\x1e\xff\xe4\xcc\x61\x0c\x87\xe1\x6c\xbd\xde\x60\x5f\x42\xbe",
        (4, 16514) =>
            b"\x0d\xfc\x10\xdd\xc0\xb5\xfc\x61\x89\x4c\xdd\x10\x33\x0a\x20\x8b\xe1\xd7\x14\xba\xf1\x52\xe8\xec\x4f\xfe\x09\x7f\x59\xd4\xbb\x23",
        (6, 0) =>
            b"\xf2\x0e\xae\x4c\x27\xa9\xd5\x8b\x25\xe4\x48\x2f\x9e\xe9\x8d\x11\x94\x2d\xbf\xa1\x12\xec\x72\x35\xf0\x91\x2a\x8d\xa2\x36\x6c\x60",
        (6, 1) =>
            b"\xb8\x56\x9e\x05\xe9\x95\x75\x44\xeb\x0c\xdb\x58\x4a\x06\xb1\x91\x6d\x36\xac\xc2\x74\x90\xae\x94\x7e\x18\x72\x0c\x86\x69\x04\x43",
        (6, 255) =>
            b"\xb4\xcd\xa9\x9c\xfb\xc5\x54\xb7\xba\xb3\x9e\x08\x82\x6b\xf3\xae\x7f\xba\x80\x8b\xb0\x48\x97\x15\x9b\x67\x8a\x62\xa6\xe1\x69\x4b",
        (6, 16514) =>
            b"\x19\x3c\xcd\xc4\x76\xa1\x4a\xa6\x0e\x2f\xac\xdb\x16\xbf\x27\x85\xdc\x24\x0e\x7a\x1e\xf2\x4f\x9f\x16\xe7\x84\x19\x6c\xee\x69\xb7",
        (7, 0) =>
            b"\x47\x88\x14\xd8\xed\xe1\xd8\x3a\x9f\xdc\xca\xf4\x6e\x8e\xe2\x92\x71\x5c\xef\x00\x36\x7d\xb1\x06\xab\xab\x3a\x6c\xe5\x38\x7e\x4d",
        (7, 1) =>
            b"\x30\x1c\x96\xa5\x4e\x1d\x54\x58\x92\x90\xab\x94\xd8\x02\xa3\xda\x79\x42\x1d\x35\x0e\x29\xf9\x2f\x3b\x49\xd2\xd0\xb8\xf9\xe5\x36",
        (7, 255) =>
            b"\x75\xea\x6f\xbf\x2a\x58\x87\x1f\xea\x4c\xf0\x00\x16\x2c\x18\x83\x3f\x59\x6f\x27\xfd\x26\x69\xb5\xae\x6a\xf8\xff\xc9\xd7\x05\x34",
        (7, 16514) =>
            b"\x63\xe9\x96\xf6\x15\x7b\x64\x8b\x4d\x04\xbb\xd2\x81\x3c\xf9\x76\xc6\x39\xba\x85\x77\xaa\xc0\xfa\xc6\xb8\xfa\x6e\x55\x73\xde\x2b",
        (16, 0) =>
            b"\x73\xee\x14\x73\xa0\x42\x30\xe6\x5f\xfe\xfd\xcd\x64\xad\x64\xa9\x35\x09\x7b\xe6\xc1\xa0\x5b\x4e\x84\xff\x8f\xdd\x26\xb2\x29\x11",
        (16, 1) =>
            b"\x01\xc9\xef\xe5\xc1\xc2\x5c\x47\x01\x4f\x7c\xbe\x4c\x27\x81\x74\x1a\x35\xf0\xb4\x59\x55\x7a\x77\xa4\x48\x9b\xe2\x20\xcc\x45\x81",
        (16, 255) =>
            b"\x86\x2c\x48\xb9\x71\x4c\x81\xa4\x11\x1e\x4f\x88\x7c\x2b\xc5\x22\xec\xd3\xc5\x76\x53\xf7\x11\xc3\xd3\x1e\x0b\x65\x1a\x67\x2a\xe2",
        (16, 16514) =>
            b"\x62\xfa\xa2\x36\xb8\xf6\x6a\x05\x68\x21\x12\x7c\xc6\x0c\xaf\x3a\xad\xb1\x0f\x1b\xda\x34\xdb\x34\xd6\xe7\x09\xed\x50\x43\x6c\x83",
        _ => &[0; 32],
    }
}

// A value: byte i is 7 i and the length, as a byte.
pub(crate) fn value_of(alloc: Global, len: u16) -> Result<Bytes, Fail>
    ensures { IfOk result (λ value. length value ≤ longest_value) }
{
    let mut bytes = Vec::with_capacity(alloc, len as usize)?;
    for i in 0..len {
        bytes.push(((7 * i as u32 + len as u32) % 256) as u8)?;
    }
    if bytes.len() > 16_514 {
        return Err("a long value".into());
    }
    let value = Bytes::from_vec(bytes)?;
    Ok(value)
}

pub(crate) fn config_of(n: u8, f: u8) -> Result<Config, Fail> {
    let config = Config::new(n, f, 1, 1, 1, 0, 1, NodeSet::new()).ok_or("no config")?;
    Ok(config)
}

// What node 0 casts in its own broadcast when its desk proposes this.
pub(crate) fn vals_of(alloc: Global, config: &Config, value: Bytes) -> Result<Due, Fail>
    requires { length value ≤ longest_value }
{
    let n = config.n();
    prove!(0 < n);
    let mut rbc = Rbc::rebuild(alloc, config, 0, 0, 0, &[])?;
    let mut due = Due::new(alloc);
    let vote = Spoken::plain(Vote::Propose { epoch: 0, value });
    rbc.hear(alloc, 0, &vote, &mut due)?;
    Ok(due)
}

// Whether the vote at place m of these sends shard m, under this root.
fn sends(votes: &[Vote], n: u8, m: u8, want: &[u8; 32], shards: &[Bytes]) -> bool
    requires node { m < n }
    requires few { n ≤ most_nodes }
{
    match (votes.get(m as usize), shards.get(m as usize)) {
        (
            Some(
                Vote::Val {
                    epoch: 0,
                    target,
                    root,
                    shard,
                    branch,
                },
            ),
            Some(wanted),
        ) => {
            *target == m
                && *root == *want
                && shard == wanted
                && is_branch(want, n, m, shard.as_slice(), branch)
        }
        _ => false,
    }
}

// The shards of the value of this length.
fn shards_of(alloc: Global, config: &Config, len: u16) -> Result<Vec<Bytes>, Fail> {
    let value = value_of(alloc, len)?;
    Ok(encode(alloc, config.n(), config.k(), value.as_slice())?)
}

#[test]
fn a_sender_sends_each_node_its_shard(rt: HostRuntime) -> Result<(), Fail> {
    let alloc = rt.alloc();
    for &(n, f) in &SIZES {
        let config = config_of(n, f)?;
        for &len in &LENGTHS {
            let shards = shards_of(alloc, &config, len)?;
            let due = vals_of(alloc, &config, value_of(alloc, len)?)?;
            assert!(rt; due.votes().len() == n as usize);
            for m in 0..config.n() {
                assert!(rt;
                    sends(due.votes(), config.n(), m, root_of(n, len), &shards),
                    "{n} nodes, {len} bytes, node {m}"
                );
            }
        }
    }
    Ok(())
}

// Hears from node `from` an Echo of shard m of these, with its branch.
pub(crate) fn hear_echo(
    alloc: Global,
    rbc: &mut Rbc,
    from: u8,
    m: u8,
    tree: &Tree,
    shards: &[Bytes],
    due: &mut Due,
) -> Result<(), Fail>
    requires from { from < (place_of rbc.old).config.n }
    requires tree { tree.now ≡ leaf_digests shards.now }
    ensures { OnOk result (place_of rbc.new ≡ place_of rbc.old) }
{
    if m as usize >= shards.len() {
        return Err("no shard".into());
    }
    let shard = shards[m as usize].clone()?;
    if shard.as_slice().len() > 16_520 {
        return Err("a long shard".into());
    }
    let branch = tree.branch(m);
    let vote = Vote::Echo {
        epoch: 0,
        root: tree.root(),
        shard,
        branch,
    };
    rbc.hear(alloc, from, &Spoken::plain(vote), due)?;
    Ok(())
}

// What node 0 owes that hears these echoes, each a node and whose shard it shows, and then that these nodes are ready.
fn due_after(
    alloc: Global,
    config: &Config,
    shards: &[Bytes],
    echoes: &[(u8, u8)],
    readies: &[u8],
) -> Result<Due, Fail>
    requires some { 1 ≤ length shards.now }
    requires few { length shards.now ≤ most_nodes }
{
    let n = config.n();
    prove!(0 < n);
    let tree = tree_over(alloc, shards)?;
    let mut rbc = Rbc::rebuild(alloc, config, 0, 0, 0, &[])?;
    let mut due = Due::new(alloc);
    for (from, m) in echoes {
        if *from < n {
            hear_echo(alloc, &mut rbc, *from, *m, &tree, shards, &mut due)?;
        }
    }
    let root = tree.root();
    for from in readies {
        if *from < n {
            let vote = Spoken::plain(Vote::Ready { epoch: 0, root });
            rbc.hear(alloc, *from, &vote, &mut due)?;
        }
    }
    Ok(due)
}

// Whether these votes are a Ready, if one is wanted, and the delivery of a value, if one is wanted.
pub(crate) fn are(votes: &[Vote], is_ready: bool, value: Option<&[u8]>) -> bool {
    match (votes, is_ready, value) {
        ([], false, None) => true,
        ([Vote::Ready { epoch: 0, .. }], true, None) => true,
        (
            [
                Vote::Ready { epoch: 0, .. },
                Vote::Delivered { epoch: 0, value },
            ],
            true,
            Some(wanted),
        ) => { value.as_slice() == wanted }
        _ => false,
    }
}

// Echoes of all nodes in three orders, and who is ready.
const RISING: [(u8, u8); 7] = [(0, 0), (1, 1), (2, 2), (3, 3), (4, 4), (5, 5), (6, 6)];

const FALLING: [(u8, u8); 4] = [(3, 3), (2, 2), (1, 1), (0, 0)];

const MIXED: [(u8, u8); 4] = [(2, 2), (0, 0), (3, 3), (1, 1)];

const FOUR: [u8; 4] = [3, 0, 2, 1];

// Whether so many echoes in this order, and so many nodes that are ready, make the votes that the numbers say.
fn counts_hold(
    alloc: Global,
    config: &Config,
    value: &Bytes,
    echoes: &[(u8, u8)],
    readies: &[u8],
) -> Result<bool, Fail>
    requires { length value.now ≤ longest_value }
{
    let (n, f, k) = (
        config.n() as usize,
        config.f() as usize,
        config.k() as usize,
    );
    let shards = encode(alloc, config.n(), config.k(), value.as_slice())?;
    if shards.is_empty() || shards.len() > 16 {
        return Ok(false);
    }
    let due = due_after(alloc, config, &shards, echoes, readies)?;
    let is_ready = echoes.len() >= n - f || readies.len() > f;
    let is_delivered = readies.len() > 2 * f && echoes.len() >= k;
    let wanted = if is_delivered {
        Some(value.as_slice())
    } else {
        None
    };
    Ok(are(due.votes(), is_ready, wanted))
}

// All counts of echoes and of nodes that are ready, up to these.
fn all_counts_hold(
    rt: &impl Abort,
    alloc: Global,
    config: &Config,
    echoes: &[(u8, u8)],
    readies: &[u8],
) -> Result<(), Fail> {
    let value = value_of(alloc, 5)?;
    for e in 0..echoes.len() + 1 {
        for r in 0..readies.len() + 1 {
            let holds = counts_hold(alloc, config, &value, &echoes[..e], &readies[..r])?;
            assert!(rt; holds, "{e} echoes, {r} nodes ready");
        }
    }
    Ok(())
}

#[test]
fn how_many_nodes_it_takes(rt: HostRuntime) -> Result<(), Fail> {
    let alloc = rt.alloc();
    let four = config_of(4, 1)?;
    all_counts_hold(&rt, alloc, &config_of(1, 0)?, &RISING[..1], &[0])?;
    all_counts_hold(&rt, alloc, &four, &RISING[..4], &FOUR)?;
    all_counts_hold(&rt, alloc, &four, &FALLING, &FOUR)?;
    all_counts_hold(&rt, alloc, &four, &MIXED, &FOUR)?;
    all_counts_hold(
        &rt,
        alloc,
        &config_of(7, 2)?,
        &RISING,
        &[6, 0, 5, 1, 4, 2, 3],
    )
}

// Four shards of these bytes.
fn four_shards(alloc: Global, shards: [&[u8]; 4]) -> Result<Vec<Bytes>, Fail> {
    let mut all = Vec::with_capacity(alloc, 4)?;
    for shard in shards {
        all.push(Bytes::copy(alloc, shard)?)?;
    }
    Ok(all)
}

// What node 0 of four owes after these, where all nodes are ready in the end.
fn owes(
    alloc: Global,
    shards: [&[u8]; 4],
    echoes: &[(u8, u8)],
    is_ready: bool,
    value: Option<&[u8]>,
) -> Result<bool, Fail> {
    let config = config_of(4, 1)?;
    let shards = four_shards(alloc, shards)?;
    if shards.len() != 4 {
        return Ok(false);
    }
    let echoed = due_after(alloc, &config, &shards, echoes, &[])?;
    let ready = due_after(alloc, &config, &shards, echoes, &FOUR)?;
    Ok(are(echoed.votes(), is_ready, None) && are(ready.votes(), true, value))
}

// The shards of the value `hi`.
const GOOD: [&[u8]; 4] = [b"\0\0\0", b"\x02hi", b"\x04\xd0\xd2", b"\x06\xb8\xbb"];

// The same with another last byte, so no codeword.
const BAD: [&[u8]; 4] = [b"\0\0\0", b"\x02hi", b"\x04\xd0\xd2", b"\x06\xb8\xbc"];

// The same without the last byte.
const UNEVEN: [&[u8]; 4] = [b"\0\0\0", b"\x02hi", b"\x04\xd0\xd2", b"\x06\xb8"];

// A codeword, since all shards are alike, that holds no frame: the length that it begins with is too great.
const FALSE_FRAME: [&[u8]; 4] = [
    b"\xff\xff\xff",
    b"\xff\xff\xff",
    b"\xff\xff\xff",
    b"\xff\xff\xff",
];

// The shards; the echoes; whether node 0 is ready by them, and what it delivers once all nodes are ready.
type Owed = (
    [&'static [u8]; 4],
    [(u8, u8); 4],
    bool,
    Option<&'static [u8]>,
);

const OWED: [Owed; 6] = [
    (GOOD, MIXED, true, Some(b"hi")),
    // the same node again, and shards of other nodes, do not count
    (GOOD, [(1, 1), (1, 1), (3, 3), (3, 3)], false, Some(b"hi")),
    (GOOD, [(1, 1), (2, 3), (3, 2), (0, 1)], false, None),
    // a tree over shards of no codeword, or of two lengths, makes no Ready by echoes, and no delivery
    (BAD, [(0, 0), (1, 1), (2, 2), (3, 3)], false, None),
    (UNEVEN, FALLING, false, None),
    // a codeword that holds no frame delivers the empty value
    (FALSE_FRAME, FALLING, true, Some(b"")),
];

#[test]
fn shards_that_are_wrong(rt: HostRuntime) -> Result<(), Fail> {
    for (row, owed) in OWED.iter().enumerate() {
        let (shards, echoes, is_ready, value) = *owed;
        assert!(rt;
            owes(rt.alloc(), shards, &echoes, is_ready, value)?,
            "row {row}"
        );
    }
    Ok(())
}

// Whether a check finds that the shards have the root, and carry this value.
fn is_good(answer: &Check, wanted: &[u8]) -> bool {
    matches!(answer, Check::Good(value) if value.as_slice() == wanted)
}

// Whether a check finds that the shards have another root, which is this one.
fn is_of_root(answer: &Check, root: &[u8; 32]) -> bool {
    matches!(answer, Check::OtherRoot { found } if *found == *root)
}

#[test]
fn shards_and_roots(rt: HostRuntime) -> Result<(), Fail> {
    let alloc = rt.alloc();
    let shards = encode(alloc, 4, 2, value_of(alloc, 1)?.as_slice())?;
    let is_good = is_good(&check(alloc, &[], root_of(4, 1), 2, &shards)?, b"\x01");
    let is_of_other = is_of_root(
        &check(alloc, &[], root_of(4, 0), 2, &shards)?,
        root_of(4, 1),
    );
    assert!(rt; is_good && is_of_other);
    Ok(())
}
