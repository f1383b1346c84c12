//! The two values of an equivocating node, as correct nodes take them in: the branch of each VAL is accepted, and what
//! the even nodes were sent, or the odd ones, gives back a value, whose shards have the root of the VALs.

ghost use Rattle.std.specs.Prelude.{◌<◌, ◌≤◌, ◌^◌, length, IfOk, All};
ghost use Rattle.rs_shards.specs.Rebuilding.{AreShards};

use super::*;
use crate::tree_over;
use hb_wire::{VoteView, view};
use liar_cast::Equivocate;
use merkle_branch::is_branch;
use rs_shards::{rebuild, value_of};

// A VAL's root and its shard.
type Val = ([u8; 32], Bytes);

// The VAL for this node, whose branch is accepted.
fn val_for(alloc: Global, n: u8, lies: &[Lie], node: u8) -> Result<Val, Fail>
    requires few { n ≤ 16 }
    requires node { node < n }
    ensures { IfOk result (λ val. length val.1 < 2 ^ 32) }
{
    let mut sent = lies.iter().filter(|lie| lie.to == To::Node(node));
    let lie = sent.next().ok_or("a lie")?;
    let Some(
        VoteView::Val {
            target,
            root,
            shard,
            branch,
            ..
        },
    ) = view(n, 1, lie.bytes.as_slice())
    else {
        return Err(Fail::from("no VAL"));
    };
    if target != node || shard.len() > 65_535 || !is_branch(&root, n, node, shard, &branch) {
        return Err(Fail::from("no valid VAL"));
    }
    Ok((root, Bytes::copy(alloc, shard)?))
}

// The shards that every second node was sent, from the first one on.
fn shards_from(alloc: Global, n: u8, lies: &[Lie], first: u8) -> Result<Vec<(u8, Bytes)>, Fail>
    requires { n ≤ 16 }
    ensures shards { IfOk result (λ got. AreShards n got.items) }
    ensures short { IfOk result (λ got. All (λ x. length x.1 < 2 ^ 32) got.items) }
{
    let mut got = Vec::new(alloc);
    for node in 0..n {
        if node % 2 != first {
            continue;
        }
        let val = val_for(alloc, n, lies, node)?;
        got.push((node, val.1))?;
    }
    Ok(got)
}

// Whether each of these nodes was sent a VAL with this root.
fn have_root(alloc: Global, n: u8, lies: &[Lie], first: u8, root: &[u8; 32]) -> Result<bool, Fail>
    requires { n ≤ 16 }
{
    for node in 0..n {
        if node % 2 == first && val_for(alloc, n, lies, node)?.0 != *root {
            return Ok(false);
        }
    }
    Ok(true)
}

// Whether every second node, from the first one on, was sent this value.
fn is_accepted(
    alloc: Global,
    config: &Config,
    lies: &[Lie],
    first: u8,
    value: &[u8],
) -> Result<bool, Fail> {
    let n = config.n();
    let k = config.k();
    let got = shards_from(alloc, n, lies, first)?;
    let shards = rebuild(alloc, n, k, &got)?;
    let root = tree_over(alloc, &shards)?.root();
    let found = value_of(alloc, k, &shards)?;
    Ok(found.as_slice() == value && have_root(alloc, n, lies, first, &root)?)
}

#[test]
fn both_values_are_accepted(rt: HostRuntime) -> Result<(), Fail> {
    // at least k nodes are even, and as many are odd
    for (n, f) in [(4, 1), (7, 2), (16, 5)] {
        let me = seat(n, f, 1, 1, 2)?;
        let mut lies = Lies::new(rt.alloc(), 2);
        Equivocate::new().start(rt.alloc(), &me, &mut lies);
        for first in 0..2 {
            let value = [0, 1, 0, 1, 0x41 + first];
            let sent = lies.waiting();
            assert!(rt; is_accepted(rt.alloc(), &me.config, sent, first, &value)?);
        }
    }
    Ok(())
}
