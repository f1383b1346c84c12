//! What no clause says: that there is memory, and that the bytes are those that were meant. Those of the Val and
//! of the Coin come from `tools/oracles/run votes_of_libraries`, which knows the formats alone.
ghost use Rattle.std.specs.Prelude.{◌≡◌, false, replicate};
ghost use Rattle.hb_base.specs.Limits.{most_nodes};
ghost use Rattle.hb_base.specs.Numbers.{numbers};

use super::*;
use coin_deal::deal;
use hb_base::NodeSet;
use hb_wire::{PostBytes, To};
use std::process::Abort;
use std::test::Fail;

/// Four nodes, one of which may lie, seed 0.
fn four_nodes(rt: &impl Abort) -> Config
    ensures { result ≡ numbers 4 1 6 1 1 0 1 (replicate most_nodes false) }
{
    Config::new(4, 1, 6, 1, 1, 0, 1, NodeSet::new()).expect(rt, "a config")
}

/// The Val of epoch 5 to node 2, of the value `hi`, whose shards are 000000, 026869, 04D0D2 and 06B8BB.
const VAL: &[u8] = b"\x01\x05\x02\
    \x62\x79\x87\x3a\xe9\x73\x59\xc7\x4b\xc2\x4e\x3f\x68\x9e\x20\xae\xcd\xa8\x65\x62\x00\x61\xce\x23\x2e\x9c\x98\xc7\x71\x15\x8a\x5a\
    \x00\x00\x00\x03\x04\xd0\xd2\
    \x9c\x24\x4b\x4b\x7f\x6a\x1b\x5a\x68\x45\xd9\xc8\x07\x4a\x1d\x6d\x9b\x04\xdd\x6f\x77\xde\x0c\x9d\x08\x6c\x74\xf4\x41\x12\xa7\x19\
    \x0f\x44\x7f\xf5\x5a\x96\xe3\x62\x5b\x43\x3b\x78\xd9\x76\x24\xc7\x52\xb1\x39\xeb\x92\xaf\xf2\x62\xe9\xe5\x71\x4f\x34\xc0\x92\xcc";

/// The share of node 1 of the first coin.
const COIN: &[u8] = b"\x09\x00\x00\x2b\
    \xa8\x36\xef\xcc\x8b\x77\x0d\xc7\xda\x41\x59\x7c\x51\x57\x48\x8d\
    \xb2\x1b\x57\x20\x31\x0a\x81\x5f\x02\xb9\xac\xc8\x6e\xe9\xb1\xd5\x7c\xf1\x39\x37\xc0\xee\x16\x9b\x72\x37\x44\x6b\x77\xf9\x5b\xc3\
    \x1b\x4c\x1f\xf9\xd8\xb2\x55\x3a\x38\x4c\x1a\x1a\xc5\x2a\x2e\x99\xb3\x2e\x63\x6b\x56\xfd\x19\x59\x37\x55\xad\x86\x51\x7f\x1a\x07";

/// Whether the share of the first coin that is dealt to node 1 has the bytes `COIN`.
fn is_coin_dealt(rt: &impl Abort, alloc: Global) -> Result<bool, AllocError> {
    let config = four_nodes(rt);
    let run = deal(alloc, &config)?;
    let bytes = coin(alloc, &config, &run, 0, 0, 0, 1)?;
    Ok(bytes.as_slice() == COIN)
}

#[test]
fn shard_and_coin(rt: HostRuntime) -> Result<(), Fail> {
    let config = four_nodes(&rt);
    let bytes = val(rt.alloc(), &config, 5, b"hi", 2)?;
    assert!(rt; bytes.as_slice() == VAL && is_coin_dealt(&rt, rt.alloc())?);
    Ok(())
}

/// Whether the shards of the value `hi` make the Delivered of epoch 3 with that value.
fn is_value_delivered(rt: &impl Abort, alloc: Global) -> Result<bool, AllocError> {
    let config = four_nodes(rt);
    let shards = encode(alloc, 4, 2, b"hi")?;
    let bytes = delivered(alloc, &config, 3, &shards)?;
    Ok(bytes.as_slice() == b"\x04\x03\x00\x00\x00\x02hi".as_slice())
}

#[test]
fn value_and_batch(rt: HostRuntime) -> Result<(), Fail> {
    let config = four_nodes(&rt);
    let bytes = proposal(rt.alloc(), &config, 0, &[])?;
    let is_proposed = bytes.as_slice() == b"\x10\x00\x00\x00\x00\x02\x00\x00".as_slice();
    assert!(rt; is_proposed && is_value_delivered(&rt, rt.alloc())?);
    Ok(())
}

fn aux(bit: bool) -> Vote {
    Vote::Aux {
        epoch: 0,
        round: 3,
        bit,
    }
}

/// A NoMore, one byte that is no vote, and an Aux of version 1.
fn three_posts(alloc: Global) -> Result<Vec<Post>, AllocError> {
    let mut posts = Vec::new(alloc);
    for bytes in [b"\x11\x02".as_slice(), b"\xff", b"\x07\x00\x03\x01"] {
        let bytes = Bytes::copy(alloc, bytes)?;
        posts.push(Post {
            from: 0,
            actor: 0,
            to: To::All,
            bytes: PostBytes::plain(bytes),
        })?;
    }
    Ok(posts)
}

#[test]
fn votes_heard(rt: HostRuntime) -> Result<(), Fail> {
    let posts = three_posts(rt.alloc())?;
    let votes = heard(rt.alloc(), &four_nodes(&rt), &posts)?;
    let (no_more, aux) = (Vote::NoMore { epoch: 2 }, aux(true));
    assert!(rt; votes.len() == 2 && votes.first() == Some(&no_more) && votes.last() == Some(&aux));
    Ok(())
}

#[test]
fn votes_compared(rt: HostRuntime) {
    let (one, same, other) = (aux(true), aux(true), aux(false));
    assert!(rt; are_same(&one, &same) && !are_same(&one, &other));
}
