//! What the callers write and hear, against bytes that `tools/oracles/run wire_probes` makes.

ghost use Rattle.std.specs.Prelude.{◌≡◌, ◌<◌, length, IfOk};

use crate::callers::{deliver, hear, propose, ready, show};
use hb_base::{Bytes, Config, NodeSet};
use hb_wire::{Post, PostBytes, To, VoteView, batch_len, read_batch, view};
use merkle_branch::{Leaves, Tree, is_branch};
use std::alloc::{AllocError, Global};
use std::test::*;

// Whether a post is a valid Echo of its sender, seen without a copy.
fn is_echo(config: &Config, post: &Post, from: u8) -> bool
    requires { from < config.now.n }
{
    let bytes = post.bytes.as_slice();
    match view(config.n(), config.version(), bytes) {
        Some(
            VoteView::Echo {
                root,
                shard,
                branch,
                ..
            },
        ) => is_branch(&root, config.n(), from, shard, &branch),
        _ => false,
    }
}

// The numbers of a run of four nodes under version 2.
fn config() -> Result<Config, Fail>
    ensures { IfOk result (λ config. config.n ≡ 4) }
{
    let config = Config::new(4, 1, 8, 8, 64, 0, 2, NodeSet::new());
    Ok(config.ok_or("numbers within their limits")?)
}

// A tree over four leaves.
fn tree(alloc: Global) -> Result<Tree, AllocError>
    ensures { IfOk result (λ tree. length tree ≡ 4) }
{
    let mut leaves = Leaves::new();
    leaves.add(b"a");
    leaves.add(b"bb");
    leaves.add(b"ccc");
    leaves.add(b"dddd");
    Tree::build(alloc, &leaves)
}

fn is_spelled(alloc: Global, bytes: &Bytes, text: &str) -> Result<bool, Fail> {
    Ok(bytes.as_slice() == hex::decode(alloc, text)?.as_slice())
}

const READY: &str = "03003333333333333333333333333333333333333333333333333333333333333333";

// A Coin and an Echo of node 2, with the branch of leaf 2 in the tree; its digests are the oracle's.
const COIN: &str = "\
090300fe44444444444444444444444444444444\
0e499a4a9d825bc005ca4f69060d97389053380614914f0f4c0cb8e510426229\
68a248824822164e879ca777d46284c1235e1b0bde89ca303898bb2c2fd15922";

const ECHO: &str = "\
02009c5d52b4f317675fc83fa266570b227efcd961d8a0c003deb11c216a9f1133bd\
00000003636363\
0e499a4a9d825bc005ca4f69060d97389053380614914f0f4c0cb8e510426229\
68a248824822164e879ca777d46284c1235e1b0bde89ca303898bb2c2fd15922";

// Whether `ready` makes the bytes `READY` of a root.
fn is_ready_made(alloc: Global) -> Result<bool, Fail> {
    let config = config()?;
    let bytes = ready(alloc, &config, [0x33; 32])?;
    is_spelled(alloc, &bytes, READY)
}

// Whether `show` makes the bytes `COIN` of a share of node 2.
fn is_coin_made(alloc: Global) -> Result<bool, Fail> {
    let config = config()?;
    let tree = tree(alloc)?;
    let bytes = show(alloc, &config, &tree, 2, 0xFE, [0x44; 16])?;
    is_spelled(alloc, &bytes, COIN)
}

#[test]
fn made(rt: HostRuntime) -> Result<(), Fail> {
    assert!(rt; is_ready_made(rt.alloc())? && is_coin_made(rt.alloc())?);
    Ok(())
}

// A batch is read and proposed, and delivered, in epoch 1.
fn is_carried(alloc: Global, config: &Config, batch: &[u8]) -> Result<bool, Fail> {
    if batch_len(batch) == 0 || batch.len() > 16_514 {
        return Ok(false);
    }
    let bytes = Bytes::copy(alloc, batch)?;
    let transactions = read_batch(alloc, &bytes)?;
    let proposed = propose(alloc, config, 1, transactions.as_slice())?;
    let delivered = deliver(alloc, config, 1, bytes)?;
    let alike = proposed.as_slice()[1..] == delivered.as_slice()[1..];
    Ok(alike && is_spelled(alloc, &proposed, "100100000009000200016100026263")?)
}

#[test]
fn carried(rt: HostRuntime) -> Result<(), Fail> {
    let batch = hex::decode(rt.alloc(), "000200016100026263")?;
    assert!(rt; is_carried(rt.alloc(), &config()?, &batch)?);
    Ok(())
}

fn post(alloc: Global, text: &str) -> Result<Post, Fail> {
    let bytes = hex::decode(alloc, text)?;
    Ok(Post {
        from: 2,
        actor: 0,
        to: To::All,
        bytes: PostBytes::plain(Bytes::copy(alloc, &bytes)?),
    })
}

// Whether the bytes are an Echo of node 2, whether they are one of node 1, and whether a vote is heard.
fn findings(alloc: Global, text: &str) -> Result<[bool; 3], Fail> {
    let config = config()?;
    let post = post(alloc, text)?;
    let vote = hear(alloc, &config, &post)?;
    Ok([
        is_echo(&config, &post, 2),
        is_echo(&config, &post, 1),
        vote.is_some(),
    ])
}

#[test]
fn heard(rt: HostRuntime) -> Result<(), Fail> {
    let echo = findings(rt.alloc(), ECHO)?;
    let nothing = findings(rt.alloc(), "0202")?;
    assert!(rt; echo == [true, false, true] && nothing == [false, false, false]);
    Ok(())
}
