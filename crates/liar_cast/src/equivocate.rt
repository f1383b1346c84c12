//! The liar that broadcasts two values at once.

ghost use Rattle.std.specs.Prelude.{codes, ◌≡◌, ◌<◌, ◌≤◌, length, IfOk, All};
ghost use Rattle.hb_base.specs.ByteLists.{AreBytes};
ghost use Rattle.hb_base.specs.Limits.{most_nodes, most_epochs, longest_shard};

use crate::liar::{Liar, LiarSeat};
use crate::lies::Lies;
use crate::speech::{Hushed, Parity, tell_vote};
use hb_base::{Bytes, Config, LiarName};
use hb_wire::{Post, Vote, write_batch};
use merkle_branch::{Leaves, Tree};
use rs_shards::encode;
use std::alloc::{AllocError, Global};

/// At its start sends in each epoch, in its own lane, a valid VAL of the batch of the one transaction 41 to each even
/// node and of the batch of 42 to each odd one. After that it says nothing.
#[derive(Drop)]
pub struct Equivocate;

impl Equivocate {
    /// One that has not spoken yet.
    pub fn new() -> Equivocate {
        Equivocate
    }
}

// The Merkle tree over shards.
pub(crate) fn tree_of(alloc: Global, shards: &[Bytes]) -> Result<Tree, AllocError>
    requires some { 0 < length shards.now }
    requires few { length shards.now ≤ most_nodes }
    ensures { IfOk result (λ tree. length tree ≡ length shards.now) }
{
    let mut leaves = Leaves::new();
    for shard in shards {
        leaves.add(shard.as_slice());
    }
    Tree::build(alloc, &leaves)
}

// The shards of the batch of one transaction, which is one byte.
fn shards_of(alloc: Global, config: &Config, transaction: u8) -> Result<Vec<Bytes>, AllocError>
    ensures count { IfOk result (λ shards. length shards.items ≡ config.now.n) }
    ensures filled { IfOk result (λ shards. All (λ shard. 1 ≤ length shard) shards.items) }
    ensures short { IfOk result (λ shards. All (λ shard. length shard ≤ longest_shard) shards.items) }
    ensures bytes { IfOk result (λ shards. All AreBytes shards.items) }
{
    let mut batch = Vec::new(alloc);
    batch.push(Bytes::copy(alloc, &[transaction])?)?;
    let value = write_batch(alloc, &batch)?;
    encode(alloc, config.n(), config.k(), value.as_slice())
}

// Sends the batch of one transaction to the nodes of this parity.
fn send(
    alloc: Global,
    me: &LiarSeat,
    lies: &mut Lies,
    epoch: u8,
    transaction: u8,
    parity: Parity,
) -> Result<(), Hushed>
    requires { epoch < most_epochs }
{
    let n = me.config.n();
    let version = me.config.version();
    let shards = shards_of(alloc, &me.config, transaction)?;
    let tree = tree_of(alloc, &shards)?;
    for target in 0..n {
        if parity.has(target) {
            let val = Vote::Val {
                epoch,
                target,
                root: tree.root(),
                shard: shards[target as usize].clone()?,
                branch: tree.branch(target),
            };
            tell_vote(alloc, n, version, lies, me.node, &val)?;
        }
    }
    Ok(())
}

fn send_both(alloc: Global, me: &LiarSeat, lies: &mut Lies) -> Result<(), Hushed> {
    for epoch in 0..me.config.epochs() {
        send(alloc, me, lies, epoch, 0x41, Parity::Even)?;
        send(alloc, me, lies, epoch, 0x42, Parity::Odd)?;
    }
    Ok(())
}

impl Liar for Equivocate {
    ghost called = { λ _. codes "equivocate" };

    fn name(&self) -> LiarName {
        LiarName::of("equivocate").unwrap()
    }

    fn start(&mut self, alloc: Global, me: &LiarSeat, lies: &mut Lies) {
        let _ = send_both(alloc, me, lies);
    }

    fn hear(&mut self, _alloc: Global, _me: &LiarSeat, _post: &Post, lies: &mut Lies)
        ensures { lies.new ≡ lies.old }
    {}
}
