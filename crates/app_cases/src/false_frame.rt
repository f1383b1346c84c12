//! A liar whose broadcast stands for no bytes.
ghost use Rattle.std.specs.Prelude.{◌≡◌, codes, length, IfOk};

use hb_base::LiarName;
use hb_wire::{Post, To};
use liar_cast::{Liar, LiarSeat, Lies};
use merkle_branch::{Leaves, Tree};
use std::alloc::{AllocError, Global};

/// A liar of node 3 among four nodes. In its lane it broadcasts six bytes FF, which are no frame, since they name more bytes than
/// there are. All its shards are three bytes FF: a column that is constant at two points is constant.
#[derive(Drop)]
pub struct FalseFrame;

const SHARD: [u8; 3] = [0xff; 3];

// The tree over four equal shards.
fn tree_of_shards(alloc: Global) -> Result<Tree, AllocError>
    ensures { IfOk result (λ tree. length tree ≡ 4) }
{
    let mut leaves = Leaves::new();
    leaves.add(&SHARD);
    leaves.add(&SHARD);
    leaves.add(&SHARD);
    leaves.add(&SHARD);
    Tree::build(alloc, &leaves)
}

// Sends each of four nodes its shard: kind 1, epoch 0, the target, the root, the length, the shard, and two digests.
fn send_shards(alloc: Global, lies: &mut Lies) -> Result<(), AllocError> {
    let tree = tree_of_shards(alloc)?;
    let root = tree.root();
    for target in 0..4u8 {
        let branch = tree.branch(target);
        let mut bytes = Vec::from_slice(alloc, &[1, 0, target])?;
        bytes.extend_from_slice(&root)?;
        bytes.extend_from_slice(&[0, 0, 0, 3])?;
        bytes.extend_from_slice(&SHARD)?;
        bytes.extend_from_slice(&branch.digests[0])?;
        bytes.extend_from_slice(&branch.digests[1])?;
        lies.say(alloc, 3, To::Node(target), bytes.as_slice());
    }
    Ok(())
}

impl Liar for FalseFrame {
    ghost called = { λ _. codes "false_frame" };

    fn name(&self) -> LiarName {
        LiarName::of("false_frame").unwrap()
    }

    fn start(&mut self, alloc: Global, _me: &LiarSeat, lies: &mut Lies) {
        let _sent = send_shards(alloc, lies);
    }

    fn hear(&mut self, _alloc: Global, _me: &LiarSeat, _post: &Post, _lies: &mut Lies) {}
}
