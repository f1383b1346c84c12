//! Whether the shards of a codeword have a root, and the value that they carry.
ghost use Rattle.std.specs.Prelude.{◌≡◌, ◌^◌, ◌<◌, ◌≤◌, length, All, IfOk};
ghost use Rattle.hb_base.specs.Limits.{most_nodes};
ghost use Rattle.merkle_branch.specs.Digests.{leaf_digests};
ghost use Rattle.rs_shards.specs.Rebuilding.{AreShards};
ghost use Rattle.hb_rules.specs.Code.{data_count};
ghost use Rattle.hb_rules.specs.BroadcastRows.{value_through};
ghost use Rattle.rbc_core.specs.Checking.{check_of, good_value};

use crate::answer::Check;
use hb_base::{Bytes, Config};
use merkle_branch::{Leaves, Tree};
use rs_shards::{RsFault, rebuild, value_behind};
use std::alloc::{AllocError, Global};

/// Whether the tree over all the shards of a codeword has this root, and the value that their first k carry (CCS 2016,
/// figure 2: a node recomputes the root before it is ready or delivers). The shards are 1 to 16, and at least k.
///
/// Where the first k are a frame, `front` and the value's length stand before the value in the bytes that its owners share.
/// Where they are none, the root is good all the same: the value is then the empty one, and nothing stands before it. Err where
/// no memory was left.
pub fn check(
    alloc: Global,
    front: &[u8],
    root: &[u8; 32],
    k: u8,
    shards: &[Bytes],
) -> Result<Check, AllocError>
    requires some { 1 ≤ length shards.now }
    requires few { length shards.now ≤ most_nodes }
    requires enough { k ≤ length shards.now }
    ensures { IfOk result (λ answer. answer ≡ check_of root.now k shards.now) }
{
    let found = tree_over(alloc, shards)?.root();
    if found == *root {
        Ok(Check::Good(value_behind(alloc, front, k, shards)?))
    } else {
        Ok(Check::OtherRoot { found })
    }
}

/// The tree over shards, 1 to 16. Err where there is no memory.
pub fn tree_over(alloc: Global, shards: &[Bytes]) -> Result<Tree, AllocError>
    requires some { 1 ≤ length shards.now }
    requires few { length shards.now ≤ most_nodes }
    ensures { IfOk result (λ tree. tree ≡ leaf_digests shards.now) }
{
    let mut leaves = Leaves::new();
    for shard in shards {
        leaves.add(shard.as_slice());
    }
    Tree::build(alloc, &leaves)
}

/// The value to which k shards rebuild, each given with its node: none where their lengths differ or the codeword with
/// these has another root. What stands before the value in shared bytes is as `check` says: nothing where the first k shards
/// are no frame, since the value is then the empty one. Err where there is no memory.
pub fn value_through(
    alloc: Global,
    front: &[u8],
    config: &Config,
    root: &[u8; 32],
    got: &[(u8, Bytes)],
) -> Result<Option<Bytes>, AllocError>
    requires shards { AreShards config.now.n got.now }
    requires short { All (λ x. length x.1 < 2 ^ 32) got.now }
    requires enough { length got.now ≡ data_count config.now }
    ensures { IfOk result (λ value. value ≡ value_through config.now root.now got.now) }
{
    let k = config.k();
    match rebuild(alloc, config.n(), k, got) {
        Ok(shards) => good_value(alloc, front, root, k, &shards),
        Err(RsFault::TooFew { .. }) => Ok(None),
        Err(RsFault::Lengths { .. }) => Ok(None),
        Err(RsFault::Memory) => Err(AllocError),
    }
}

// The value of shards whose tree has the root: the empty one where the first k are no frame.
fn good_value(
    alloc: Global,
    front: &[u8],
    root: &[u8; 32],
    k: u8,
    shards: &[Bytes],
) -> Result<Option<Bytes>, AllocError>
    requires some { 1 ≤ length shards.now }
    requires few { length shards.now ≤ most_nodes }
    requires enough { k ≤ length shards.now }
    ensures { IfOk result (λ value. value ≡ good_value root.now k shards.now) }
{
    match check(alloc, front, root, k, shards)? {
        Check::Good(value) => Ok(Some(value)),
        Check::OtherRoot { .. } => Ok(None),
    }
}
