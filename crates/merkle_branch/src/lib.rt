//! Merkle trees over SHA-256 of 1 to 16 leaves, and the branches that tie one leaf to the root
//! (CCS 2016, section 4.2, after Merkle).
#![tactic(auto)]

ghost use Rattle.std.specs.Prelude.{◌≡◌, ℕ, ◌^◌, ◌<◌, ◌≤◌, ◌↔◌, List, IsTrue};
ghost use Rattle.merkle_branch.specs.Digests.{leaf_digest, inner_digest, height as height_of};
ghost use Rattle.merkle_branch.specs.Branches.{IsBranch, is_branch as has_branch, folded, parent_string};
ghost use Rattle.sha2.specs.Sha256.{sha256};

use sha2::{Digest, Sha256};

mod laws;
mod tree;

pub use laws::{branch_laws, branches_bind, trees_bind};
pub use tree::{Leaves, Tree};

/// The most leaves of a tree.
pub const MAX_LEAVES: usize = 16;

/// The most digests of a branch, the height of a tree of 16 leaves.
pub const MAX_HEIGHT: usize = 4;

/// The digests that lead from one leaf to the root, from the bottom up: the first `len` of
/// `digests`. The entries behind them are zero bytes in every branch that a tree gives.
#[derive(Clone, Copy, Debug, PartialEq, Eq)]
pub struct Branch {
    pub len: u8,
    pub digests: [[u8; 32]; MAX_HEIGHT],
}

/// The height of a tree of n leaves, 1 to 16: the least h for which 2^h is at least n.
#[tactic(auto, unfolding(crate::specs::Digests::height))]
pub fn height(n: u8) -> u8
    requires some { 1 ≤ n }
    requires few { n ≤ 16 }
    ensures exact { result ≡ height_of n }
    ensures enough { n ≤ 2 ^ result }
    ensures least { (h : ℕ) → n ≤ 2 ^ h → result ≤ h }
    ensures small { result ≤ 4 }
{
    match n {
        0..=1 => 0,
        2 => 1,
        3..=4 => 2,
        5..=8 => 3,
        _ => 4,
    }
}

// SHA-256 of the byte 0, the index and the leaf's bytes, which are hashed where they lie.
fn hash_leaf(index: u8, leaf: &[u8]) -> [u8; 32]
    ensures { result ≡ leaf_digest index leaf.now }
{
    let mut hasher = Sha256::new();
    hasher.update(&[0, index]);
    hasher.update(leaf);
    hasher.finalize()
}

// SHA-256 of the byte 1 and two digests.
fn hash_inner(left: &[u8; 32], right: &[u8; 32]) -> [u8; 32]
    ensures { result ≡ inner_digest left.now right.now }
{
    let mut hasher = Sha256::new();
    hasher.update(&[1]);
    hasher.update(left);
    hasher.update(right);
    hasher.finalize()
}

// The digest above the one at a position, whose sibling stands on the other side.
fn hash_above(position: u8, digest: &[u8; 32], sibling: &[u8; 32]) -> [u8; 32]
    ensures { result ≡ sha256 (parent_string position digest.now sibling.now) }
{
    if position % 2 == 0 {
        hash_inner(digest, sibling)
    } else {
        hash_inner(sibling, digest)
    }
}

// The digest that folding the siblings onto the digest at a position ends with.
fn fold(mut position: u8, mut digest: [u8; 32], siblings: &[[u8; 32]]) -> [u8; 32]
    ensures { result ≡ folded position digest siblings.now }
{
    for sibling in siblings {
        digest = hash_above(position, &digest, sibling);
        position /= 2;
    }
    digest
}

/// Whether the branch leads from leaf m of n to the root: whether it has as many digests as the tree
/// is high, and the leaf's digest, folded with them from the bottom up, is the root.
pub fn is_branch(root: &[u8; 32], n: u8, m: u8, leaf: &[u8], branch: &Branch) -> bool
    requires leaf { m < n }
    requires few { n ≤ 16 }
    ensures exact { result ≡ has_branch root.now n m leaf.now branch.now }
    ensures leads { IsTrue result ↔ IsBranch root.now n m leaf.now branch.now }
{
    branch.len == height(n)
        && fold(
            m,
            hash_leaf(m, leaf),
            &branch.digests[..branch.len as usize],
        ) == *root
}
