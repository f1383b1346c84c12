//! Trees that keep all their digests.

ghost use Rattle.std.specs.Prelude.{◌≡◌, ℕ, ◌+◌, ◌-◌, ◌*◌, ◌^◌, ◌<◌, ◌≤◌, List, [], ◌∷◌, ◌++◌, length, take, drop, replicate, slice_index_or, IfOk, IsTrue, ◌↔◌};
ghost use Rattle.merkle_branch.specs.Digests.{no_digest, leaf_digest, leaf_digests, root_of, tree_root, height as height_of, sibling, siblings_from};
ghost use Rattle.merkle_branch.specs.Branches.{IsBranch, IsPath, branch_of};
ghost use Rattle.merkle_branch.specs.Shapes.{IsPaddedTo16, HasAllLevels, HasParents};

use crate::{Branch, MAX_HEIGHT, MAX_LEAVES, hash_inner, hash_leaf, height};
use std::alloc::{AllocError, Global};
use std::marker::Model;

// The most digests of a tree, those of one of 16 leaves.
const MAX_NODES: usize = 2 * MAX_LEAVES - 1;

/// The digests of up to 16 leaves. A contract sees the list of them.
#[derive(Drop)]
pub struct Leaves {
    count: u8,
    digests: [[u8; 32]; MAX_LEAVES],
}

impl Model for Leaves {
    ghost use Rattle.std.specs.Prelude.{ℕ, List, take};
    ghost use Rattle.merkle_branch.specs.Shapes.{IsPaddedTo16};

    ghost Value = { List (List ℕ) };

    ghost view = { λ l. take l.count l.digests };

    ghost invariant = { λ l. IsPaddedTo16 l.count l.digests };
}

impl Leaves {
    /// No leaf.
    pub fn new() -> Leaves
        ensures { result ≡ [] }
    {
        Leaves {
            count: 0,
            digests: [[0; 32]; MAX_LEAVES],
        }
    }

    /// How many leaves were added.
    pub fn len(&self) -> u8
        ensures exact { result ≡ length self.now }
        ensures few { result ≤ 16 }
    {
        self.count
    }

    /// Whether no leaf was added.
    pub fn is_empty(&self) -> bool
        ensures { IsTrue result ↔ (self.now ≡ []) }
    {
        self.count == 0
    }

    /// Adds the next leaf.
    pub fn add(&mut self, leaf: &[u8])
        requires { length self.old < 16 }
        ensures digest { self.new ≡ self.old ++ leaf_digest (length self.old) leaf.now ∷ [] }

        // What holds the digests of these leaves holds those of these and the new one.
        ensures leaves { (leaves : List (List ℕ)) → self.old ≡ leaf_digests leaves → self.new ≡ leaf_digests (leaves ++ leaf.now ∷ []) }
    {
        self.digests[self.count as usize] = hash_leaf(self.count, leaf);
        self.count += 1;
    }

    /// The digest at the top of the tree over the leaves. No memory is asked for.
    pub fn root(&self) -> [u8; 32]
        requires { 0 < length self.now }
        ensures { result ≡ root_of self.now }
    {
        let width = width_of(height(self.count));
        let nodes = all_nodes(&self.digests, width);
        nodes[2 * width - 2]
    }

    /// The siblings on the way from leaf m to the top of that tree. No memory is asked for.
    pub fn branch(&self, m: u8) -> Branch
        requires { m < length self.now }
        ensures { result ≡ branch_of self.now m }
    {
        let height = height(self.count);
        let width = width_of(height);
        let nodes = all_nodes(&self.digests, width);
        branch_in(&nodes[..2 * width - 1], self.count, height, m)
    }
}

/// A tree with all its digests. A contract sees the list of its leaves' digests.
#[derive(Drop)]
pub struct Tree {
    count: u8,
    height: u8,

    // The digests level by level, the leaves' first, each level behind the one below it.
    nodes: Vec<[u8; 32]>,
}

impl Model for Tree {
    ghost use Rattle.std.specs.Prelude.{ℕ, List, take};
    ghost use Rattle.merkle_branch.specs.Shapes.{HasAllLevels};

    ghost Value = { List (List ℕ) };

    ghost view = { λ t. take t.count t.nodes.items };

    ghost invariant = { λ t. HasAllLevels t.count t.height t.nodes.items };
}

// The number of positions for leaves in a tree of this height.
fn width_of(height: u8) -> usize
    requires { height ≤ 4 }
    ensures exact { result ≡ 2 ^ height }
    ensures some { 1 ≤ result }
    ensures small { result ≤ 16 }
{
    1 << height
}

// The other child of the same parent.
fn sibling_of(position: usize) -> usize
    requires { position < 16 }
    ensures { result ≡ sibling position }
{
    if position % 2 == 0 {
        position + 1
    } else {
        position - 1
    }
}

// The digests of a tree level by level, the first `width` of these at the bottom. The entries behind them are zero bytes.
fn all_nodes(digests: &[[u8; 32]; MAX_LEAVES], width: usize) -> [[u8; 32]; MAX_NODES]
    requires some { 1 ≤ width }
    requires few { width ≤ 16 }
    ensures leaves { take width result ≡ take width digests.now }
    ensures parents { HasParents width result }
{
    let mut nodes = [[0; 32]; MAX_NODES];
    nodes[..width].copy_from_slice(&digests[..width]);
    for i in 0..width - 1 {
        nodes[width + i] = hash_inner(&nodes[2 * i], &nodes[2 * i + 1]);
    }
    nodes
}

// The branch of leaf m in the digests of a tree over so many leaves, level by level.
fn branch_in(nodes: &[[u8; 32]], _count: u8, height: u8, m: u8) -> Branch
    requires tree { HasAllLevels _count height nodes.now }
    requires leaf { m < _count }
    ensures { result ≡ branch_of (take _count nodes.now) m }
{
    let mut digests = [[0; 32]; MAX_HEIGHT];
    let mut position = m as usize;
    let mut width = width_of(height);
    let mut start = 0;
    for level in 0..height as usize {
        digests[level] = nodes[start + sibling_of(position)];
        start += width;
        width /= 2;
        position /= 2;
    }
    Branch {
        len: height,
        digests,
    }
}

impl Tree {
    /// The tree over the leaves.
    pub fn build(alloc: Global, leaves: &Leaves) -> Result<Tree, AllocError>
        requires { 0 < length leaves.now }
        ensures { IfOk result (λ tree. tree ≡ leaves.now) }
    {
        let height = height(leaves.count);
        let width = width_of(height);
        let nodes = all_nodes(&leaves.digests, width);
        Ok(Tree {
            count: leaves.count,
            height,
            nodes: Vec::from_slice(alloc, &nodes[..2 * width - 1])?,
        })
    }

    /// The digest at the top.
    pub fn root(&self) -> [u8; 32]
        ensures { result ≡ root_of self.now }
    {
        self.nodes[self.nodes.len() - 1]
    }

    /// The siblings on the way from leaf m to the root.
    pub fn branch(&self, m: u8) -> Branch
        requires { m < length self.now }
        ensures exact { result ≡ branch_of self.now m }
        ensures path { IsPath (length self.now) result }

        // It leads from leaf m of the tree's leaves to its root.
        ensures valid { (leaves : List (List ℕ)) → self.now ≡ leaf_digests leaves
            → IsBranch (tree_root leaves) (length leaves) m (slice_index_or leaves m []) result }
    {
        branch_in(&self.nodes, self.count, self.height, m)
    }
}
