//! A set of nodes that knows its size.
ghost use Rattle.std.specs.Prelude.{◌≡◌, ℕ, ◌<◌, ◌==◌, ◌||◌, true, false, replicate, slice_set};
ghost use Rattle.hb_base.specs.NodeSet.{is_in};
ghost use Rattle.hb_base.specs.Counting.{count_nodes};
ghost use Rattle.hb_base.specs.Limits.{most_nodes};

use hb_base::NodeSet;
use std::marker::Model;

/// Nodes that make a claim, and how many they are, so that no count goes through the nodes. Clauses see the set, as a list
/// of 16 marks.
#[derive(Debug, Drop)]
pub struct Voters {
    nodes: NodeSet,
    count: u8,
}

impl Model for Voters {
    ghost use Rattle.std.specs.Prelude.{◌≡◌, List, Bool};
    ghost use Rattle.hb_base.specs.NodeSet.{is_in};
    ghost use Rattle.hb_base.specs.Counting.{count_nodes};
    ghost use Rattle.hb_base.specs.Limits.{most_nodes};

    ghost Value = { List Bool };

    ghost view = { λ v. v.nodes };

    ghost invariant = { λ v. v.count ≡ count_nodes most_nodes (is_in v.nodes) };
}

impl Voters {
    /// No node.
    pub fn none() -> Voters
        ensures exact { result ≡ replicate most_nodes false }
        ensures members { (node : ℕ) → is_in result node ≡ false }
    {
        Voters {
            nodes: NodeSet::new(),
            count: 0,
        }
    }

    /// Adds a node, which may be among them already.
    pub fn add(&mut self, node: u8)
        requires known { node < most_nodes }
        ensures exact { self.new ≡ slice_set self.old node true }
        ensures members { (other : ℕ) → is_in self.new other ≡ ((other == node) || is_in self.old other) }
    {
        let is_new = !self.nodes.has(node);
        self.nodes.add(node);
        if is_new {
            self.count += 1;
        }
    }

    /// Whether a node is among them.
    pub fn has(&self, node: u8) -> bool
        ensures { result ≡ is_in self.now node }
    {
        self.nodes.has(node)
    }

    /// How many they are.
    pub fn count(&self) -> u8
        ensures { result ≡ count_nodes most_nodes (is_in self.now) }
    {
        self.count
    }
}
