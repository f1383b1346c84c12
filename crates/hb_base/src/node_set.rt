//! Sets of nodes.
ghost use Rattle.std.specs.Prelude.{◌≡◌, ℕ, ◌<◌, ◌==◌, ◌||◌, List, Bool, true, false, slice_set, replicate};
ghost use Rattle.std.specs.Prelude.{nat_eq};
ghost use Rattle.std.specs.Ordering.{on};
ghost use Rattle.std.specs.Cmp.{partial_equiv_from_equiv, nat_eq_equiv, on_per, on_equiv};
ghost use Rattle.hb_base.specs.NodeSet.{is_in};
ghost use Rattle.hb_base.specs.Words.{word_of};
ghost use Rattle.hb_base.specs.Counting.{count_nodes};
ghost use Rattle.hb_base.specs.Limits.{most_nodes};

use crate::limits::MOST_NODES;
use std::marker::Model;

/// A set of nodes, each below 16. Clauses see it as a list of 16 marks, one for each node.
#[derive(Clone, Copy, Debug)]
pub struct NodeSet {
    // Bit i is set where node i is in the set.
    bits: u16,
}

impl Model for NodeSet {
    ghost use Rattle.std.specs.Prelude.{List, Bool, ◌<◌};
    ghost use mathlib.Core.Path.{ap};
    ghost use Rattle.hb_base.specs.Words.{marks_of, word_of, word_of-marks_of};
    ghost use Rattle.hb_base.specs.Limits.{most_nodes};

    ghost Value = { List Bool };

    ghost view = { λ s. marks_of most_nodes s.bits };

    ghost invariant = { λ s. s.bits < 65536 };

    ghost inverse = { λ marks. record { bits = word_of marks } };

    ghost inverse_ok = { λ s small. ap (λ bits. record { bits = bits }) (word_of-marks_of most_nodes s.bits small) };
}

impl NodeSet {
    /// The set with no node.
    pub fn new() -> NodeSet
        ensures exact { result ≡ replicate most_nodes false }
        ensures members { (node : ℕ) → is_in result node ≡ false }
    {
        NodeSet { bits: 0 }
    }

    /// Adds a node, which may be in the set already.
    pub fn add(&mut self, node: u8)
        requires { node < most_nodes }
        ensures exact { self.new ≡ slice_set self.old node true }
        ensures members { (other : ℕ) → is_in self.new other ≡ ((other == node) || is_in self.old other) }
    {
        self.bits |= 1 << node;
    }

    /// Whether a node is in the set. No node from 16 on is.
    pub fn has(&self, node: u8) -> bool
        ensures { result ≡ is_in self.now node }
    {
        node < MOST_NODES && (self.bits >> node) & 1 == 1
    }

    /// How many nodes are in the set.
    pub fn count(&self) -> u8
        ensures exact { result ≡ count_nodes most_nodes (is_in self.now) }
    {
        let mut count = 0u8;
        for node in 0..MOST_NODES {
            if self.has(node) {
                count += 1;
            }
        }
        count
    }
}

impl PartialEq for NodeSet {
    ghost eq = { on word_of nat_eq };

    ghost laws = { on_per word_of (partial_equiv_from_equiv nat_eq_equiv) };

    fn eq(&self, other: &NodeSet) -> bool {
        self.bits == other.bits
    }
}

impl Eq for NodeSet {
    ghost laws = { on_equiv word_of nat_eq_equiv };
}
