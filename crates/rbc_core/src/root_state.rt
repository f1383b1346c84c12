//! What was heard of one root.
ghost use Rattle.std.specs.Prelude.{◌≡◌, ◌<◌, ◌≤◌, length, false, OnOk, OnErr};
ghost use Rattle.hb_base.specs.Counting.{count_nodes};
ghost use Rattle.hb_base.specs.Limits.{most_nodes};
ghost use Rattle.hb_base.specs.NodeSet.{is_in};
ghost use Rattle.rbc_core.specs.RootViews.{root_view, unheard, with_echo};

use hb_base::Bytes;
use hb_rules::Voters;
use std::alloc::{AllocError, Global};

// How many nodes echoed a root validly and how many are ready for it, and whether one node did and is.
#[derive(Clone, Copy, Debug)]
pub(crate) struct RootCounts {
    pub(crate) echoes: u8,
    pub(crate) readies: u8,
    pub(crate) has_echoed: bool,
    pub(crate) is_ready: bool,
}

// What was heard of a root.
#[derive(Debug, Drop)]
pub(crate) struct RootState {
    pub(crate) echoes: Voters,
    pub(crate) readies: Voters,

    // The shards of the first k nodes that echoed, in order of receipt.
    pub(crate) shards: Vec<(u8, Bytes)>,

    // The value to which these k rebuild.
    pub(crate) value: Option<Bytes>,
}

impl RootState {
    // Nothing. It takes no memory.
    pub(crate) fn new(alloc: Global) -> RootState
        ensures { root_view result ≡ unheard }
    {
        RootState {
            echoes: Voters::none(),
            readies: Voters::none(),
            shards: Vec::new(alloc),
            value: None,
        }
    }

    // How many nodes echoed and are ready, and whether this one did and is.
    pub(crate) fn counts(&self, node: u8) -> RootCounts
        ensures echoes { result.echoes ≡ count_nodes most_nodes (is_in (root_view self.now).echoes) }
        ensures readies { result.readies ≡ count_nodes most_nodes (is_in (root_view self.now).readies) }
        ensures has_echoed { result.has_echoed ≡ is_in (root_view self.now).echoes node }
        ensures is_ready { result.is_ready ≡ is_in (root_view self.now).readies node }
    {
        RootCounts {
            echoes: self.echoes.count(),
            readies: self.readies.count(),
            has_echoed: self.echoes.has(node),
            is_ready: self.readies.has(node),
        }
    }

    // Takes in the first valid Echo of a node, with its shard and the value to which the first k shards rebuild then. Want
    // of memory changes nothing.
    pub(crate) fn add_echo(
        &mut self,
        k: u8,
        node: u8,
        shard: Bytes,
        value: Option<Bytes>,
    ) -> Result<(), AllocError>
        requires known { node < most_nodes }
        requires new { is_in self.old.echoes node ≡ false }
        requires few { length self.old.shards.items ≤ k }
        ensures ok { OnOk result (root_view self.new ≡ with_echo k (root_view self.old) node shard value) }
        ensures err { OnErr result (root_view self.new ≡ root_view self.old) }
    {
        if self.shards.len() < k as usize {
            self.shards.push((node, shard))?;
        }
        self.echoes.add(node);
        self.value = value;
        Ok(())
    }
}
