//! Which nodes have made each claim.

ghost use Rattle.std.specs.Prelude.{◌≡◌, [], OnOk, OnErr};
ghost use Rattle.observer.specs.Claims.{nodes_at, Sets};

use hb_base::{Bytes, NodeSet};
use std::alloc::{AllocError, Global};
use std::collections::BTreeMap;
use std::marker::Model;

/// For each claim, which is told by the bytes of its vote, the nodes that have made it. A look-up takes time logarithmic in the
/// number of claims. The bytes are shared, not copied.
#[derive(Drop)]
pub(crate) struct Claims {
    by_bytes: BTreeMap<Bytes, NodeSet>,
}

impl Model for Claims {
    ghost use Rattle.observer.specs.Claims.{Table};

    ghost Value = { Table };

    ghost view = { λ c. c.by_bytes.entries };
}

impl Claims {
    /// No claim. It takes no memory.
    pub(crate) fn new(alloc: Global) -> Claims
        ensures { result ≡ [] }
    {
        Claims {
            by_bytes: BTreeMap::new(alloc),
        }
    }

    /// The nodes that have made a claim.
    pub(crate) fn nodes(&self, bytes: &Bytes) -> NodeSet
        ensures { result ≡ nodes_at self.now bytes.now }
    {
        match self.by_bytes.get(bytes) {
            Some(nodes) => *nodes,
            None => NodeSet::new(),
        }
    }

    /// Says which nodes have made a claim. After an error all is as before.
    pub(crate) fn set(&mut self, bytes: &Bytes, nodes: NodeSet) -> Result<(), AllocError>
        ensures ok { OnOk result (Sets self.old self.new bytes.now nodes) }
        ensures err { OnErr result (self.new ≡ self.old) }
    {
        let key = bytes.clone()?;
        self.by_bytes.insert(key, nodes)?;
        Ok(())
    }
}
