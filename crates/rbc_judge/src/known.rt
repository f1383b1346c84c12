//! What was worked out last for each lane. The nodes of a broadcast look at one value and at the same shards, one after another.
ghost use Rattle.std.specs.Prelude.{◌≡◌, ◌<◌, ◌≤◌, ◌^◌, true, All, length, IfOk};
ghost use Rattle.hb_base.specs.Limits.{longest_value};
ghost use Rattle.rs_shards.specs.Completing.{encoded};
ghost use Rattle.rs_shards.specs.Rebuilding.{AreShards};
ghost use Rattle.hb_rules.specs.BroadcastRows.{val_of, value_through};
ghost use Rattle.hb_rules.specs.Code.{data_count};

use hb_base::{Bytes, Config};
use hb_wire::Vote;
use merkle_branch::Tree;
use rbc_core::{tree_over, value_through};
use rs_shards::encode;
use std::alloc::{AllocError, Global};
use std::collections::BTreeMap;
use std::marker::Model;

// The codeword of a value, and the tree over it.
#[derive(Drop)]
struct Encoding {
    n: u8,
    k: u8,
    value: Bytes,
    shards: Vec<Bytes>,
    tree: Tree,
}

impl Model for Encoding {
    ghost use Rattle.rbc_judge.specs.Known.{EncodingView, IsEncoded};

    ghost Value = { EncodingView };

    ghost view = { λ e. record { n = e.n; k = e.k; value = e.value; shards = e.shards.items; tree = e.tree } };

    ghost invariant = { λ e. IsEncoded (record { n = e.n; k = e.k; value = e.value; shards = e.shards.items; tree = e.tree }) };
}

impl Encoding {
    fn of(alloc: Global, config: &Config, value: &Bytes) -> Result<Encoding, AllocError>
        requires { length value.now ≤ longest_value }
        ensures n { IfOk result (λ e. e.n ≡ config.now.n) }
        ensures k { IfOk result (λ e. e.k ≡ data_count config.now) }
        ensures value { IfOk result (λ e. e.value ≡ value.now) }
    {
        let n = config.n();
        let k = config.k();
        let shards = encode(alloc, n, k, value.as_slice())?;
        let tree = tree_over(alloc, &shards)?;
        Ok(Encoding {
            n,
            k,
            value: value.clone()?,
            shards,
            tree,
        })
    }

    // Whether it is of this value in a run with this config.
    fn is_of(&self, config: &Config, value: &Bytes) -> bool
        ensures n { result ≡ true → self.now.n ≡ config.now.n }
        ensures k { result ≡ true → self.now.k ≡ data_count config.now }
        ensures value { result ≡ true → self.now.value ≡ value.now }
    {
        self.n == config.n() && self.k == config.k() && self.value.as_slice() == value.as_slice()
    }

    // The Val to a node.
    fn val(&self, epoch: u8, target: u8) -> Result<Vote, AllocError>
        requires { target < self.now.n }
        ensures { IfOk result (λ vote. vote ≡ val_of epoch target (encoded self.now.n self.now.k self.now.value)) }
    {
        Ok(Vote::Val {
            epoch,
            target,
            root: self.tree.root(),
            shard: self.shards[target as usize].clone()?,
            branch: self.tree.branch(target),
        })
    }
}

// The value to which shards rebuild under a root, if they do.
#[derive(Drop)]
struct Rebuilding {
    n: u8,
    f: u8,
    root: [u8; 32],
    shards: Vec<(u8, Bytes)>,
    value: Option<Bytes>,
}

impl Model for Rebuilding {
    ghost use Rattle.rbc_judge.specs.Known.{RebuildingView, IsRebuilding};

    ghost Value = { RebuildingView };

    ghost view = { λ r. record { n = r.n; f = r.f; root = r.root; shards = r.shards.items; value = r.value } };

    ghost invariant = { λ r. IsRebuilding (record { n = r.n; f = r.f; root = r.root; shards = r.shards.items; value = r.value }) };
}

impl Rebuilding {
    // Whether it is of these shards under this root, in a run with this config.
    fn is_of(&self, config: &Config, root: &[u8; 32], shards: &[(u8, Bytes)]) -> bool
        ensures { result ≡ true → self.now.value ≡ value_through config.now root.now shards.now }
    {
        self.n == config.n()
            && self.f == config.f()
            && self.root == *root
            && are_same(&self.shards, shards)
    }
}

// Whether these are the same shards of the same nodes.
fn are_same(some: &[(u8, Bytes)], others: &[(u8, Bytes)]) -> bool
    ensures { result ≡ true → some.now ≡ others.now }
{
    if some.len() != others.len() {
        return false;
    }
    for place in 0..some.len() {
        let (node, shard) = &some[place];
        let (other, bytes) = &others[place];
        if *node != *other || shard.as_slice() != bytes.as_slice() {
            return false;
        }
    }
    true
}

/// What was worked out last for each lane: a value that was encoded, and shards that were rebuilt.
#[derive(Drop)]
pub struct Known {
    encodings: BTreeMap<u8, Encoding>,
    rebuildings: BTreeMap<u8, Rebuilding>,
}

impl Known {
    /// Nothing. It takes no memory.
    pub fn new(alloc: Global) -> Known {
        Known {
            encodings: BTreeMap::new(alloc),
            rebuildings: BTreeMap::new(alloc),
        }
    }

    // The Val to a node of a value that is broadcast in a lane.
    pub(crate) fn val_of(
        &mut self,
        alloc: Global,
        config: &Config,
        lane: u8,
        epoch: u8,
        target: u8,
        value: &Bytes,
    ) -> Result<Vote, AllocError>
        requires short { length value.now ≤ longest_value }
        requires target { target < config.now.n }
        ensures { IfOk result (λ vote. vote ≡ val_of epoch target (encoded config.now.n (data_count config.now) value.now)) }
    {
        if let Some(encoding) = self.encodings.get(&lane) {
            if encoding.is_of(config, value) {
                return encoding.val(epoch, target);
            }
        }
        let encoding = Encoding::of(alloc, config, value)?;
        let val = encoding.val(epoch, target)?;
        self.encodings.insert(lane, encoding)?;
        Ok(val)
    }

    // The value to which k shards of a lane's broadcast rebuild under a root, if they do.
    pub(crate) fn value_through(
        &mut self,
        alloc: Global,
        config: &Config,
        lane: u8,
        root: &[u8; 32],
        shards: Vec<(u8, Bytes)>,
    ) -> Result<Option<Bytes>, AllocError>
        requires shards { AreShards config.now.n shards.items }
        requires short { All (λ x. length x.1 < 2 ^ 32) shards.items }
        requires enough { length shards.items ≡ data_count config.now }
        ensures { IfOk result (λ value. value ≡ value_through config.now root.now shards.items) }
    {
        if let Some(known) = self.rebuildings.get(&lane) {
            if known.is_of(config, root, &shards) {
                return known.value.clone();
            }
        }
        let value = value_through(alloc, &[], config, root, &shards)?;
        let rebuilding = Rebuilding {
            n: config.n(),
            f: config.f(),
            root: *root,
            shards,
            value: value.clone()?,
        };
        self.rebuildings.insert(lane, rebuilding)?;
        Ok(value)
    }
}
