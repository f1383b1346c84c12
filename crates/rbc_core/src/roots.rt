//! What was heard of each root of a broadcast.
ghost use Rattle.std.specs.Prelude.{◌≡◌, ℕ, ◌^◌, ◌<◌, ◌≤◌, List, [], ◌∷◌, ◌++◌, length, true, false, is_some, All, IsOk, OnOk, OnErr, IfOk, None};
ghost use Rattle.std.specs.Option.{option_copied};
ghost use Rattle.hb_base.specs.Counting.{count_nodes};
ghost use Rattle.hb_base.specs.Limits.{most_nodes};
ghost use Rattle.hb_base.specs.NodeSet.{is_in};
ghost use Rattle.rs_shards.specs.Rebuilding.{AreShards};
ghost use Rattle.hb_rules.specs.Code.{data_count};
ghost use Rattle.hb_rules.specs.BroadcastRows.{value_through};
ghost use Rattle.rbc_core.specs.RootViews.{first_with};
ghost use Rattle.rbc_core.specs.Roots.{found, view_at, IsRootView, value_with, after_echo, after_ready, Finds, IsUnchanged};

use crate::checking::value_through;
use crate::root_state::{RootCounts, RootState};
use hb_base::{Bytes, Config};
use std::alloc::{AllocError, Global};
use std::collections::BTreeMap;
use std::marker::Model;

// What was heard of each root of one broadcast. A root is found in time logarithmic in their number, which is that of the
// roots that votes named: a correct node names one, a liar as many as it says. Clauses see a `RootsView`.
#[derive(Drop)]
pub(crate) struct Roots {
    config: Config,

    // A leaf of the map has room for 11 states and mostly holds one, so they stand in boxes.
    by_root: BTreeMap<[u8; 32], Box<RootState>>,
}

impl Model for Roots {
    ghost use Rattle.rbc_core.specs.Roots.{RootsView, AreRootViews};
    ghost use Rattle.rbc_core.specs.Tables.{table_of};

    ghost Value = { RootsView };

    ghost view = { λ r. record { config = r.config; table = table_of r.by_root } };

    ghost invariant = { λ r. AreRootViews (record { config = r.config; table = table_of r.by_root }) };
}

impl Roots {
    // No root was heard of. It takes no memory.
    pub(crate) fn new(alloc: Global, config: &Config) -> Roots
        ensures config { result.config ≡ config.now }
        ensures none { (root : List ℕ) → found result root ≡ None }
    {
        let k = config.k();
        prove!(k >= 1);
        Roots {
            config: *config,
            by_root: BTreeMap::new(alloc),
        }
    }

    pub(crate) fn config(&self) -> &Config
        ensures { result.now ≡ self.now.config }
    {
        &self.config
    }

    // How many nodes echoed a root validly and how many are ready for it, and whether this one did and is.
    pub(crate) fn counts(&self, root: &[u8; 32], node: u8) -> RootCounts
        ensures echoes { result.echoes ≡ count_nodes most_nodes (is_in (view_at self.now root.now).echoes) }
        ensures readies { result.readies ≡ count_nodes most_nodes (is_in (view_at self.now root.now).readies) }
        ensures few_echoes { result.echoes ≤ most_nodes }
        ensures few_readies { result.readies ≤ most_nodes }
        ensures has_echoed { result.has_echoed ≡ is_in (view_at self.now root.now).echoes node }
        ensures is_ready { result.is_ready ≡ is_in (view_at self.now root.now).readies node }
        ensures sound { IsRootView self.now.config root.now (view_at self.now root.now) }
    {
        match self.by_root.get(root) {
            Some(state) => state.as_ref().counts(node),
            None => RootCounts {
                echoes: 0,
                readies: 0,
                has_echoed: false,
                is_ready: false,
            },
        }
    }

    // The value to which the first k shards of a root rebuild, if there are so many and they do.
    pub(crate) fn value(&self, root: &[u8; 32]) -> Option<&Bytes>
        ensures { option_copied result ≡ (view_at self.now root.now).value }
    {
        match self.by_root.get(root) {
            Some(state) => {
                let state = state.as_ref();
                state.value.as_ref()
            }
            None => None,
        }
    }

    // The value to which the first k shards of a root rebuild once this shard of a node that has not echoed is among them. If it
    // is rebuilt now, and the shards are a frame, it stands behind `front` and its length. If they are no frame it is the empty
    // value, alone.
    pub(crate) fn value_with(
        &self,
        alloc: Global,
        front: &[u8],
        root: &[u8; 32],
        node: u8,
        shard: &Bytes,
    ) -> Result<Option<Bytes>, AllocError>
        requires known { node < self.now.config.n }
        requires short { length shard.now < 2 ^ 32 }
        requires new { is_in (view_at self.now root.now).echoes node ≡ false }
        ensures { IfOk result (λ value. value ≡ value_with self.now.config root.now (view_at self.now root.now) node shard.now) }
    {
        match self.by_root.get(root) {
            Some(state) => {
                let state = state.as_ref();
                let value = state.value.as_ref();
                value_once(
                    alloc,
                    front,
                    &self.config,
                    root,
                    &state.shards,
                    value,
                    node,
                    shard,
                )
            }
            None => value_once(alloc, front, &self.config, root, &[], None, node, shard),
        }
    }

    // Takes in a node's first valid Echo for a root, with its shard and the value to which the first k shards rebuild then.
    // Want of memory changes nothing.
    pub(crate) fn add_echo(
        &mut self,
        alloc: Global,
        root: &[u8; 32],
        node: u8,
        shard: Bytes,
        value: Option<Bytes>,
    ) -> Result<(), AllocError>
        requires known { node < self.old.config.n }
        requires short { length shard < 2 ^ 32 }
        requires new { is_in (view_at self.old root.now).echoes node ≡ false }
        requires value { value ≡ value_with self.old.config root.now (view_at self.old root.now) node shard }
        ensures ok { OnOk result (Finds self.old self.new root.now (after_echo self.old.config root.now (view_at self.old root.now) node shard)) }
        ensures err { OnErr result (IsUnchanged self.old self.new) }
    {
        let n = self.config.n();
        prove!(node < n);
        let k = self.config.k();
        match self.by_root.get_mut(root) {
            Some(state) => state.as_mut().add_echo(k, node, shard, value),
            None => {
                let mut state = RootState::new(alloc);
                state.add_echo(k, node, shard, value)?;
                let boxed = Box::new(alloc, state)?;
                self.by_root.insert(*root, boxed)?;
                Ok(())
            }
        }
    }

    // Takes in a node's first Ready for a root. Where the root is known it takes no memory. Want of memory changes nothing.
    pub(crate) fn add_ready(
        &mut self,
        alloc: Global,
        root: &[u8; 32],
        node: u8,
    ) -> Result<(), AllocError>
        requires known { node < self.old.config.n }
        requires new { is_in (view_at self.old root.now).readies node ≡ false }
        ensures ok { OnOk result (Finds self.old self.new root.now (after_ready (view_at self.old root.now) node)) }
        ensures err { OnErr result (IsUnchanged self.old self.new) }
        ensures enough { is_some (found self.old root.now) ≡ true → IsOk result }
    {
        let n = self.config.n();
        prove!(node < n);
        match self.by_root.get_mut(root) {
            Some(state) => {
                let state = state.as_mut();
                state.readies.add(node);
                Ok(())
            }
            None => {
                let mut state = RootState::new(alloc);
                state.readies.add(node);
                let boxed = Box::new(alloc, state)?;
                self.by_root.insert(*root, boxed)?;
                Ok(())
            }
        }
    }
}

// The value to which the first k shards of a root rebuild once there is one more, where they rebuilt to this.
fn value_once(
    alloc: Global,
    front: &[u8],
    config: &Config,
    root: &[u8; 32],
    shards: &[(u8, Bytes)],
    value: Option<&Bytes>,
    node: u8,
    shard: &Bytes,
) -> Result<Option<Bytes>, AllocError>
    requires shards { AreShards config.now.n (shards.now ++ (node, shard.now) ∷ []) }
    requires short { All (λ x. length x.1 < 2 ^ 32) (shards.now ++ (node, shard.now) ∷ []) }
    requires few { length shards.now ≤ data_count config.now }
    requires value { option_copied value ≡ value_through config.now root.now shards.now }
    ensures { IfOk result (λ answer. answer ≡ value_through config.now root.now (first_with (data_count config.now) shards.now (node, shard.now))) }
{
    let k = config.k() as usize;
    if shards.len() == k {
        return copy_of(value);
    }
    if shards.len() + 1 < k {
        return Ok(None);
    }
    let got = with_shard(alloc, shards, node, shard)?;
    value_through(alloc, front, config, root, &got)
}

// One more owner of the value, if there is one.
pub(crate) fn copy_of(value: Option<&Bytes>) -> Result<Option<Bytes>, AllocError>
    ensures copy { IfOk result (λ copy. copy ≡ option_copied value.entry) }
    ensures none { value.entry ≡ None → IsOk result }
{
    match value {
        Some(value) => Ok(Some(value.clone()?)),
        None => Ok(None),
    }
}

// Shards and one more. It copies none of their bytes.
fn with_shard(
    alloc: Global,
    shards: &[(u8, Bytes)],
    node: u8,
    shard: &Bytes,
) -> Result<Vec<(u8, Bytes)>, AllocError>
    ensures { IfOk result (λ got. got.items ≡ shards.now ++ (node, shard.now) ∷ []) }
{
    let mut got = Vec::with_capacity(alloc, shards.len() + 1)?;
    for other in shards {
        got.push((other.0, other.1.clone()?))?;
    }
    got.push((node, shard.clone()?))?;
    Ok(got)
}
