//! An observer, which hears posts one after another.

ghost use Rattle.std.specs.Prelude.{◌≡◌, ℕ, ◌<◌, ◌≤◌, true, ◌++◌, ◌∷◌, [], List, length, drop, Some, None, IfOk, OnOk, OnErr, IfSome, IfNone, is_some, slice_get, slice_index_or, slice_set, replicate, if◌then◌else◌};
ghost use Rattle.std.specs.Option.{option_and_then};
ghost use Rattle.hb_base.specs.Limits.{most_epochs};
ghost use Rattle.hb_wire.specs.declared.items.Item.{Item};
ghost use Rattle.hb_wire.specs.declared.post.Post.{Post};
ghost use Rattle.hb_wire.specs.Glances.{IsClosedRest};
ghost use Rattle.hb_wire.specs.Lists.{listed};
ghost use Rattle.hb_wire.specs.Reading.{vote_at};
ghost use Rattle.acs_world.specs.Closed.{closing};
ghost use Rattle.hb_rules.specs.History.{IsLegal};
ghost use Rattle.hb_rules.specs.Strings.{NoCollision};
ghost use Rattle.observer.specs.Agreeing.{AreOf, AgreesWithNodes};
ghost use Rattle.observer.specs.Observed.{in_run, claim_of, adds_node, observed};
ghost use Rattle.observer.specs.Claims.{Sets};
ghost use Rattle.observer.specs.Standing.{HasHeard, list_at, ledger_of, closes_one, takes, taken_with};

use crate::claims::Claims;
use hb_base::{Bytes, Config, NodeSet};
use hb_wire::{Post, glance};
use std::alloc::{AllocError, Global};
use std::marker::Model;

/// The first byte of a closed vote.
pub(crate) const CLOSED: u8 = 0x12;

/// What came of a post that was heard.
#[derive(Clone, Copy, Debug, PartialEq, Eq)]
pub enum Heard {
    /// It adds no node to a claim.
    Nothing,
    /// Its node is counted for its claim.
    Counted,
}

/// One that hears posts and votes nothing. It takes the list of an epoch once f + 1 nodes' desks have closed the epoch with it:
/// one of them is correct (CCS 2016, section 4). Clauses see an `ObserverView`, and `HasHeard` says for which posts it stands.
///
/// A post takes one look-up, in time logarithmic in the number of claims that were heard. No bytes are copied.
#[derive(Drop)]
pub struct Observer {
    config: Config,
    claims: Claims,
    taken: Vec<Option<Bytes>>,
}

impl Model for Observer {
    ghost use Rattle.observer.specs.Standing.{ObserverView, IsSoundView};

    ghost Value = { ObserverView };

    ghost view = { λ o. record { config = o.config; claims = o.claims; taken = o.taken.items } };

    ghost invariant = { λ o. IsSoundView (record { config = o.config; claims = o.claims; taken = o.taken.items }) };
}

impl Observer {
    /// An observer of a run with these numbers that has heard nothing.
    pub fn new(alloc: Global, config: &Config) -> Result<Observer, AllocError>
        ensures config { IfOk result (λ o. o.config ≡ config.now) }
        ensures heard { IfOk result (λ o. HasHeard o []) }
    {
        let taken = no_lists(alloc, config.epochs())?;
        Ok(Observer {
            config: *config,
            claims: Claims::new(alloc),
            taken,
        })
    }

    /// The numbers of the run.
    pub fn config(&self) -> &Config
        ensures { result.now ≡ self.now.config }
    {
        &self.config
    }

    /// Hears a post. As long as all that it hears stands in one legal history in which no two hashed strings share a digest, of
    /// its ledger and that of any correct node one begins with the other, and each list has the batches of n - f nodes at least
    /// (CCS 2016, section 4). After an error the observer is as before.
    pub fn hear(&mut self, post: &Post) -> Result<Heard, AllocError>
        ensures config { self.new.config ≡ self.old.config }
        ensures heard { OnOk result ((heard : List Post) → HasHeard self.old heard → HasHeard self.new (heard ++ post.now ∷ [])) }
        ensures exact { IfOk result (λ answer. (heard : List Post) → HasHeard self.old heard
            → answer ≡ (if adds_node self.old.config heard post.now then Heard.Counted else Heard.Nothing)) }
        ensures err { OnErr result (self.new ≡ self.old) }
        ensures agrees { OnOk result ((heard history : List Post) → HasHeard self.old heard → AreOf history (heard ++ post.now ∷ [])
            → IsLegal self.old.config history → NoCollision self.old.config history → AgreesWithNodes self.old.config history (ledger_of self.new)) }
    {
        // what this call ensures says that the numbers of the run are sound
        let _sound = self.config.liars();
        let Some(epoch) = claimed_epoch(&self.config, post) else {
            return Ok(Heard::Nothing);
        };
        let bytes = post.bytes.as_bytes();
        let mut nodes = self.claims.nodes(bytes);
        if nodes.has(post.from) {
            return Ok(Heard::Nothing);
        }
        nodes.add(post.from);
        self.count(epoch, nodes, bytes)?;
        Ok(Heard::Counted)
    }

    // Says which nodes have made the claim of these bytes, and takes its list where they are the first f + 1 of the epoch. After
    // an error the observer is as before.
    fn count(&mut self, epoch: u8, nodes: NodeSet, bytes: &Bytes) -> Result<(), AllocError>
        requires inside { epoch < self.old.config.epochs }
        requires closes { closes_one self.old.config (Some bytes.now) ≡ true }
        ensures config { self.new.config ≡ self.old.config }
        ensures claims { OnOk result (Sets self.old.claims self.new.claims bytes.now nodes) }
        ensures taken { OnOk result (self.new.taken ≡ taken_with self.old epoch nodes bytes.now) }
        ensures err { OnErr result (self.new ≡ self.old) }
    {
        if !self.takes(epoch, &nodes) {
            return self.claims.set(bytes, nodes);
        }
        let taken = bytes.clone()?;
        self.claims.set(bytes, nodes)?;
        put(&mut self.taken, epoch as usize, taken);
        Ok(())
    }

    // Whether these are f + 1 nodes, and the epoch has no list.
    fn takes(&self, epoch: u8, nodes: &NodeSet) -> bool
        requires { epoch < self.now.config.epochs }
        ensures { result ≡ takes self.now epoch nodes.now }
    {
        self.taken[epoch as usize].is_none() && nodes.count() > self.config.f()
    }

    /// How many epochs the observed ledger has: those from epoch 0 up to the first without a list. It takes no memory.
    pub fn epochs(&self) -> u32
        ensures value { result ≡ length (ledger_of self.now) }
        ensures few { result ≤ most_epochs }
        ensures observed { (heard : List Post) → HasHeard self.now heard → result ≡ length (observed self.now.config heard) }
    {
        for epoch in 0..self.config.epochs() {
            if !self.has_list(epoch) {
                return u32::from(epoch);
            }
        }
        u32::from(self.config.epochs())
    }

    // Whether the epoch has a list.
    fn has_list(&self, epoch: u8) -> bool
        requires { epoch < self.now.config.epochs }
        ensures { result ≡ is_some (list_at self.now epoch) }
    {
        self.taken[epoch as usize].is_some()
    }

    /// The list of an epoch of the observed ledger: what its vote has behind kind and epoch, of which `item` of hb_wire gives the
    /// items. It takes no memory.
    pub fn list(&self, e: u32) -> &[u8]
        requires { e < length (ledger_of self.now) }
        ensures value { slice_get (ledger_of self.now) e ≡ Some (listed result.now) }
        ensures shown { IsClosedRest result.now (listed result.now) }
        ensures observed { (heard : List Post) → HasHeard self.now heard
            → slice_get (observed self.now.config heard) e ≡ Some (listed result.now) }
    {
        rest_of(bytes_at(self.taken.as_slice(), e as usize))
    }
}

// The bytes in a place.
fn bytes_at(lists: &[Option<Bytes>], place: usize) -> &[u8]
    requires { place < length lists.now }
    ensures { (bytes : List ℕ) → slice_index_or lists.now place None ≡ Some bytes → result.now ≡ bytes }
{
    match &lists[place] {
        Some(bytes) => bytes.as_slice(),
        None => &[],
    }
}

// The bytes behind the first two.
fn rest_of(bytes: &[u8]) -> &[u8]
    requires { 2 ≤ length bytes.now }
    ensures { result.now ≡ drop 2 bytes.now }
{
    &bytes[2..]
}

// Puts bytes into a place.
fn put(lists: &mut Vec<Option<Bytes>>, place: usize, bytes: Bytes)
    requires { place < length lists.old.items }
    ensures { lists.new.items ≡ slice_set lists.old.items place (Some bytes) }
{
    lists[place] = Some(bytes);
}

// So many places with no list.
fn no_lists(alloc: Global, count: u8) -> Result<Vec<Option<Bytes>>, AllocError>
    ensures { IfOk result (λ lists. lists.items ≡ replicate count None) }
{
    let mut lists = Vec::new(alloc);
    for _ in 0..count {
        lists.push(None)?;
    }
    Ok(lists)
}

// The epoch of what a post claims, if it claims anything.
fn claimed_epoch(config: &Config, post: &Post) -> Option<u8>
    ensures none { IfNone result (claim_of config.now post.now ≡ None) }
    ensures some { IfSome result (λ epoch. (list : List Item) × (claim_of config.now post.now ≡ Some (epoch, list))) }
{
    if post.from >= config.n() || post.actor != config.n() {
        return None;
    }
    closed_epoch(config, post.bytes.as_slice())
}

// The epoch of the run that the vote closes that these bytes spell, if they spell one that does.
fn closed_epoch(config: &Config, bytes: &[u8]) -> Option<u8>
    ensures none { IfNone result (in_run config.now (option_and_then closing (vote_at config.now.n config.now.version bytes.now)) ≡ None) }
    ensures some { IfSome result (λ epoch. (list : List Item)
        × (in_run config.now (option_and_then closing (vote_at config.now.n config.now.version bytes.now)) ≡ Some (epoch, list))) }
{
    let glance = glance(config.n(), config.version(), bytes)?;
    if glance.kind != CLOSED || glance.epoch >= config.epochs() {
        return None;
    }
    Some(glance.epoch)
}
