//! The state of a broadcast, and which votes become due as it hears votes.
ghost use Rattle.std.specs.Prelude.{◌≡◌, ℕ, ◌+◌, ◌^◌, ◌<◌, ◌≤◌, true, false, not, ◌&&◌, ◌||◌, nat_lt, [], ◌++◌, List, length, None, Some, is_some, IsOk, IfOk, OnOk, OnErr, if◌then◌else◌};
ghost use Rattle.std.specs.List.{filter};
ghost use Rattle.std.specs.Option.{option_copied, option_map, option_to_list};
ghost use Rattle.hb_base.specs.Limits.{most_nodes, longest_value};
ghost use Rattle.hb_base.specs.NodeSet.{is_in};
ghost use Rattle.hb_wire.specs.declared.vote.Vote.{Vote};
ghost use Rattle.hb_wire.specs.declared.vote.Vote.TheVariants.{Propose, Val, Echo, Ready, Delivered};
ghost use Rattle.merkle_branch.specs.Branches.{branch_of, is_branch};
ghost use Rattle.merkle_branch.specs.Digests.{leaf_digests, root_of};
ghost use Rattle.hb_rules.specs.Claims.{delivered};
ghost use Rattle.hb_rules.specs.Hearing.{Hearing, hearing};
ghost use Rattle.hb_rules.specs.History.{HasSpelling};
ghost use Rattle.hb_rules.specs.Parts.{in_broadcast};
ghost use Rattle.hb_rules.specs.Room.{KeepsRoom};
ghost use Rattle.hb_rules.specs.Slots.{first_of};
ghost use Rattle.hb_rules.specs.Terms.{AreSpelled};
ghost use Rattle.rbc_core.specs.Broadcast.{place_of, IsShort, Stands, Hears, KeepsStanding, Marks, MakesNoDelivery, IsFurtherReady};
ghost use Rattle.rbc_core.specs.Due.{is_ready_by, is_delivery_by, unless, missing_vals};
ghost use Rattle.rbc_core.specs.Roots.{found};
ghost use Rattle.rbc_core.specs.RootVotes.{votes_in, after_votes};

use crate::checking::tree_over;
use crate::roots::{Roots, copy_of};
use hb_base::{Bytes, Config, NodeSet};
use hb_rules::Due;
use hb_wire::{Spoken, Vote, front_of_delivered};
use merkle_branch::{Branch, Tree, is_branch};
use rs_shards::encode;
use std::alloc::{AllocError, Global};
use std::marker::Model;

/// One node's state of the broadcast of one lane in one epoch (CCS 2016, figure 2): which votes its lane has cast, and for
/// each root who echoed it validly, the shards of the first k who did, what these rebuild to, and who is ready for it.
/// Clauses see an `RbcView`.
#[derive(Drop)]
pub struct Rbc {
    node: u8,
    lane: u8,
    epoch: u8,
    vals: NodeSet,
    is_echo_cast: bool,
    is_ready_cast: bool,
    delivered: Option<Bytes>,
    roots: Roots,
}

impl Model for Rbc {
    ghost use Rattle.std.specs.Prelude.{◌<◌};
    ghost use Rattle.rbc_core.specs.Broadcast.{RbcView};

    ghost Value = { RbcView };

    ghost view = { λ r. record {
      node = r.node;
      lane = r.lane;
      epoch = r.epoch;
      vals = r.vals;
      is_echo_cast = r.is_echo_cast;
      is_ready_cast = r.is_ready_cast;
      delivered = r.delivered;
      roots = r.roots;
    } };

    ghost invariant = { λ r. r.node < r.roots.config.n };
}

// Whether a root makes a Ready due, and the value that it makes a delivery of, if it does: once for the vote, once to keep.
#[derive(Debug, Drop)]
struct RootVotes {
    is_ready_due: bool,
    delivery: Option<Bytes>,
    delivered: Option<Bytes>,
}

impl Rbc {
    /// The state of a lane that has cast these votes, of any epoch and part, and has heard nothing since.
    pub fn rebuild(
        alloc: Global,
        config: &Config,
        node: u8,
        lane: u8,
        epoch: u8,
        own: &[Vote],
    ) -> Result<Rbc, AllocError>
        requires node { node < config.now.n }
        requires own { AreSpelled config.now own.now }
        ensures place { IfOk result (λ r. place_of r ≡ record { config = config.now; node = node; lane = lane; epoch = epoch }) }
        ensures stands { IfOk result (λ r. Stands r own.now []) }
        ensures part { IfOk result (λ r. Stands r (filter (in_broadcast epoch) own.now) []) }
    {
        let n = config.n();
        prove!(node < n);
        let k = config.k();
        prove!(k >= 1);
        let mut rbc = Rbc {
            node,
            lane,
            epoch,
            vals: NodeSet::new(),
            is_echo_cast: false,
            is_ready_cast: false,
            delivered: None,
            roots: Roots::new(alloc, config),
        };
        for vote in own {
            rbc.mark(vote)?;
        }
        Ok(rbc)
    }

    /// Hears a vote that node `from` has cast, and adds the votes that it makes due. It does not heed a vote of another
    /// epoch or kind, a Val of another node than the sender or for another node, a Val or an Echo whose branch is not valid,
    /// or a proposal of another node. Want of memory changes nothing; a Ready for a known root that makes no delivery due
    /// takes none where there is room for one vote. Of the room that there was it uses that of n + 2 votes at most.
    pub fn hear(
        &mut self,
        alloc: Global,
        from: u8,
        vote: &Spoken,
        due: &mut Due,
    ) -> Result<(), AllocError>
        requires from { from < (place_of self.old).config.n }
        requires short { IsShort vote.now }
        ensures ok { OnOk result (Hears self.old self.new (hearing from vote.now) due.old.votes due.new.votes) }
        ensures err { OnErr result (KeepsStanding self.old self.new) }
        ensures due { OnErr result (due.new.votes ≡ due.old.votes) }
        ensures enough { IsFurtherReady self.old from vote.now → 1 ≤ due.old.spare → IsOk result }
        ensures room { due.old.spare ≤ due.new.spare + (place_of self.old).config.n + 2 }
        ensures keeps_room { KeepsRoom due.old due.new }
    {
        if vote.epoch() != self.epoch {
            return Ok(());
        }
        match vote.vote() {
            Vote::Propose { value, .. } => self.hear_proposal(alloc, from, value, due),
            Vote::Val {
                target,
                root,
                shard,
                branch,
                ..
            } => self.hear_val(from, *target, root, shard, branch, due),
            Vote::Echo {
                root,
                shard,
                branch,
                ..
            } => {
                let n = self.roots.config().n();
                let is_valid = vote.is_valid_echo(n, from);
                self.hear_echo(alloc, from, is_valid, root, shard, branch, due)
            }
            Vote::Ready { root, .. } => self.hear_ready(alloc, from, root, due),
            _ => Ok(()),
        }
    }

    /// The value that the lane has delivered: None exactly where it hasn't cast its Delivered.
    pub fn delivered(&self) -> Option<&Bytes>
        ensures value { option_copied result ≡ self.now.delivered }
        ensures cast { (own : List Vote) (heard : List Hearing) → Stands self.now own heard
            → option_copied result ≡ first_of (delivered (place_of self.now).epoch) own }
    {
        self.delivered.as_ref()
    }

    // Marks a vote that the lane has cast.
    fn mark(&mut self, vote: &Vote) -> Result<(), AllocError>
        requires few { (place_of self.old).config.n ≤ most_nodes }
        requires spelled { HasSpelling (place_of self.old).config vote.now }
        ensures { OnOk result (Marks self.old self.new vote.now) }
    {
        if vote.epoch() != self.epoch {
            return Ok(());
        }
        match vote {
            Vote::Val { target, .. } => {
                self.vals.add(*target);
                Ok(())
            }
            Vote::Echo { .. } => {
                self.is_echo_cast = true;
                Ok(())
            }
            Vote::Ready { .. } => {
                self.is_ready_cast = true;
                Ok(())
            }
            Vote::Delivered { value, .. } => {
                let value = value.clone()?;
                self.delivered = self.delivered.take().or(Some(value));
                Ok(())
            }
            _ => Ok(()),
        }
    }

    // A desk proposes. At the sender's own desk each node that has none gets its shard of the value.
    fn hear_proposal(
        &mut self,
        alloc: Global,
        from: u8,
        value: &Bytes,
        due: &mut Due,
    ) -> Result<(), AllocError>
        requires from { from < (place_of self.old).config.n }
        requires short { length value.now ≤ longest_value }
        ensures ok { OnOk result (Hears self.old self.new (hearing from (Propose self.old.epoch value.now)) due.old.votes due.new.votes) }
        ensures err { OnErr result (KeepsStanding self.old self.new) }
        ensures due { OnErr result (due.new.votes ≡ due.old.votes) }
        ensures room { due.old.spare ≤ due.new.spare + (place_of self.old).config.n }
        ensures keeps_room { KeepsRoom due.old due.new }
    {
        if from != self.node || self.node != self.lane {
            return Ok(());
        }
        let n = self.roots.config().n();
        let k = self.roots.config().k();
        let shards = encode(alloc, n, k, value.as_slice())?;
        let tree = tree_over(alloc, &shards)?;
        due.reserve(n as u32)?;
        push_vals(self.epoch, shards, &tree, &self.vals, due);
        add_below(&mut self.vals, n);
        Ok(())
    }

    // A node shows another its shard. The first that the sender shows this node, and whose branch is valid, is echoed.
    fn hear_val(
        &mut self,
        from: u8,
        target: u8,
        root: &[u8; 32],
        shard: &Bytes,
        branch: &Branch,
        due: &mut Due,
    ) -> Result<(), AllocError>
        requires { from < (place_of self.old).config.n }
        ensures ok { OnOk result (Hears self.old self.new
            (hearing from (Val self.old.epoch target root.now shard.now branch.now)) due.old.votes due.new.votes) }
        ensures err { OnErr result (KeepsStanding self.old self.new) }
        ensures due { OnErr result (due.new.votes ≡ due.old.votes) }
        ensures room { due.old.spare ≤ due.new.spare + 1 }
        ensures keeps_room { KeepsRoom due.old due.new }
    {
        if from != self.lane || target != self.node {
            return Ok(());
        }
        if self.is_echo_cast {
            return Ok(());
        }
        if !self.is_own_shard(root, shard, branch) {
            return Ok(());
        }
        due.push(Vote::Echo {
            epoch: self.epoch,
            root: *root,
            shard: shard.clone()?,
            branch: *branch,
        })?;
        self.is_echo_cast = true;
        Ok(())
    }

    // A node shows its shard of a root, which may make this node ready for the root, and deliver its value.
    fn hear_echo(
        &mut self,
        alloc: Global,
        from: u8,
        is_valid: bool,
        root: &[u8; 32],
        shard: &Bytes,
        branch: &Branch,
        due: &mut Due,
    ) -> Result<(), AllocError>
        requires from { from < (place_of self.old).config.n }
        requires few { (place_of self.old).config.n ≤ most_nodes }
        requires valid { is_valid ≡ is_branch root.now (place_of self.old).config.n from shard.now branch.now }
        requires short { length shard.now < 2 ^ 32 }
        ensures ok { OnOk result (Hears self.old self.new
            (hearing from (Echo self.old.epoch root.now shard.now branch.now)) due.old.votes due.new.votes) }
        ensures err { OnErr result (KeepsStanding self.old self.new) }
        ensures due { OnErr result (due.new.votes ≡ due.old.votes) }
        ensures room { due.old.spare ≤ due.new.spare + 2 }
        ensures keeps_room { KeepsRoom due.old due.new }
    {
        if !is_valid {
            return Ok(());
        }
        let counts = self.roots.counts(root, from);
        if counts.has_echoed {
            return Ok(());
        }
        let shard = shard.clone()?;
        let front = front_of_delivered(self.epoch);
        let value = self.roots.value_with(alloc, &front, root, from, &shard)?;
        let (is_ready_due, is_delivery_due) = self.due_by(
            counts.echoes + 1,
            counts.readies,
            value.is_some(),
        );
        let votes = root_votes(is_ready_due, is_delivery_due, value.as_ref(), due)?;
        self.roots.add_echo(alloc, root, from, shard, value)?;
        self.cast(root, votes, due);
        Ok(())
    }

    // A node is ready for a root, which may make this node ready for it, and deliver its value.
    fn hear_ready(
        &mut self,
        alloc: Global,
        from: u8,
        root: &[u8; 32],
        due: &mut Due,
    ) -> Result<(), AllocError>
        requires { from < (place_of self.old).config.n }
        ensures ok { OnOk result (Hears self.old self.new
            (hearing from (Ready self.old.epoch root.now)) due.old.votes due.new.votes) }
        ensures err { OnErr result (KeepsStanding self.old self.new) }
        ensures due { OnErr result (due.new.votes ≡ due.old.votes) }
        ensures room { due.old.spare ≤ due.new.spare + 2 }
        ensures keeps_room { KeepsRoom due.old due.new }
        ensures enough { is_some (found self.old.roots root.now) ≡ true → MakesNoDelivery self.old from root.now → 1 ≤ due.old.spare → IsOk result }
    {
        let n = self.roots.config().n();
        prove!(from < n);
        let counts = self.roots.counts(root, from);
        if counts.is_ready {
            return Ok(());
        }
        let value = self.roots.value(root);
        let (is_ready_due, is_delivery_due) = self.due_by(
            counts.echoes,
            counts.readies + 1,
            value.is_some(),
        );
        let votes = root_votes(is_ready_due, is_delivery_due, value, due)?;
        self.roots.add_ready(alloc, root, from)?;
        self.cast(root, votes, due);
        Ok(())
    }

    // Whether the branch of a shard leads from it, as the leaf of the own node, to the root.
    fn is_own_shard(&self, root: &[u8; 32], shard: &Bytes, branch: &Branch) -> bool
        ensures { result ≡ is_branch root.now (place_of self.now).config.n self.now.node shard.now branch.now }
    {
        let n = self.roots.config().n();
        is_branch(root, n, self.node, shard.as_slice(), branch)
    }

    // Whether a Ready for a root becomes due, and a delivery, where so many nodes echoed it validly, so many are ready for
    // it, and its shards rebuild or not.
    fn due_by(&self, echoes: u8, readies: u8, is_rebuilt: bool) -> (bool, bool)
        ensures ready { result.0 ≡ (not self.now.is_ready_cast && is_ready_by (place_of self.now).config echoes readies is_rebuilt) }
        ensures delivery { result.1 ≡ (not (is_some self.now.delivered) && is_delivery_by (place_of self.now).config readies is_rebuilt) }
    {
        let config = self.roots.config();
        let is_backed = echoes >= config.n() - config.f() && is_rebuilt;
        let is_ready_due = !self.is_ready_cast && (is_backed || readies >= config.f() + 1);
        let is_carried = readies >= 2 * config.f() + 1 && is_rebuilt;
        let is_delivery_due = self.delivered.is_none() && is_carried;
        (is_ready_due, is_delivery_due)
    }

    // Casts the votes of a root, for which there is room.
    fn cast(&mut self, root: &[u8; 32], votes: RootVotes, due: &mut Due)
        requires { length (votes_in self.old.epoch root.now votes) ≤ due.old.spare }
        ensures votes { due.new.votes ≡ due.old.votes ++ votes_in self.old.epoch root.now votes }
        ensures state { self.new ≡ after_votes self.old votes }
        ensures room { due.old.spare ≤ due.new.spare + 2 }
        ensures keeps_room { KeepsRoom due.old due.new }
    {
        let RootVotes {
            is_ready_due,
            delivery,
            delivered,
        } = votes;
        self.is_ready_cast |= is_ready_due;
        self.delivered = self.delivered.take().or(delivered);
        push_some(ready_if(is_ready_due, self.epoch, root), due);
        push_some(delivery_of(self.epoch, delivery), due);
    }
}

// How many votes are due.
fn count_of(is_ready_due: bool, is_delivery_due: bool) -> u32
    ensures { result ≡ (if is_ready_due then 1 else 0) + (if is_delivery_due then 1 else 0) }
{
    if is_ready_due {
        if is_delivery_due { 2 } else { 1 }
    } else if is_delivery_due {
        1
    } else {
        0
    }
}

// What becomes due by a root that rebuilds to this value, if it does, with room for it.
fn root_votes(
    is_ready_due: bool,
    is_delivery_due: bool,
    value: Option<&Bytes>,
    due: &mut Due,
) -> Result<RootVotes, AllocError>
    ensures ready { IfOk result (λ v. v.is_ready_due ≡ is_ready_due) }
    ensures delivery { IfOk result (λ v. v.delivery ≡ (if is_delivery_due then option_copied value.entry else None)) }
    ensures delivered { IfOk result (λ v. v.delivered ≡ (if is_delivery_due then option_copied value.entry else None)) }
    ensures room { OnOk result ((if is_ready_due then 1 else 0) + (if is_delivery_due then 1 else 0) ≤ due.new.spare) }
    ensures votes { due.new.votes ≡ due.old.votes }
    ensures no_less { due.old.spare ≤ due.new.spare }
    ensures keeps_room { KeepsRoom due.old due.new }
    ensures enough { is_delivery_due ≡ false → 1 ≤ due.old.spare → IsOk result }
{
    due.reserve(count_of(is_ready_due, is_delivery_due))?;
    let value = if is_delivery_due { value } else { None };
    Ok(RootVotes {
        is_ready_due,
        delivery: copy_of(value)?,
        delivered: copy_of(value)?,
    })
}

// Adds a vote, if there is one, for which there is room.
fn push_some(vote: Option<Vote>, due: &mut Due)
    requires { length (option_to_list vote) ≤ due.old.spare }
    ensures votes { due.new.votes ≡ due.old.votes ++ option_to_list vote }
    ensures room { due.new.spare + length (option_to_list vote) ≡ due.old.spare }
    ensures one { due.old.spare ≤ due.new.spare + 1 }
    ensures keeps_room { KeepsRoom due.old due.new }
{
    match vote {
        Some(vote) => due.push_reserved(vote),
        None => {}
    }
}

// The Ready for a root, where it is due.
fn ready_if(is_due: bool, epoch: u8, root: &[u8; 32]) -> Option<Vote>
    ensures { result ≡ (if is_due then Some (Ready epoch root.now) else None) }
{
    if is_due {
        Some(Vote::Ready { epoch, root: *root })
    } else {
        None
    }
}

// The delivery of a value, if there is one.
fn delivery_of(epoch: u8, value: Option<Bytes>) -> Option<Vote>
    ensures { result ≡ option_map (Delivered epoch) value }
{
    match value {
        Some(value) => Some(Vote::Delivered { epoch, value }),
        None => None,
    }
}

// Adds the Vals to the nodes that have none, rising, for which there is room.
fn push_vals(epoch: u8, shards: Vec<Bytes>, tree: &Tree, cast: &NodeSet, due: &mut Due)
    requires tree { tree.now ≡ leaf_digests shards.items }
    requires few { length shards.items ≤ most_nodes }
    requires room { length shards.items ≤ due.old.spare }
    ensures votes { due.new.votes ≡ due.old.votes ++ missing_vals epoch shards.items cast.now (length shards.items) }
    ensures room { due.old.spare ≤ due.new.spare + length shards.items }
    ensures keeps_room { KeepsRoom due.old due.new }
{
    let mut target = 0u8;
    for shard in shards {
        push_val(epoch, target, shard, tree, cast, due);
        target += 1;
    }
}

// Adds the Val to a node, if it has none, for which there is room.
fn push_val(epoch: u8, target: u8, shard: Bytes, tree: &Tree, cast: &NodeSet, due: &mut Due)
    requires target { target < length tree.now }
    requires room { 1 ≤ due.old.spare }
    ensures votes { due.new.votes ≡ due.old.votes
        ++ option_to_list (unless (is_in cast.now target) (Some (Val epoch target (root_of tree.now) shard (branch_of tree.now target)))) }
    ensures room { due.old.spare ≤ due.new.spare + 1 }
    ensures keeps_room { KeepsRoom due.old due.new }
{
    if cast.has(target) {
        return;
    }
    due.push_reserved(Vote::Val {
        epoch,
        target,
        root: tree.root(),
        shard,
        branch: tree.branch(target),
    });
}

// Adds all nodes below n.
fn add_below(nodes: &mut NodeSet, n: u8)
    requires { n ≤ most_nodes }
    ensures { (node : ℕ) → is_in nodes.new node ≡ (nat_lt node n || is_in nodes.old node) }
{
    for node in 0..n {
        nodes.add(node);
    }
}
