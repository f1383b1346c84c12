//! Votes made of what several libraries give, as a node makes and hears them: that the libraries fit together is proved
//! here, by their contracts alone. Beside it the tests of rs_shards, coin_deal, coin_share and liar_cast.
#![tactic(auto)]

ghost use Rattle.std.specs.Prelude.{◌≡◌, ◌-◌, ◌*◌, ◌<◌, ◌≤◌, length, IfOk, OnOk, slice_index_or, [], ◌++◌, true, false};
ghost use Rattle.std.specs.List.{flat_map};
ghost use Rattle.std.specs.Option.{option_to_list};
ghost use Rattle.hb_base.specs.Limits.{most_nodes, most_epochs, most_rounds, longest_value};
ghost use Rattle.merkle_branch.specs.Digests.{leaf_digests, tree_root};
ghost use Rattle.merkle_branch.specs.Branches.{branch_of};
ghost use Rattle.rs_shards.specs.Completing.{encoded};
ghost use Rattle.rs_shards.specs.Frame.{framed_value};
ghost use Rattle.coin_deal.specs.Deal.{share as dealt_share, salt as dealt_salt, coin_leaves};
ghost use Rattle.hb_wire.specs.declared.vote.Vote.TheVariants.{Val, Delivered, Coin, Propose};
ghost use Rattle.hb_wire.specs.Votes.{Spells};
ghost use Rattle.hb_wire.specs.Reading.{vote_at};
ghost use Rattle.hb_wire.specs.Batches.{IsBatch, batch_bytes};

use coin_deal::{Deal, DealtShare};
use hb_base::{Bytes, Config};
use hb_wire::{Post, Vote, WireFault, equality_laws, read_shared, write, write_batch};
use merkle_branch::{Leaves, Tree};
use rs_shards::{encode, value_of};
use std::alloc::{AllocError, Global};

#[cfg(test)]
mod deals;
#[cfg(test)]
mod liars;
#[cfg(test)]
mod shards;
#[cfg(test)]
mod shares;
#[cfg(test)]
mod tests;

/// The Merkle tree over shards.
pub fn tree_over(alloc: Global, shards: &[Bytes]) -> Result<Tree, AllocError>
    requires some { 0 < length shards.now }
    requires few { length shards.now ≤ most_nodes }
    ensures over { IfOk result (λ tree. tree ≡ leaf_digests shards.now) }
    ensures count { IfOk result (λ tree. length tree ≡ length shards.now) }
{
    let mut leaves = Leaves::new();
    for shard in shards {
        leaves.add(shard.as_slice());
    }
    Tree::build(alloc, &leaves)
}

/// The Val that the sender of a value sends to a node: its shard, with its branch in the tree over all shards.
pub fn val(
    alloc: Global,
    config: &Config,
    epoch: u8,
    value: &[u8],
    target: u8,
) -> Result<Bytes, AllocError>
    requires early { epoch < most_epochs }
    requires node { target < config.now.n }
    requires short { length value.now ≤ longest_value }
    ensures { IfOk result (λ bytes. let shards = encoded config.now.n (config.now.n - 2 * config.now.f) value.now in
        Spells config.now.n config.now.version bytes
        (Val epoch target (tree_root shards) (slice_index_or shards target []) (branch_of (leaf_digests shards) target))) }
{
    let shards = encode(alloc, config.n(), config.k(), value)?;
    let tree = tree_over(alloc, &shards)?;
    let shard = shards[target as usize].clone()?;
    let root = tree.root();
    let branch = tree.branch(target);
    let vote = Vote::Val {
        epoch,
        target,
        root,
        shard,
        branch,
    };
    write(alloc, config.n(), config.version(), &vote)
}

/// The share of a coin that was dealt to a node.
pub fn coin(
    alloc: Global,
    config: &Config,
    deal: &Deal,
    epoch: u8,
    lane: u8,
    round: u8,
    node: u8,
) -> Result<Bytes, AllocError>
    requires deal { deal.now ≡ config.now }
    requires early { (epoch < most_epochs) × (round < most_rounds) }
    requires epoch { epoch < config.now.epochs }
    requires lane { lane < config.now.n }
    requires round { round < config.now.rounds }
    requires node { node < config.now.n }
    ensures { IfOk result (λ bytes. let c = config.now in Spells c.n c.version bytes
        (Coin epoch round (dealt_share c epoch lane round node) (dealt_salt c epoch lane round node)
        (branch_of (leaf_digests (coin_leaves c epoch lane round)) node))) }
{
    let DealtShare {
        share,
        salt,
        branch,
    } = deal.dealt_to(epoch, lane, round, node);
    let vote = Vote::Coin {
        epoch,
        round,
        share,
        salt,
        branch,
    };
    write(alloc, config.n(), config.version(), &vote)
}

/// The value that shards carry, handed to the own desk.
pub fn delivered(
    alloc: Global,
    config: &Config,
    epoch: u8,
    shards: &[Bytes],
) -> Result<Bytes, AllocError>
    requires early { epoch < most_epochs }
    requires enough { config.now.n - 2 * config.now.f ≤ length shards.now }
    ensures { IfOk result (λ bytes. Spells config.now.n config.now.version bytes
        (Delivered epoch (framed_value (config.now.n - 2 * config.now.f) shards.now))) }
{
    let value = value_of(alloc, config.k(), shards)?;
    write(
        alloc,
        config.n(),
        config.version(),
        &Vote::Delivered { epoch, value },
    )
}

/// A desk's proposal of a batch.
pub fn proposal(
    alloc: Global,
    config: &Config,
    epoch: u8,
    batch: &[Bytes],
) -> Result<Bytes, AllocError>
    requires early { epoch < most_epochs }
    requires batch { IsBatch batch.now }
    ensures { IfOk result (λ bytes. Spells config.now.n config.now.version bytes (Propose epoch (batch_bytes batch.now))) }
{
    let value = write_batch(alloc, batch)?;
    write(
        alloc,
        config.n(),
        config.version(),
        &Vote::Propose { epoch, value },
    )
}

/// The votes that posts spell, in order. What spells none is passed over.
pub fn heard(alloc: Global, config: &Config, posts: &[Post]) -> Result<Vec<Vote>, AllocError>
    ensures { IfOk result (λ votes. votes.items ≡ flat_map (λ post. option_to_list (vote_at config.now.n config.now.version post.bytes)) posts.now) }
{
    let mut votes = Vec::new(alloc);
    for post in posts {
        hear(alloc, config, post, &mut votes)?;
    }
    Ok(votes)
}

/// Whether two votes are the same.
pub fn are_same(one: &Vote, other: &Vote) -> bool
    ensures same { one.now ≡ other.now → result ≡ true }
    ensures different { (one.now ≡ other.now → ⊥) → result ≡ false }
{
    equality_laws();
    one == other
}

fn hear(
    alloc: Global,
    config: &Config,
    post: &Post,
    votes: &mut Vec<Vote>,
) -> Result<(), AllocError>
    ensures { OnOk result (votes.new.items ≡ votes.old.items ++ option_to_list (vote_at config.now.n config.now.version post.now.bytes)) }
{
    match read_shared(alloc, config.n(), config.version(), post.bytes.as_bytes()) {
        Ok(vote) => {
            votes.push(vote)?;
            Ok(())
        }
        Err(WireFault::NotAMessage) => Ok(()),
        Err(WireFault::Memory) => Err(AllocError),
    }
}
