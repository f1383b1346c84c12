//! Callers of votes and batches: votes that are made and written, and posts that are heard. What they owe and promise is proved
//! with no answer.

ghost use Rattle.std.specs.Prelude.{◌≡◌, ◌≤◌, ◌<◌, length, IfOk};
ghost use Rattle.hb_base.specs.ByteLists.{AreBytes};
ghost use Rattle.hb_base.specs.Limits.{longest_value};
ghost use Rattle.merkle_branch.specs.Branches.{branch_of};
ghost use Rattle.hb_wire.specs.declared.vote.Vote.TheVariants.{Ready, Delivered, Coin, Propose};
ghost use Rattle.hb_wire.specs.Votes.{Spells};
ghost use Rattle.hb_wire.specs.Reading.{vote_at};
ghost use Rattle.hb_wire.specs.Batches.{IsBatch, batch_bytes};

use hb_base::{Bytes, Config};
use hb_wire::{Post, Vote, WireFault, read, write, write_batch};
use merkle_branch::Tree;
use std::alloc::{AllocError, Global};

/// The bytes of a desk's proposal of a batch.
pub fn propose(
    alloc: Global,
    config: &Config,
    epoch: u8,
    batch: &[Bytes],
) -> Result<Bytes, AllocError>
    requires batch { IsBatch batch.now }
    requires early { epoch < 32 }
    ensures { IfOk result (λ bytes. Spells config.now.n config.now.version bytes (Propose epoch (batch_bytes batch.now))) }
{
    let value = write_batch(alloc, batch)?;
    write(
        alloc,
        config.n(),
        config.version(),
        &Vote::Propose { epoch, value },
    )
}

/// The bytes of a lane's word to its desk that a value was delivered.
pub fn deliver(alloc: Global, config: &Config, epoch: u8, value: Bytes) -> Result<Bytes, AllocError>
    requires early { epoch < 32 }
    requires short { length value ≤ longest_value }
    requires bytes { AreBytes value }
    ensures { IfOk result (λ bytes. Spells config.now.n config.now.version bytes (Delivered epoch value)) }
{
    write(
        alloc,
        config.n(),
        config.version(),
        &Vote::Delivered { epoch, value },
    )
}

/// The bytes with which a node shows its share of a coin, with its branch in the tree of all shares.
pub fn show(
    alloc: Global,
    config: &Config,
    tree: &Tree,
    node: u8,
    share: u8,
    salt: [u8; 16],
) -> Result<Bytes, AllocError>
    requires size { length tree.now ≡ config.now.n }
    requires node { node < config.now.n }
    ensures { IfOk result (λ bytes. Spells config.now.n config.now.version bytes (Coin 3 0 share salt (branch_of tree.now node))) }
{
    let vote = Vote::Coin {
        epoch: 3,
        round: 0,
        share,
        salt,
        branch: tree.branch(node),
    };
    write(alloc, config.n(), config.version(), &vote)
}

/// The bytes that say that a node is ready for a root.
pub fn ready(alloc: Global, config: &Config, root: [u8; 32]) -> Result<Bytes, AllocError>
    ensures { IfOk result (λ bytes. Spells config.now.n config.now.version bytes (Ready 0 root)) }
{
    write(
        alloc,
        config.n(),
        config.version(),
        &Vote::Ready { epoch: 0, root },
    )
}

/// What is heard of a post: the vote that its bytes spell, if they spell one.
pub fn hear(alloc: Global, config: &Config, post: &Post) -> Result<Option<Vote>, AllocError>
    ensures { IfOk result (λ vote. vote ≡ vote_at config.now.n config.now.version post.now.bytes) }
{
    match read(alloc, config.n(), config.version(), post.bytes.as_slice()) {
        Ok(vote) => Ok(Some(vote)),
        Err(WireFault::NotAMessage) => Ok(None),
        Err(WireFault::Memory) => Err(AllocError),
    }
}
