//! Votes as they are heard.

ghost use Rattle.std.specs.Prelude.{◌≡◌, ◌≤◌, ◌<◌, true};
ghost use Rattle.hb_base.specs.Limits.{most_nodes};
ghost use Rattle.hb_wire.specs.Echoes.{is_valid_echo};
ghost use Rattle.hb_wire.specs.Votes.{epoch_of};

use crate::vote::Vote;
use merkle_branch::is_branch;
use std::marker::Model;

/// A vote as it is heard. Of an Echo it may be known as which leaf its branch is valid; then it need not be hashed. No clause
/// tells whether it is known: clauses see the vote alone.
#[derive(Drop)]
pub struct Spoken {
    vote: Vote,
    valid: Option<ValidLeaf>,
}

// As leaf m of n the branch of an Echo leads to its root.
#[derive(Clone, Copy)]
struct ValidLeaf {
    n: u8,
    m: u8,
}

impl Model for Spoken {
    ghost use Rattle.std.specs.Prelude.{◌≡◌, true, IfSome};
    ghost use Rattle.hb_wire.specs.declared.vote.Vote.{Vote};
    ghost use Rattle.hb_wire.specs.Echoes.{is_valid_echo};

    ghost Value = { Vote };

    ghost view = { λ s. s.vote };

    ghost invariant = { λ s. IfSome s.valid (λ leaf. is_valid_echo leaf.n leaf.m s.vote ≡ true) };
}

impl Spoken {
    /// A vote of which nothing is known.
    pub fn plain(vote: Vote) -> Spoken
        ensures { result ≡ vote }
    {
        Spoken { vote, valid: None }
    }

    /// An Echo whose branch leads from its shard, as leaf m of n, to its root.
    pub fn of_valid_echo(vote: Vote, n: u8, m: u8) -> Spoken
        requires { is_valid_echo n m vote ≡ true }
        ensures { result ≡ vote }
    {
        let valid = Some(ValidLeaf { n, m });
        Spoken { vote, valid }
    }

    /// The vote, lent.
    pub fn vote(&self) -> &Vote
        ensures { result.now ≡ self.now }
    {
        &self.vote
    }

    /// The epoch of the vote.
    pub fn epoch(&self) -> u8
        ensures { result ≡ epoch_of self.now }
    {
        self.vote.epoch()
    }

    /// Whether it is an Echo whose branch leads from its shard, as leaf m of n, to its root. Where that is known, nothing is
    /// hashed.
    pub fn is_valid_echo(&self, n: u8, m: u8) -> bool
        requires leaf { m < n }
        requires few { n ≤ most_nodes }
        ensures { result ≡ is_valid_echo n m self.now }
    {
        match &self.valid {
            Some(leaf) if leaf.n == n && leaf.m == m => true,
            _ => has_valid_branch(&self.vote, n, m),
        }
    }
}

// The same, found by hashing.
fn has_valid_branch(vote: &Vote, n: u8, m: u8) -> bool
    requires leaf { m < n }
    requires few { n ≤ most_nodes }
    ensures { result ≡ is_valid_echo n m vote.now }
{
    match vote {
        Vote::Echo {
            root,
            shard,
            branch,
            ..
        } => is_branch(root, n, m, shard.as_slice(), branch),
        _ => false,
    }
}
