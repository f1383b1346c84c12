//! A vote in words.

ghost use Rattle.std.specs.Prelude.{◌≡◌, ◌++◌, OnOk};
ghost use Rattle.hb_wire.specs.Votes.{IsVote};
ghost use Rattle.vote_words.specs.Words.{name_text, fields_text, vote_text};

use crate::detail::Detail;
use crate::fields::{add_bit, add_items, add_round_bit, add_round_set, add_shard, add_share};
use crate::parts::{add_digest, add_number, add_string};
use hb_wire::Vote;
use std::alloc::AllocError;

// The name of a vote, and the word before its epoch.
fn name_of(vote: &Vote) -> &'static str
    ensures { result.now ≡ name_text vote.now }
{
    match vote {
        Vote::Val { .. } => "VAL epoch ",
        Vote::Echo { .. } => "ECHO epoch ",
        Vote::Ready { .. } => "READY epoch ",
        Vote::Delivered { .. } => "DELIVERED epoch ",
        Vote::Est { .. } => "EST epoch ",
        Vote::Bval { .. } => "BVAL epoch ",
        Vote::Aux { .. } => "AUX epoch ",
        Vote::Pick { .. } => "PICK epoch ",
        Vote::Coin { .. } => "COIN epoch ",
        Vote::Decided { .. } => "DECIDED epoch ",
        Vote::Conf { .. } => "CONF epoch ",
        Vote::Propose { .. } => "PROPOSE epoch ",
        Vote::NoMore { .. } => "NOMORE epoch ",
        Vote::Closed { .. } => "CLOSED epoch ",
    }
}

// Appends the fields of a vote behind its epoch.
fn add_fields(
    line: &mut Vec<u8>,
    detail: Detail,
    n: u8,
    version: u8,
    vote: &Vote,
) -> Result<(), AllocError>
    requires { IsVote n version vote.now }
    ensures { OnOk result (line.new.items ≡ line.old.items ++ fields_text detail vote.now) }
{
    match vote {
        Vote::Val {
            target,
            root,
            shard,
            branch,
            ..
        } => {
            add_number(line, " target ", u64::from(*target))?;
            add_shard(line, detail, root, shard, branch)
        }
        Vote::Echo {
            root,
            shard,
            branch,
            ..
        } => add_shard(line, detail, root, shard, branch),
        Vote::Ready { root, .. } => add_digest(line, " root ", detail, root),
        Vote::Delivered { value, .. } | Vote::Propose { value, .. } => {
            add_string(line, " value ", detail, value.as_slice())
        }
        Vote::Est { round, bit, .. }
        | Vote::Bval { round, bit, .. }
        | Vote::Aux { round, bit, .. } => add_round_bit(line, *round, *bit),
        Vote::Pick { round, vals, .. } | Vote::Conf { round, vals, .. } => {
            add_round_set(line, *round, *vals)
        }
        Vote::Coin {
            round,
            share,
            salt,
            branch,
            ..
        } => add_share(line, detail, *round, *share, salt, branch),
        Vote::Decided { bit, .. } => add_bit(line, *bit),
        Vote::NoMore { .. } => Ok(()),
        Vote::Closed { list, .. } => add_items(line, detail, list.as_slice()),
    }
}

// Appends a vote.
#[tactic(auto, unfolding(crate::specs::Words::vote_text))]
pub(crate) fn add_vote(
    line: &mut Vec<u8>,
    detail: Detail,
    n: u8,
    version: u8,
    vote: &Vote,
) -> Result<(), AllocError>
    requires { IsVote n version vote.now }
    ensures { OnOk result (line.new.items ≡ line.old.items ++ vote_text detail vote.now) }
{
    add_number(line, name_of(vote), u64::from(vote.epoch()))?;
    add_fields(line, detail, n, version, vote)
}
