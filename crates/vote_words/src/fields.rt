//! The fields of a vote.

ghost use Rattle.std.specs.Prelude.{◌≡◌, ◌++◌, ◌≤◌, length, OnOk, All};
ghost use Rattle.hb_wire.specs.declared.items.Item.{Item};
ghost use Rattle.merkle_branch.specs.Branches.{siblings};
ghost use Rattle.vote_words.specs.Words.{bit_text, set_text, digests_text, if_none, branch_text, shard_text, share_text, round_bit_text, round_set_text};
ghost use Rattle.vote_words.specs.Words.{item_text, items_text};

use crate::detail::Detail;
use crate::parts::{add_digest, add_number, add_string, add_word};
use hb_base::Bytes;
use hb_wire::{Item, Vals};
use merkle_branch::Branch;
use std::alloc::AllocError;

pub(crate) fn add_bit(line: &mut Vec<u8>, bit: bool) -> Result<(), AllocError>
    ensures { OnOk result (line.new.items ≡ line.old.items ++ bit_text bit) }
{
    if bit {
        add_word(line, " bit 1")
    } else {
        add_word(line, " bit 0")
    }
}

fn add_set(line: &mut Vec<u8>, vals: Vals) -> Result<(), AllocError>
    ensures { OnOk result (line.new.items ≡ line.old.items ++ set_text vals) }
{
    match vals {
        Vals::Zero => add_word(line, " bits 0"),
        Vals::One => add_word(line, " bits 1"),
        Vals::Both => add_word(line, " bits 0 1"),
    }
}

// A round, and a bit.
#[tactic(auto, unfolding(crate::specs::Words::round_bit_text))]
pub(crate) fn add_round_bit(line: &mut Vec<u8>, round: u8, bit: bool) -> Result<(), AllocError>
    ensures { OnOk result (line.new.items ≡ line.old.items ++ round_bit_text round bit) }
{
    add_number(line, " round ", u64::from(round))?;
    add_bit(line, bit)
}

// A round, and a set of bits.
#[tactic(auto, unfolding(crate::specs::Words::round_set_text))]
pub(crate) fn add_round_set(line: &mut Vec<u8>, round: u8, vals: Vals) -> Result<(), AllocError>
    ensures { OnOk result (line.new.items ≡ line.old.items ++ round_set_text round vals) }
{
    add_number(line, " round ", u64::from(round))?;
    add_set(line, vals)
}

// The digests of a branch, from the bottom up.
fn add_digests(line: &mut Vec<u8>, detail: Detail, branch: &Branch) -> Result<(), AllocError>
    requires { branch.now.len ≤ 4 }
    ensures { OnOk result (line.new.items ≡ line.old.items ++ digests_text detail (siblings branch.now)) }
{
    for digest in &branch.digests[..branch.len as usize] {
        add_digest(line, " ", detail, digest)?;
    }
    Ok(())
}

// A dash where a branch has no digest.
fn add_dash(line: &mut Vec<u8>, branch: &Branch) -> Result<(), AllocError>
    requires { branch.now.len ≤ 4 }
    ensures { OnOk result (line.new.items ≡ line.old.items ++ if_none (siblings branch.now)) }
{
    if branch.len == 0 {
        add_word(line, " -")
    } else {
        Ok(())
    }
}

#[tactic(auto, unfolding(crate::specs::Words::branch_text))]
fn add_branch(line: &mut Vec<u8>, detail: Detail, branch: &Branch) -> Result<(), AllocError>
    requires { branch.now.len ≤ 4 }
    ensures { OnOk result (line.new.items ≡ line.old.items ++ branch_text detail branch.now) }
{
    add_word(line, " branch")?;
    add_digests(line, detail, branch)?;
    add_dash(line, branch)
}

// What shows a shard of a broadcast.
#[tactic(auto, unfolding(crate::specs::Words::shard_text))]
pub(crate) fn add_shard(
    line: &mut Vec<u8>,
    detail: Detail,
    root: &[u8; 32],
    shard: &Bytes,
    branch: &Branch,
) -> Result<(), AllocError>
    requires { branch.now.len ≤ 4 }
    ensures { OnOk result (line.new.items ≡ line.old.items ++ shard_text detail root.now shard.now branch.now) }
{
    add_digest(line, " root ", detail, root)?;
    add_string(line, " shard ", detail, shard.as_slice())?;
    add_branch(line, detail, branch)
}

// What shows a share of the coin of a round.
#[tactic(auto, unfolding(crate::specs::Words::share_text))]
pub(crate) fn add_share(
    line: &mut Vec<u8>,
    detail: Detail,
    round: u8,
    share: u8,
    salt: &[u8; 16],
    branch: &Branch,
) -> Result<(), AllocError>
    requires { branch.now.len ≤ 4 }
    ensures { OnOk result (line.new.items ≡ line.old.items ++ share_text detail round share salt.now branch.now) }
{
    add_number(line, " round ", u64::from(round))?;
    add_number(line, " share ", u64::from(share))?;
    add_digest(line, " salt ", detail, salt)?;
    add_branch(line, detail, branch)
}

// A node, and its value.
#[tactic(auto, unfolding(crate::specs::Words::item_text))]
fn add_item(line: &mut Vec<u8>, detail: Detail, item: &Item) -> Result<(), AllocError>
    ensures { OnOk result (line.new.items ≡ line.old.items ++ item_text detail item.now) }
{
    add_number(line, " node ", u64::from(item.node))?;
    add_string(line, " value ", detail, item.value.as_slice())
}

// How many values there are, and each.
#[tactic(auto, unfolding(crate::specs::Words::items_text))]
pub(crate) fn add_items(
    line: &mut Vec<u8>,
    detail: Detail,
    items: &[Item],
) -> Result<(), AllocError>
    ensures { OnOk result (line.new.items ≡ line.old.items ++ items_text detail items.now) }
{
    add_number(line, " values ", items.len() as u64)?;
    for item in items {
        add_item(line, detail, item)?;
    }
    Ok(())
}
