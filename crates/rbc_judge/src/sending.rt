//! What the sender hands out, and what a node echoes of it.
ghost use Rattle.std.specs.Prelude.{◌≡◌, ◌<◌, ◌≤◌, ◌&&◌, ◌==◌, not, length, IfOk};
ghost use Rattle.std.specs.List.{list_any};
ghost use Rattle.hb_wire.specs.declared.vote.Vote.TheVariants.{Val};
ghost use Rattle.merkle_branch.specs.Branches.{is_branch};
ghost use Rattle.hb_rules.specs.Claims.{is_val_to, is_any_echo};
ghost use Rattle.hb_rules.specs.Hearing.{heard_by};
ghost use Rattle.hb_rules.specs.History.{HasSpelling};
ghost use Rattle.hb_rules.specs.Same.{same_vote};
ghost use Rattle.hb_rules.specs.Terms.{AreHeardSpelled};
ghost use Rattle.rbc_judge.specs.Tests.{is_source};

use crate::known::Known;
use crate::lane::Lane;
use hb_base::Bytes;
use hb_rules::Heard;
use hb_wire::Vote;
use merkle_branch::{Branch, is_branch};
use std::alloc::{AllocError, Global};

// Whether a Val to a node is of a value that the own desk proposes in a hearing.
fn is_source(
    alloc: Global,
    known: &mut Known,
    lane: &Lane,
    epoch: u8,
    target: u8,
    vote: &Vote,
    said: &Heard,
) -> Result<bool, AllocError>
    requires spelled { HasSpelling lane.now.config said.now.vote }
    requires target { target < lane.now.config.n }
    ensures { IfOk result (λ found. found ≡ is_source lane.now.config lane.now.node epoch target vote.now said.now) }
{
    if said.from != lane.node {
        return Ok(false);
    }
    match said.vote() {
        Vote::Propose {
            epoch: other,
            value,
        } if *other == epoch => {
            let val = known.val_of(alloc, &lane.config, lane.lane, epoch, target, value)?;
            Ok(val == *vote)
        }
        _ => Ok(false),
    }
}

fn has_val(epoch: u8, target: u8, own: &[Vote]) -> bool
    ensures { result ≡ list_any (is_val_to epoch target) own.now }
{
    own.iter().any(|vote| is_val_to(epoch, target, vote))
}

fn is_val_to(epoch: u8, target: u8, vote: &Vote) -> bool
    ensures { result ≡ is_val_to epoch target vote.now }
{
    match vote {
        Vote::Val {
            epoch: other,
            target: to,
            ..
        } => *other == epoch && *to == target,
        _ => false,
    }
}

// Whether the sender may hand this shard to a node: it is of a value that its own desk has proposed, and the node has none yet.
pub(crate) fn may_send(
    alloc: Global,
    known: &mut Known,
    lane: &Lane,
    epoch: u8,
    target: u8,
    own: &[Vote],
    heard: &[Heard],
    vote: &Vote,
) -> Result<bool, AllocError>
    requires spelled { AreHeardSpelled lane.now.config heard.now }
    requires target { target < lane.now.config.n }
    ensures { IfOk result (λ may. may ≡ (((lane.now.node == lane.now.lane) && not (list_any (is_val_to epoch target) own.now))
        && list_any (is_source lane.now.config lane.now.node epoch target vote.now) heard.now)) }
{
    let is_first = lane.node == lane.lane && !has_val(epoch, target, own);
    if !is_first {
        return Ok(false);
    }
    for said in heard {
        let found = is_source(alloc, known, lane, epoch, target, vote, said)?;
        if found {
            return Ok(true);
        }
    }
    Ok(false)
}

fn has_echo(epoch: u8, own: &[Vote]) -> bool
    ensures { result ≡ list_any (is_any_echo epoch) own.now }
{
    own.iter().any(|vote| matches!(vote, Vote::Echo { epoch: other, .. } if *other == epoch))
}

// Whether a vote of a node was heard.
fn was_heard(from: u8, vote: &Vote, heard: &[Heard]) -> bool
    ensures { result ≡ heard_by heard.now from (same_vote vote.now) }
{
    heard
        .iter()
        .any(|said| said.from == from && vote == said.vote())
}

// Whether a node may echo a shard: the sender has handed it to the node, its branch is right, and the node has echoed none yet.
pub(crate) fn may_echo(
    lane: &Lane,
    epoch: u8,
    root: &[u8; 32],
    shard: &Bytes,
    branch: &Branch,
    own: &[Vote],
    heard: &[Heard],
) -> Result<bool, AllocError>
    requires { lane.now.node < lane.now.config.n }
    ensures { IfOk result (λ may. may ≡ ((not (list_any (is_any_echo epoch) own.now)
        && is_branch root.now lane.now.config.n lane.now.node shard.now branch.now)
        && heard_by heard.now lane.now.lane (same_vote (Val epoch lane.now.node root.now shard.now branch.now)))) }
{
    let n = lane.config.n();
    let is_first = !has_echo(epoch, own) && is_branch(root, n, lane.node, shard.as_slice(), branch);
    if !is_first {
        return Ok(false);
    }
    let val = Vote::Val {
        epoch,
        target: lane.node,
        root: *root,
        shard: shard.clone()?,
        branch: *branch,
    };
    Ok(was_heard(lane.lane, &val, heard))
}
