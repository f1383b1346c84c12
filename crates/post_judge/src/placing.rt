//! The places of posts, and those that a rule looks at.
ghost use Rattle.std.specs.Prelude.{◌≡◌, ◌<◌, true, [], ◌∷◌, ◌++◌, IfOk};
ghost use Rattle.hb_rules.specs.Hearing.{is_within, round_of, is_below};
ghost use Rattle.post_judge.specs.Places.{own_place, heard_place, is_told, counts, told_place, cast_place, share_places, looked_at};

use crate::place::{Place, Topic};
use coin_deal::{Deal, leaf_of};
use hb_base::Config;
use hb_rules::is_correct;
use hb_wire::{Post, Vote};
use merkle_branch::is_branch;
use std::alloc::{AllocError, Global};

// The place at which an actor of a node hears a vote.
fn heard_place(node: u8, actor: u8, vote: &Vote) -> Option<Place>
    ensures { result ≡ heard_place node actor vote.now }
{
    let (topic, owner, part) = match vote {
        Vote::Val { target, .. } => (Topic::Handed, actor, *target),
        Vote::Echo { .. } | Vote::Ready { .. } => (Topic::Spread, actor, 0),
        Vote::Bval { round, .. } | Vote::Aux { round, .. } | Vote::Conf { round, .. } => {
            (Topic::Claimed, actor, *round)
        }
        Vote::Coin { round, .. } => (Topic::Shared, actor, *round),
        Vote::Propose { .. } | Vote::NoMore { .. } => (Topic::FromDesk, node, 0),
        Vote::Delivered { .. } | Vote::Decided { .. } => (Topic::FromLanes, node, 0),
        Vote::Est { .. } | Vote::Pick { .. } | Vote::Closed { .. } => return None,
    };
    Some(Place {
        topic,
        owner,
        epoch: vote.epoch(),
        part,
    })
}

// Whether a vote is of such an actor that actors of correct nodes may take heed of it.
fn is_told(n: u8, post: &Post, vote: &Vote) -> bool
    ensures { result ≡ is_told n post.now.from post.now.actor vote.now }
{
    match vote {
        Vote::Val { .. } => post.from == post.actor,
        Vote::Propose { .. } | Vote::NoMore { .. } => post.actor == n,
        _ => post.actor < n,
    }
}

// Whether the run has the epoch and the round of a vote.
fn is_within(config: &Config, vote: &Vote) -> bool
    ensures { result ≡ is_within config.now vote.now }
{
    vote.epoch() < config.epochs() && is_round_below(config.rounds(), vote)
}

fn is_round_below(limit: u8, vote: &Vote) -> bool
    ensures { result ≡ is_below limit (round_of vote.now) }
{
    match vote {
        Vote::Est { round, .. }
        | Vote::Bval { round, .. }
        | Vote::Aux { round, .. }
        | Vote::Conf { round, .. }
        | Vote::Pick { round, .. }
        | Vote::Coin { round, .. } => *round < limit,
        _ => true,
    }
}

// Whether it counts: the branch of an Echo or of a share is right. A share that was dealt counts, and no branch is hashed to see
// that.
fn counts(config: &Config, deal: &Deal, post: &Post, vote: &Vote) -> bool
    requires deal { deal.now ≡ config.now }
    requires within { is_within config.now vote.now ≡ true }
    requires told { is_told config.now.n post.now.from post.now.actor vote.now ≡ true }
    ensures { result ≡ counts config.now post.now.from post.now.actor vote.now }
{
    let n = config.n();
    match vote {
        Vote::Echo {
            root,
            shard,
            branch,
            ..
        } => post.from < n && is_branch(root, n, post.from, shard.as_slice(), branch),
        Vote::Coin {
            epoch,
            round,
            share,
            salt,
            branch,
        } => {
            let (m, e, j, r) = (post.from, *epoch, post.actor, *round);
            if m >= n {
                return false;
            }
            if deal.is_dealt(e, j, r, m, *share, salt, branch) {
                return true;
            }
            let leaf = leaf_of(*share, salt);
            is_branch(&deal.root_of(e, j, r), n, m, &leaf, branch)
        }
        _ => true,
    }
}

// The place of a post's vote among those that are heard, if it can be heard and counts. It checks the branch of an Echo or of a
// share, so that no look at the place checks it again.
pub(crate) fn told_place(config: &Config, deal: &Deal, post: &Post, vote: &Vote) -> Option<Place>
    requires deal { deal.now ≡ config.now }
    ensures { result ≡ told_place config.now post.now vote.now }
{
    let may_be_heard = is_within(config, vote) && is_told(config.n(), post, vote);
    if may_be_heard && counts(config, deal, post, vote) {
        heard_place(post.from, post.actor, vote)
    } else {
        None
    }
}

// The place of a vote of an actor among those that it has cast. A lane has a place for each epoch, a desk one for all: a lane
// casts a few votes a round, and a desk three an epoch.
pub(crate) fn own_place(n: u8, node: u8, actor: u8, vote: &Vote) -> Place
    ensures { result ≡ own_place n node actor vote.now }
{
    let epoch = if actor < n { vote.epoch() } else { 0 };
    Place {
        topic: Topic::Own,
        owner: node,
        epoch,
        part: actor,
    }
}

// The place of a post's vote among those that its actor has cast, if its node is correct.
pub(crate) fn cast_place(config: &Config, post: &Post, vote: &Vote) -> Option<Place>
    ensures { result ≡ cast_place config.now post.now vote.now }
{
    if is_correct(config, post.from) {
        Some(own_place(config.n(), post.from, post.actor, vote))
    } else {
        None
    }
}

fn one_place(alloc: Global, place: Place) -> Result<Vec<Place>, AllocError>
    ensures { IfOk result (λ places. places.items ≡ place ∷ []) }
{
    let mut places = Vec::new(alloc);
    places.push(place)?;
    Ok(places)
}

// The places of the shares of each round.
fn share_places(
    alloc: Global,
    config: &Config,
    lane: u8,
    epoch: u8,
) -> Result<Vec<Place>, AllocError>
    ensures { IfOk result (λ places. places.items ≡ share_places lane epoch config.now.rounds) }
{
    let mut places = Vec::new(alloc);
    for round in 0..config.rounds() {
        places.push(Place {
            topic: Topic::Shared,
            owner: lane,
            epoch,
            part: round,
        })?;
    }
    Ok(places)
}

// The places of all that the rule for a vote of an actor looks at.
pub(crate) fn looked_at(
    alloc: Global,
    config: &Config,
    node: u8,
    actor: u8,
    vote: &Vote,
) -> Result<Vec<Place>, AllocError>
    ensures { IfOk result (λ places. places.items ≡ looked_at config.now node actor vote.now) }
{
    let (topic, owner, part) = match vote {
        Vote::Val { .. } | Vote::Est { round: 0, .. } => (Topic::FromDesk, node, 0),
        Vote::Echo { .. } => (Topic::Handed, actor, node),
        Vote::Ready { .. } | Vote::Delivered { .. } => (Topic::Spread, actor, 0),
        Vote::Est { round, .. } => (Topic::Shared, actor, *round - 1),
        Vote::Bval { round, .. }
        | Vote::Aux { round, .. }
        | Vote::Conf { round, .. }
        | Vote::Pick { round, .. } => (Topic::Claimed, actor, *round),
        Vote::NoMore { .. } | Vote::Closed { .. } => (Topic::FromLanes, node, 0),
        Vote::Decided { epoch, .. } => return share_places(alloc, config, actor, *epoch),
        Vote::Coin { .. } | Vote::Propose { .. } => return Ok(Vec::new(alloc)),
    };
    one_place(
        alloc,
        Place {
            topic,
            owner,
            epoch: vote.epoch(),
            part,
        },
    )
}
