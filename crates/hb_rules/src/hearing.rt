//! What an actor hears of a post.
ghost use Rattle.std.specs.Prelude.{◌≡◌, true, IfOk};
ghost use Rattle.hb_wire.specs.Addresses.{reaches};
ghost use Rattle.hb_rules.specs.Hearing.{hearing, round_of, is_below, is_within, heeds, hearing_of};

use hb_base::Config;
use hb_wire::{Post, Spoken, Vote, WireFault};
use std::alloc::{AllocError, Global};
use std::marker::Model;

/// A vote as an actor hears it: at a lane with the node that cast it, at a desk with the lane. Clauses see a `Hearing`.
#[derive(Drop)]
pub struct Heard {
    pub from: u8,
    pub spoken: Spoken,
}

impl Model for Heard {
    ghost use Rattle.hb_rules.specs.Hearing.{Hearing};

    ghost Value = { Hearing };

    ghost view = { λ h. record { from = h.from; vote = h.spoken } };
}

impl Heard {
    /// A vote, of which nothing is known, as it is heard from this node or lane.
    pub fn new(from: u8, vote: Vote) -> Heard
        ensures { result ≡ hearing from vote }
    {
        let spoken = Spoken::plain(vote);
        Heard { from, spoken }
    }

    /// The vote, lent.
    pub fn vote(&self) -> &Vote
        ensures { result.now ≡ self.now.vote }
    {
        self.spoken.vote()
    }
}

/// What an actor hears of a post that reaches it, if anything: a vote that the post spells, that the actor takes heed of,
/// and whose epoch and round the run has.
pub fn hear(
    alloc: Global,
    config: &Config,
    post: &Post,
    node: u8,
    actor: u8,
) -> Result<Option<Heard>, AllocError>
    requires { reaches config.now.n post.now node actor ≡ true }
    ensures { IfOk result (λ heard. heard ≡ hearing_of config.now node actor post.now) }
{
    let n = config.n();
    match post.bytes.vote(alloc, n, config.version()) {
        Ok(spoken)
            if heeds(n, node, actor, post, spoken.vote()) && is_within(config, spoken.vote()) => {
            let from = if actor == n { post.actor } else { post.from };
            Ok(Some(Heard { from, spoken }))
        }
        Ok(_) => Ok(None),
        Err(WireFault::NotAMessage) => Ok(None),
        Err(WireFault::Memory) => Err(AllocError),
    }
}

// Whether an actor takes heed of a post's vote.
fn heeds(n: u8, node: u8, actor: u8, post: &Post, vote: &Vote) -> bool
    ensures { result ≡ heeds n node actor post.now.from post.now.actor vote.now }
{
    let is_lane = actor < n;
    let is_home = post.from == node;
    match vote {
        Vote::Val { target, .. } => is_lane && (post.from == actor && *target == node),
        Vote::Echo { .. }
        | Vote::Ready { .. }
        | Vote::Bval { .. }
        | Vote::Aux { .. }
        | Vote::Conf { .. }
        | Vote::Coin { .. } => is_lane,
        Vote::Propose { .. } | Vote::NoMore { .. } => is_lane && (is_home && post.actor == n),
        Vote::Delivered { .. } | Vote::Decided { .. } => {
            actor == n && (is_home && post.actor < n)
        }
        Vote::Est { .. } | Vote::Pick { .. } | Vote::Closed { .. } => false,
    }
}

// Whether the run has the epoch and the round of a vote.
fn is_within(config: &Config, vote: &Vote) -> bool
    ensures { result ≡ is_within config.now vote.now }
{
    vote.epoch() < config.epochs() && is_round_below(config.rounds(), vote)
}

// Whether the round of a vote, if it has one, is below the limit.
fn is_round_below(limit: u8, vote: &Vote) -> bool
    ensures { result ≡ is_below limit (round_of vote.now) }
{
    match vote {
        Vote::Est { round, .. }
        | Vote::Bval { round, .. }
        | Vote::Aux { round, .. }
        | Vote::Conf { round, .. }
        | Vote::Pick { round, .. }
        | Vote::Coin { round, .. } => *round < limit,
        _ => true,
    }
}
