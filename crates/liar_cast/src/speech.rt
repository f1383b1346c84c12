//! How the six kinds hear and speak.

ghost use Rattle.std.specs.Prelude.{◌<◌, ◌≤◌, ◌≡◌, IfOk, OnOk, OnErr};
ghost use Rattle.hb_base.specs.Limits.{most_nodes};
ghost use Rattle.hb_wire.specs.Votes.{IsVote, Spells};
ghost use Rattle.hb_wire.specs.Views.{vote_of};
ghost use Rattle.liar_cast.specs.Lies.{with_lie};

use crate::liar::LiarSeat;
use crate::lies::{Lies, Said};
use hb_wire::{Post, To, Vote, VoteView, view, write};
use std::alloc::{AllocError, Global};

// A liar says no more in this call: there is no memory, its lies are spent, or what it heard asks for no answer.
#[derive(Debug, Drop)]
pub(crate) struct Hushed;

impl From<AllocError> for Hushed {
    fn from(_error: AllocError) -> Hushed {
        Hushed
    }
}

// The even nodes, or the odd ones.
#[derive(Clone, Copy)]
pub(crate) enum Parity {
    Even,
    Odd,
}

impl Parity {
    pub(crate) fn has(self, node: u8) -> bool {
        match self {
            Parity::Even => node % 2 == 0,
            Parity::Odd => node % 2 == 1,
        }
    }
}

// The lane in which a post is heard. What is posted in a desk's name is heard in none.
pub(crate) fn lane_of(me: &LiarSeat, post: &Post) -> Result<u8, Hushed>
    ensures { IfOk result (λ lane. (lane ≡ post.now.actor) × (lane < most_nodes)) }
{
    if post.actor < me.config.n() {
        Ok(post.actor)
    } else {
        Err(Hushed)
    }
}

// The lane in which a post is heard, and the vote that its bytes spell.
pub(crate) fn heard_vote<'a>(me: &LiarSeat, post: &'a Post) -> Result<(u8, VoteView<'a>), Hushed>
    ensures lane { IfOk result (λ heard. (heard.0 ≡ post.now.actor) × (heard.0 < most_nodes)) }
    ensures vote { IfOk result (λ heard. Spells me.now.config.n me.now.config.version post.now.bytes (vote_of heard.1)) }
{
    let lane = lane_of(me, post)?;
    match view(me.config.n(), me.config.version(), post.bytes.as_slice()) {
        Some(vote) => Ok((lane, vote)),
        None => Err(Hushed),
    }
}

// Says one thing, if it is taken.
pub(crate) fn tell(
    alloc: Global,
    lies: &mut Lies,
    lane: u8,
    to: To,
    bytes: &[u8],
) -> Result<(), Hushed>
    ensures told { OnOk result (lies.new ≡ with_lie lies.old lane to bytes.now) }
    ensures hushed { OnErr result (lies.new ≡ lies.old) }
{
    match lies.say(alloc, lane, to, bytes) {
        Said::Taken => Ok(()),
        Said::Long | Said::Spent | Said::Memory => Err(Hushed),
    }
}

// Tells the vote to whom it goes.
pub(crate) fn tell_vote(
    alloc: Global,
    n: u8,
    version: u8,
    lies: &mut Lies,
    lane: u8,
    vote: &Vote,
) -> Result<(), Hushed>
    requires { IsVote n version vote.now }
{
    let bytes = write(alloc, n, version, vote)?;
    tell(alloc, lies, lane, vote.to(), bytes.as_slice())
}

// Tells the vote to each node of this parity, wherever it should go.
pub(crate) fn tell_each(
    alloc: Global,
    n: u8,
    version: u8,
    lies: &mut Lies,
    lane: u8,
    parity: Parity,
    vote: &Vote,
) -> Result<(), Hushed>
    requires { IsVote n version vote.now }
{
    let bytes = write(alloc, n, version, vote)?;
    for node in 0..n {
        if parity.has(node) {
            tell(alloc, lies, lane, To::Node(node), bytes.as_slice())?;
        }
    }
    Ok(())
}
