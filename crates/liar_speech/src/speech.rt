ghost use Rattle.std.specs.Prelude.{◌<◌, ◌≡◌, ℕ, List, IfOk, OnOk, OnErr};
ghost use Rattle.hb_base.specs.Limits.{most_nodes};
ghost use Rattle.hb_wire.specs.Votes.{IsVote, Spells, address_of};
ghost use Rattle.hb_wire.specs.Views.{vote_of};
ghost use Rattle.liar_cast.specs.Lies.{with_lie};

use hb_wire::{Post, To, Vote, VoteView, view, write};
use liar_cast::{LiarSeat, Lies, Said};
use std::alloc::{AllocError, Global};

/// A liar says no more in this call: there is no memory, its lies are spent, or what it heard asks for no answer.
#[derive(Debug, Drop, PartialEq, Eq)]
pub struct Hushed;

impl From<AllocError> for Hushed {
    fn from(_error: AllocError) -> Hushed {
        Hushed
    }
}

/// The lane in which a post is heard, and the vote that its bytes spell. Err where it is posted in a desk's name, which is heard
/// in no lane, or where the bytes spell none.
pub fn heard_vote<'a>(me: &LiarSeat, post: &'a Post) -> Result<(u8, VoteView<'a>), Hushed>
    ensures lane { IfOk result (λ heard. (heard.0 ≡ post.now.actor) × (heard.0 < me.now.config.n)) }
    ensures vote { IfOk result (λ heard. Spells me.now.config.n me.now.config.version post.now.bytes (vote_of heard.1)) }
{
    if post.actor >= me.config.n() {
        return Err(Hushed);
    }
    match view(me.config.n(), me.config.version(), post.bytes.as_slice()) {
        Some(vote) => Ok((post.actor, vote)),
        None => Err(Hushed),
    }
}

/// Says bytes in the name of this actor to whomever, if they are taken. After an error nothing was said.
pub fn tell(alloc: Global, lies: &mut Lies, actor: u8, to: To, bytes: &[u8]) -> Result<(), Hushed>
    ensures told { OnOk result (lies.new ≡ with_lie lies.old actor to bytes.now) }
    ensures hushed { OnErr result (lies.new ≡ lies.old) }
{
    match lies.say(alloc, actor, to, bytes) {
        Said::Taken => Ok(()),
        Said::Long | Said::Spent | Said::Memory => Err(Hushed),
    }
}

/// Says a vote of a run of n nodes under this version of the rules, in the name of this lane or desk, to whom such a vote goes.
/// After an error nothing was said.
pub fn tell_vote(
    alloc: Global,
    n: u8,
    version: u8,
    lies: &mut Lies,
    actor: u8,
    vote: &Vote,
) -> Result<(), Hushed>
    requires { IsVote n version vote.now }
    ensures told { OnOk result ((bytes : List ℕ) × Spells n version bytes vote.now × (lies.new ≡ with_lie lies.old actor (address_of vote.now) bytes)) }
    ensures hushed { OnErr result (lies.new ≡ lies.old) }
{
    let bytes = write(alloc, n, version, vote)?;
    tell(alloc, lies, actor, vote.to(), bytes.as_slice())
}
