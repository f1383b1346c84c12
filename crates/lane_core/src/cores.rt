ghost use Rattle.std.specs.Prelude.{◌≡◌, ◌<◌, ◌≤◌, true, false, [], filter, drop, length, IsOk, IfOk, OnOk, OnErr};
ghost use Rattle.std.specs.Arc.{arc_value};
ghost use Rattle.std.specs.List.{list_any};
ghost use Rattle.hb_wire.specs.Votes.{epoch_of};
ghost use Rattle.hb_rules.specs.Claims.{is_any_delivery};
ghost use Rattle.hb_rules.specs.Hearing.{hearing};
ghost use Rattle.hb_rules.specs.Owing.{agreement_slots};
ghost use Rattle.hb_rules.specs.Parts.{read_in_agreement};
ghost use Rattle.hb_rules.specs.Room.{KeepsRoom};
ghost use Rattle.hb_rules.specs.Slots.{IsIdle};
ghost use Rattle.hb_rules.specs.Terms.{AreSpelled};
ghost use Rattle.rbc_core.specs.Broadcast.{IsShort};
ghost use Rattle.lane_core.specs.Cores.{is_for_broadcast, is_for_agreement, AreAt, StayAt, StandFor, StandOn, HearsInEpoch, IsNodeOf, room_for};

use aba_core::Aba;
use coin_deal::Deal;
use hb_base::Config;
use hb_rules::Due;
use hb_wire::{Spoken, Vote};
use rbc_core::Rbc;
use std::alloc::{AllocError, Global};
use std::sync::Arc;

// What a lane has of an epoch, from the first vote on that it casts or hears of it: the states of its broadcast and of its
// agreement.
#[derive(Drop)]
pub(crate) struct Cores {
    rbc: Rbc,
    aba: Aba,
}

impl Cores {
    // The cores of a lane that has cast these votes, of any epoch, and has heard nothing since. They stand for these votes
    // where they leave nothing owed.
    pub(crate) fn rebuild(
        alloc: Global,
        config: &Config,
        deal: &Arc<Deal, Global>,
        node: u8,
        lane: u8,
        epoch: u8,
        own: &[Vote],
    ) -> Result<Cores, AllocError>
        requires deal { arc_value deal.now ≡ config.now }
        requires node { node < config.now.n }
        requires lane { lane < config.now.n }
        requires epoch { epoch < config.now.epochs }
        requires own { AreSpelled config.now own.now }
        ensures at { IfOk result (λ cores. AreAt config.now node lane epoch cores) }
        ensures stands { IfOk result (λ cores. IsIdle (agreement_slots config.now node lane epoch) (filter (read_in_agreement epoch) own.now) []
            → StandFor epoch cores own.now []) }
    {
        let rbc = Rbc::rebuild(alloc, config, node, lane, epoch, own)?;
        let aba = Aba::rebuild(alloc, config, deal, node, lane, epoch, own)?;
        Ok(Cores { rbc, aba })
    }

    // Hears a vote of the epoch that node `from` has cast, and adds the votes that it makes due: first those of the
    // broadcast, then those of the agreement, which a delivery starts. There is room for all of them, so only a vote of the
    // broadcast, or a proposal, can want memory. Want of memory changes nothing for which the cores stand.
    pub(crate) fn hear(
        &mut self,
        alloc: Global,
        from: u8,
        vote: &Spoken,
        due: &mut Due,
    ) -> Result<(), AllocError>
        requires from { IsNodeOf self.old from }
        requires short { IsShort vote.now }
        requires room { room_for self.old vote.now ≤ due.old.spare }
        ensures ok { OnOk result (HearsInEpoch self.old self.new (hearing from vote.now) due.old.votes due.new.votes) }
        ensures due { OnErr result (due.new.votes ≡ due.old.votes) }
        ensures kept { OnErr result (StandOn self.old self.new) }
        ensures at { StayAt self.old self.new }
        ensures keeps_room { KeepsRoom due.old due.new }
        ensures room { is_for_broadcast vote.now ≡ false → IsOk result }
    {
        if is_for_broadcast(vote) {
            self.hear_broadcast(alloc, from, vote, due)
        } else if is_for_agreement(vote) {
            self.hear_agreement(from, vote, due)
        } else {
            Ok(())
        }
    }

    // Hears a vote of the broadcast, or a proposal, and tells the agreement if the lane delivers by it.
    fn hear_broadcast(
        &mut self,
        alloc: Global,
        from: u8,
        vote: &Spoken,
        due: &mut Due,
    ) -> Result<(), AllocError>
        requires from { IsNodeOf self.old from }
        requires short { IsShort vote.now }
        requires kind { is_for_broadcast vote.now ≡ true }
        requires room { room_for self.old vote.now ≤ due.old.spare }
        ensures ok { OnOk result (HearsInEpoch self.old self.new (hearing from vote.now) due.old.votes due.new.votes) }
        ensures due { OnErr result (due.new.votes ≡ due.old.votes) }
        ensures kept { OnErr result (StandOn self.old self.new) }
        ensures at { StayAt self.old self.new }
        ensures keeps_room { KeepsRoom due.old due.new }
    {
        let before = due.votes().len();
        self.rbc.hear(alloc, from, vote, due)?;
        if has_delivery(vote.epoch(), votes_from(due.votes(), before)) {
            self.aba.input(true, due)
        } else {
            Ok(())
        }
    }

    // Hears a vote of the agreement, or that the own node's desk wants no more lanes.
    fn hear_agreement(&mut self, from: u8, vote: &Spoken, due: &mut Due) -> Result<(), AllocError>
        requires from { IsNodeOf self.old from }
        requires kind { is_for_agreement vote.now ≡ true }
        requires other { is_for_broadcast vote.now ≡ false }
        requires room { room_for self.old vote.now ≤ due.old.spare }
        ensures ok { OnOk result (HearsInEpoch self.old self.new (hearing from vote.now) due.old.votes due.new.votes) }
        ensures at { StayAt self.old self.new }
        ensures keeps_room { KeepsRoom due.old due.new }
        ensures room { IsOk result }
    {
        self.aba.hear(from, vote.vote(), due)
    }
}

/// Whether the broadcast of its epoch hears a vote.
pub(crate) fn is_for_broadcast(vote: &Spoken) -> bool
    ensures { result ≡ is_for_broadcast vote.now }
{
    matches!(
        vote.vote(),
        Vote::Val { .. }
            | Vote::Echo { .. }
            | Vote::Ready { .. }
            | Vote::Delivered { .. }
            | Vote::Propose { .. }
    )
}

// Whether the agreement of its epoch hears a vote.
fn is_for_agreement(vote: &Spoken) -> bool
    ensures { result ≡ is_for_agreement vote.now }
{
    matches!(
        vote.vote(),
        Vote::Est { .. }
            | Vote::Bval { .. }
            | Vote::Aux { .. }
            | Vote::Conf { .. }
            | Vote::Pick { .. }
            | Vote::Coin { .. }
            | Vote::Decided { .. }
            | Vote::NoMore { .. }
    )
}

// Whether one of the votes delivers the value of this epoch.
fn has_delivery(epoch: u8, votes: &[Vote]) -> bool
    ensures { result ≡ list_any (is_any_delivery epoch) votes.now }
{
    votes.iter().any(|vote| matches!(vote, Vote::Delivered { epoch: other, .. } if *other == epoch))
}

// The votes from the k-th on.
fn votes_from(votes: &[Vote], k: usize) -> &[Vote]
    requires { k ≤ length votes.now }
    ensures { result.now ≡ drop k votes.now }
{
    &votes[k..]
}
