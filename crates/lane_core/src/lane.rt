ghost use Rattle.std.specs.Prelude.{◌≡◌, ◌≢◌, ℕ, ◌<◌, ◌≤◌, true, false, List, [], filter, length, IsOk, IfOk, OnOk, OnErr};
ghost use Rattle.std.specs.Arc.{arc_value};
ghost use Rattle.std.specs.List.{list_any};
ghost use Rattle.hb_base.specs.Numbers.{Numbers};
ghost use Rattle.hb_wire.specs.declared.vote.Vote.{Vote};
ghost use Rattle.hb_wire.specs.Votes.{epoch_of};
ghost use Rattle.hb_rules.specs.Hearing.{Hearing, hearing};
ghost use Rattle.hb_rules.specs.Owing.{lane_slots};
ghost use Rattle.hb_rules.specs.Parts.{in_epoch};
ghost use Rattle.hb_rules.specs.Room.{KeepsRoom};
ghost use Rattle.hb_rules.specs.Slots.{IsIdle};
ghost use Rattle.hb_rules.specs.Terms.{AreSpelled};
ghost use Rattle.rbc_core.specs.Broadcast.{IsShort};
ghost use Rattle.lane_core.specs.Cores.{is_for_broadcast, StandsAt};
ghost use Rattle.lane_core.specs.Lane.{slots_at, cores_at, is_open, AreAtEpoch, StaysAt, IsSameLane, Stands, Hears, IsOpenFor, HearsAt, HasRoom, Sets, Opens, AreRecovered, KeepsStanding, StandsOn, room_at, room_by};

use crate::cores::{Cores, is_for_broadcast};
use coin_deal::Deal;
use hb_base::Config;
use hb_rules::{Due, term_laws};
use hb_wire::{Spoken, Vote};
use journaled_actor::Core;
use std::alloc::{AllocError, Global};
use std::marker::Model;
use std::sync::Arc;

/// One lane's state of all epochs: of each the state of its broadcast and of its agreement, from the first vote on that it
/// casts or hears of the epoch. Clauses see a `LaneView`.
#[derive(Drop)]
pub struct LaneCore {
    config: Config,
    node: u8,
    lane: u8,
    deal: Arc<Deal, Global>,

    // What there is of each epoch, up to the last of which there is anything.
    epochs: Vec<Option<Cores>>,
}

impl Model for LaneCore {
    ghost use Rattle.lane_core.specs.Lane.{LaneView, IsLane};

    ghost Value = { LaneView };

    ghost view = { λ l. record {
      config = l.config;
      node = l.node;
      lane = l.lane;
      epochs = l.epochs.items;
    } };

    ghost invariant = { λ l. IsLane l.config l.node l.lane l.deal.value l.epochs.items };
}

impl LaneCore {
    /// A lane that has cast nothing and heard nothing, and owes nothing. It takes no memory. The deal is that of the run.
    pub fn new(
        alloc: Global,
        config: &Config,
        node: u8,
        lane: u8,
        deal: Arc<Deal, Global>,
    ) -> LaneCore
        requires node { node < config.now.n }
        requires lane { lane < config.now.n }
        requires deal { arc_value deal ≡ config.now }
        ensures exact { result ≡ record { config = config.now; node = node; lane = lane; epochs = [] } }
        ensures stands { Stands result [] [] }
    {
        LaneCore {
            config: *config,
            node,
            lane,
            deal,
            epochs: Vec::new(alloc),
        }
    }

    /// Forgets what it was, and takes the state of a lane that has cast these votes, of any epochs, and has heard nothing
    /// since. It stands for these votes where they leave nothing owed. Want of memory changes nothing.
    pub fn restore(&mut self, alloc: Global, own: &[Vote]) -> Result<(), AllocError>
        requires own { AreSpelled self.old.config own.now }
        ensures same { IsSameLane self.old self.new }
        ensures stands { OnOk result (IsIdle (slots_at self.old) own.now [] → Stands self.new own.now []) }
        ensures known { OnOk result (self.old.lane < self.old.config.n) }
        ensures err { OnErr result (self.new ≡ self.old) }
    {
        self.epochs = self.recovered(alloc, own)?;
        Ok(())
    }

    /// Hears a vote that node `from` has cast, and adds the votes that it makes due: those of its epoch's broadcast, and then
    /// those of the agreement. A vote of an epoch that the run does not have makes nothing due. Room for all votes that may
    /// become due is reserved before anything changes: those of the agreement of one epoch, and by a vote of the broadcast,
    /// or a proposal, n + 2 more. Want of memory adds no vote, and the state stands for what it stood for. Where something
    /// of the epoch was cast or heard, only a vote of the broadcast, or a proposal, can want memory, if there was that room.
    pub fn hear_vote(
        &mut self,
        alloc: Global,
        from: u8,
        vote: &Spoken,
        due: &mut Due,
    ) -> Result<(), AllocError>
        requires from { from < self.old.config.n }
        requires short { IsShort vote.now }
        ensures ok { OnOk result (Hears self.old self.new (hearing from vote.now) due.old.votes due.new.votes) }
        ensures due { OnErr result (due.new.votes ≡ due.old.votes) }
        ensures keeps_room { KeepsRoom due.old due.new }
        ensures kept { OnErr result (KeepsStanding self.old self.new) }
        ensures same { IsSameLane self.old self.new }
        ensures known { self.old.lane < self.old.config.n }
        ensures room { is_open self.old (epoch_of vote.now) ≡ true → is_for_broadcast vote.now ≡ false → room_at self.old ≤ due.old.spare → IsOk result }
    {
        let epoch = vote.epoch();
        if epoch >= self.config.epochs() {
            return Ok(());
        }
        due.reserve(self.room(vote))?;
        self.make_cores(alloc, epoch)?;
        self.hear_open(alloc, from, vote, due)
    }

    // How many votes one that is heard makes due at most.
    fn room(&self, vote: &Spoken) -> u32
        ensures { result ≡ room_by self.now vote.now }
    {
        let agreement = 7 * self.config.rounds() as u32 + 1;
        if is_for_broadcast(vote) {
            agreement + self.config.n() as u32 + 2
        } else {
            agreement
        }
    }

    // Sees to it that there are cores of an epoch. Want of memory leaves what the state stands for.
    fn make_cores(&mut self, alloc: Global, epoch: u8) -> Result<(), AllocError>
        requires { epoch < self.old.config.epochs }
        ensures ok { OnOk result (Opens self.old self.new epoch) }
        ensures kept { OnErr result (KeepsStanding self.old self.new) }
        ensures same { IsSameLane self.old self.new }
        ensures room { is_open self.old epoch ≡ true → IsOk result }
        ensures still { is_open self.old epoch ≡ true → self.new ≡ self.old }
    {
        if self.is_open(epoch) {
            return Ok(());
        }
        let cores = Cores::rebuild(
            alloc,
            &self.config,
            &self.deal,
            self.node,
            self.lane,
            epoch,
            &[],
        )?;
        put(&mut self.epochs, epoch, cores)
    }

    // Whether there are cores of an epoch.
    fn is_open(&self, epoch: u8) -> bool
        ensures { result ≡ is_open self.now epoch }
    {
        matches!(self.epochs.get(epoch as usize), Some(Some(_)))
    }

    // Hears a vote of an epoch of which there are cores.
    fn hear_open(
        &mut self,
        alloc: Global,
        from: u8,
        vote: &Spoken,
        due: &mut Due,
    ) -> Result<(), AllocError>
        requires cores { is_open self.old (epoch_of vote.now) ≡ true }
        requires epoch { epoch_of vote.now < self.old.config.epochs }
        requires from { from < self.old.config.n }
        requires short { IsShort vote.now }
        requires room { room_by self.old vote.now ≤ due.old.spare }
        ensures ok { OnOk result (Hears self.old self.new (hearing from vote.now) due.old.votes due.new.votes) }
        ensures due { OnErr result (due.new.votes ≡ due.old.votes) }
        ensures keeps_room { KeepsRoom due.old due.new }
        ensures kept { OnErr result (KeepsStanding self.old self.new) }
        ensures same { IsSameLane self.old self.new }
        ensures room { is_for_broadcast vote.now ≡ false → IsOk result }
    {
        hear_in(alloc, &mut self.epochs, from, vote, due)
    }

    // What there is of each epoch of a lane that has cast these votes.
    fn recovered(&self, alloc: Global, own: &[Vote]) -> Result<Vec<Option<Cores>>, AllocError>
        requires { AreSpelled self.now.config own.now }
        ensures { IfOk result (λ epochs. AreRecovered self.now own.now self.now.config.epochs epochs.items) }
    {
        let count = self.config.epochs();
        let mut epochs = Vec::with_capacity(alloc, count as usize)?;
        for epoch in 0..count {
            epochs.push(self.recover(alloc, epoch, own)?)?;
        }
        Ok(epochs)
    }

    // The cores of an epoch of a lane that has cast these votes, if one is of the epoch.
    fn recover(&self, alloc: Global, epoch: u8, own: &[Vote]) -> Result<Option<Cores>, AllocError>
        requires epoch { epoch < self.now.config.epochs }
        requires own { AreSpelled self.now.config own.now }
        ensures at { IfOk result (λ place. AreAtEpoch self.now.config self.now.node self.now.lane epoch place) }
        ensures stands { IfOk result (λ place. IsIdle (slots_at self.now) own.now [] → StandsAt epoch place own.now []) }
    {
        if !has_vote(epoch, own) {
            return Ok(None);
        }
        let cores = Cores::rebuild(
            alloc,
            &self.config,
            &self.deal,
            self.node,
            self.lane,
            epoch,
            own,
        )?;
        Ok(Some(cores))
    }
}

impl Core for LaneCore {
    ghost use Rattle.lane_core.specs.Lane.{lane_terms, Stands};

    ghost terms = { λ l. lane_terms l };

    ghost stands = { λ l own heard. Stands l own heard };

    fn config(&self) -> Config {
        self.config
    }

    fn node(&self) -> u8 {
        self.node
    }

    fn actor(&self) -> u8 {
        self.lane
    }

    fn lawful(&self) {
        // A config is sound where its liars can be told.
        let _sound = self.config.liars();
        term_laws();
    }

    // A lane owes nothing of itself: what its own votes make owed it has cast.
    fn rebuild(&mut self, alloc: Global, own: &[Vote], _due: &mut Due) -> Result<(), AllocError> {
        self.restore(alloc, own)
    }

    fn hear(
        &mut self,
        alloc: Global,
        from: u8,
        vote: &Spoken,
        due: &mut Due,
    ) -> Result<(), AllocError> {
        self.hear_vote(alloc, from, vote, due)
    }
}

// Whether one of the votes is of this epoch.
fn has_vote(epoch: u8, votes: &[Vote]) -> bool
    ensures { result ≡ list_any (in_epoch epoch) votes.now }
{
    votes.iter().any(|vote| vote.epoch() == epoch)
}

// Puts the cores of an epoch at their place. Want of memory changes nothing at any place.
#[tactic(auto, using(crate::proofs::Lanes::sets_place))]
fn put(epochs: &mut Vec<Option<Cores>>, epoch: u8, cores: Cores) -> Result<(), AllocError>
    ensures ok { OnOk result (Sets epochs.old.items epochs.new.items epoch cores) }
    ensures err { OnErr result ((k : ℕ) → cores_at epochs.new.items k ≡ cores_at epochs.old.items k) }
{
    grow(epochs, epoch)?;
    epochs[epoch as usize] = Some(cores);
    Ok(())
}

// Makes a place for an epoch, and for those before it.
#[tactic(auto, using(crate::proofs::Lanes::grown))]
fn grow(epochs: &mut Vec<Option<Cores>>, epoch: u8) -> Result<(), AllocError>
    ensures same { (k : ℕ) → cores_at epochs.new.items k ≡ cores_at epochs.old.items k }
    ensures room { OnOk result (epoch < length epochs.new.items) }
{
    'places: while epochs.len() <= epoch as usize {
        epochs.push(None)?;
    }
    Ok(())
}

// Hears a vote in the cores of its epoch.
fn hear_in(
    alloc: Global,
    epochs: &mut [Option<Cores>],
    from: u8,
    vote: &Spoken,
    due: &mut Due,
) -> Result<(), AllocError>
    requires cores { IsOpenFor (cores_at epochs.old (epoch_of vote.now)) from }
    requires short { IsShort vote.now }
    requires room { HasRoom (cores_at epochs.old (epoch_of vote.now)) vote.now due.old.spare }
    ensures ok { OnOk result (HearsAt (cores_at epochs.old (epoch_of vote.now)) (cores_at epochs.new (epoch_of vote.now))
        (hearing from vote.now) due.old.votes due.new.votes) }
    ensures at { StaysAt (cores_at epochs.old (epoch_of vote.now)) (cores_at epochs.new (epoch_of vote.now)) }
    ensures count { length epochs.new ≡ length epochs.old }
    ensures others { (k : ℕ) → k ≢ epoch_of vote.now → cores_at epochs.new k ≡ cores_at epochs.old k }
    ensures due { OnErr result (due.new.votes ≡ due.old.votes) }
    ensures keeps_room { KeepsRoom due.old due.new }
    ensures kept { OnErr result (StandsOn (cores_at epochs.old (epoch_of vote.now)) (cores_at epochs.new (epoch_of vote.now))) }
    ensures room { is_for_broadcast vote.now ≡ false → IsOk result }
{
    let epoch = vote.epoch() as usize;
    hear_at(alloc, &mut epochs[epoch], from, vote, due)
}

// Hears a vote in these cores.
fn hear_at(
    alloc: Global,
    place: &mut Option<Cores>,
    from: u8,
    vote: &Spoken,
    due: &mut Due,
) -> Result<(), AllocError>
    requires cores { IsOpenFor place.old from }
    requires short { IsShort vote.now }
    requires room { HasRoom place.old vote.now due.old.spare }
    ensures ok { OnOk result (HearsAt place.old place.new (hearing from vote.now) due.old.votes due.new.votes) }
    ensures at { StaysAt place.old place.new }
    ensures due { OnErr result (due.new.votes ≡ due.old.votes) }
    ensures keeps_room { KeepsRoom due.old due.new }
    ensures kept { OnErr result (StandsOn place.old place.new) }
    ensures room { is_for_broadcast vote.now ≡ false → IsOk result }
{
    match place {
        Some(cores) => cores.hear(alloc, from, vote, due),
        None => Ok(()),
    }
}
