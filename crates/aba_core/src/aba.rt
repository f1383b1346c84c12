ghost use Rattle.std.specs.Prelude.{◌≡◌, ◌+◌, ◌*◌, ◌<◌, ◌≤◌, Bool, true, false, List, [], ◌∷◌, ◌++◌, filter, Option, None, IfSome, IsOk, IfOk, IsTrue, OnOk, OnErr, ◌↔◌};
ghost use Rattle.std.specs.Arc.{arc_value};
ghost use Rattle.hb_wire.specs.declared.vote.Vote.{Vote};
ghost use Rattle.hb_rules.specs.Hearing.{Hearing, hearing};
ghost use Rattle.hb_rules.specs.Marks.{decision, any_decision, has};
ghost use Rattle.hb_rules.specs.Parts.{read_in_agreement};
ghost use Rattle.hb_rules.specs.Room.{KeepsRoom};
ghost use Rattle.hb_rules.specs.Slots.{IsIdle};
ghost use Rattle.aba_core.specs.Inputs.{with_input};
ghost use Rattle.aba_core.specs.State.{place_of, IsAba};
ghost use Rattle.aba_core.specs.Standing.{slots_at, Shows, Stands, Hears, Takes};

use crate::bits::Bits;
use crate::rounds::Rounds;
use coin_deal::Deal;
use hb_base::Config;
use hb_rules::Due;
use hb_wire::Vote;
use std::alloc::{AllocError, Global};
use std::marker::Model;
use std::sync::Arc;

/// One node's state of the binary agreement of one lane in one epoch (after Mostéfaoui, Moumen and Raynal, PODC 2014):
/// which votes its lane has cast, and round by round who has claimed what, and the coins that are known. Room for the tables
/// of all rounds is reserved at once, so that hearing needs no memory; a round's are made when it is first heard of or cast
/// in. Clauses see an `AbaView`.
#[derive(Drop)]
pub struct Aba {
    pub(crate) config: Config,
    pub(crate) node: u8,
    pub(crate) lane: u8,
    pub(crate) epoch: u8,
    pub(crate) is_delivered: bool,
    pub(crate) no_more: bool,
    pub(crate) decisions: Bits,
    pub(crate) rounds: Rounds,

    // No vote of this round, or of a later one, is cast.
    pub(crate) top: u8,
}

impl Model for Aba {
    ghost use Rattle.aba_core.specs.State.{AbaView, HoldsRounds};

    ghost Value = { AbaView };

    ghost view = { λ a. record {
      config = a.config;
      node = a.node;
      lane = a.lane;
      epoch = a.epoch;
      is_delivered = a.is_delivered;
      no_more = a.no_more;
      decisions = a.decisions;
      rounds = a.rounds.all;
      top = a.top;
    } };

    ghost invariant = { λ a. HoldsRounds (record {
      config = a.config;
      node = a.node;
      lane = a.lane;
      epoch = a.epoch;
      is_delivered = a.is_delivered;
      no_more = a.no_more;
      decisions = a.decisions;
      rounds = a.rounds.all;
      top = a.top;
    }) a.rounds };
}

impl Aba {
    /// The state of a lane that has cast these votes, of any epoch and part, and has heard nothing since. It shares the deal,
    /// from which it takes the node's own shares of the coins. It stands for these votes where they leave nothing owed, as votes
    /// do that stood after a call; where none of them is of this agreement, it stands for none. It shows them in any case.
    pub fn rebuild(
        alloc: Global,
        config: &Config,
        deal: &Arc<Deal, Global>,
        node: u8,
        lane: u8,
        epoch: u8,
        own: &[Vote],
    ) -> Result<Aba, AllocError>
        requires deal { arc_value deal.now ≡ config.now }
        requires node { node < config.now.n }
        requires lane { lane < config.now.n }
        requires epoch { epoch < config.now.epochs }
        ensures place { IfOk result (λ a. place_of a ≡ record { config = config.now; node = node; lane = lane; epoch = epoch }) }
        ensures stands { IfOk result (λ a. IsIdle (slots_at (place_of a)) own.now [] → Stands a own.now []) }
        ensures part { IfOk result (λ a. IsIdle (slots_at (place_of a)) (filter (read_in_agreement epoch) own.now) []
            → Stands a (filter (read_in_agreement epoch) own.now) []) }
        ensures new { IfOk result (λ a. filter (read_in_agreement epoch) own.now ≡ [] → Stands a [] []) }
        ensures shows { IfOk result (λ a. Shows a own.now []) }
    {
        // A config is sound where its liars can be told.
        let _sound = config.liars();
        let mut aba = Aba {
            config: *config,
            node,
            lane,
            epoch,
            is_delivered: false,
            no_more: false,
            decisions: Bits::none(),
            rounds: Rounds::new(alloc, config, deal, lane, epoch)?,
            top: 0,
        };
        for vote in own {
            aba.cast(vote);
        }
        Ok(aba)
    }

    /// The lane has delivered (true), or the own desk wants no more lanes (false): adds the votes that this makes due. Where
    /// an estimate of round 0 is cast it makes nothing due. Err where no memory was left for them; then nothing has changed.
    pub fn input(&mut self, bit: bool, due: &mut Due) -> Result<(), AllocError>
        ensures ok { OnOk result (Takes bit self.old self.new due.old.votes due.new.votes) }
        ensures err { OnErr result ((self.new ≡ self.old) × (due.new.votes ≡ due.old.votes)) }
        ensures room { 7 * (place_of self.old).config.rounds + 1 ≤ due.old.spare → IsOk result }
        ensures keeps_room { KeepsRoom due.old due.new }
    {
        due.reserve(self.room())?;
        self.take(bit);
        if self.has_begun() {
            return Ok(());
        }
        self.settle(0, due);
        Ok(())
    }

    /// Hears a vote that node `from` has cast, and adds the votes that it makes due. A vote of another epoch, of a round that
    /// the run does not have, or of a kind that the agreement does not hear makes nothing due. Err where no memory was left
    /// for the votes; then nothing has changed.
    pub fn hear(&mut self, from: u8, vote: &Vote, due: &mut Due) -> Result<(), AllocError>
        requires { from < (place_of self.old).config.n }
        ensures ok { OnOk result (Hears self.old self.new (hearing from vote.now) due.old.votes due.new.votes) }
        ensures err { OnErr result ((self.new ≡ self.old) × (due.new.votes ≡ due.old.votes)) }
        ensures room { 7 * (place_of self.old).config.rounds + 1 ≤ due.old.spare → IsOk result }
        ensures keeps_room { KeepsRoom due.old due.new }
    {
        due.reserve(self.room())?;
        match self.noted(from, vote) {
            Some(round) => {
                self.settle(round, due);
                Ok(())
            }
            None => Ok(()),
        }
    }

    /// Whether the lane owes nothing, by all that it has cast and heard, in whatever order it heard it: the rows are asked
    /// once, at the end. A lane that was asked at each hearing would owe more, since it stops where the coin of a round is the
    /// bit that it decided by an earlier one, and the shares of the later round may have come first. Err where no memory was
    /// left for the votes that may be owed.
    pub fn is_idle(mut self, alloc: Global) -> Result<bool, AllocError>
        ensures exact { IfOk result (λ idle. (own : List Vote) (heard : List Hearing) → Shows self own heard
            → IsTrue idle ↔ IsIdle (slots_at (place_of self)) own heard) }
    {
        let mut due = Due::new(alloc);
        due.reserve(self.room())?;
        self.settle(0, &mut due);
        Ok(due.votes().is_empty())
    }

    /// The bit that the lane has decided: None exactly where it hasn't cast its Decided.
    pub fn decided(&self) -> Option<bool>
        ensures cast { (own : List Vote) (heard : List Hearing) → Stands self.now own heard
            → IfSome result (λ bit. has (place_of self.now).epoch (decision bit) own ≡ true) }
        ensures none { (own : List Vote) (heard : List Hearing) → Stands self.now own heard
            → (result ≡ None) ↔ (has (place_of self.now).epoch any_decision own ≡ false) }
    {
        if self.decisions.one {
            Some(true)
        } else if self.decisions.zero {
            Some(false)
        } else {
            None
        }
    }

    // Marks an input.
    pub(crate) fn take(&mut self, bit: bool)
        ensures { self.new ≡ with_input bit self.old }
    {
        if bit {
            self.is_delivered = true;
        } else {
            self.no_more = true;
        }
    }

    // For how many votes there is to be room: each round has seven that a lane may cast, and one is decided.
    fn room(&self) -> u32
        ensures enough { result ≡ 7 * (place_of self.now).config.rounds + 1 }
        ensures sound { IsAba self.now }
    {
        7 * self.config.rounds() as u32 + 1
    }
}
