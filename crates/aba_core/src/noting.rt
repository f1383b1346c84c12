ghost use Rattle.std.specs.Prelude.{◌≡◌, ◌<◌, ◌++◌, ◌∷◌, [], List};
ghost use Rattle.hb_wire.specs.declared.vote.Vote.{Vote};
ghost use Rattle.hb_wire.specs.declared.vote.Vote.TheVariants.{NoMore, Coin};
ghost use Rattle.hb_wire.specs.Votes.{epoch_of};
ghost use Rattle.hb_rules.specs.Hearing.{Hearing, hearing, round_of};
ghost use Rattle.hb_rules.specs.Marks.{any_est};
ghost use Rattle.aba_core.specs.State.{mark_at, place_of};
ghost use Rattle.aba_core.specs.Standing.{Shows};
ghost use Rattle.aba_core.specs.Passing.{Casts, Notes};
ghost use Rattle.aba_core.specs.Noting.{IsOfRound, IsOf, IsClaim};

use crate::aba::Aba;
use hb_wire::Vote;
use merkle_branch::Branch;

// What the tables take in.
impl Aba {
    // Marks a vote that the lane has cast.
    pub(crate) fn cast(&mut self, vote: &Vote)
        ensures { Casts self.old self.new vote.now }
    {
        if vote.epoch() != self.epoch {
            return;
        }
        match vote {
            Vote::Delivered { .. } => self.is_delivered = true,
            Vote::Decided { bit, .. } => self.decisions.add(*bit),
            _ => self.cast_in_round(vote),
        }
    }

    // Marks a vote of a round.
    fn cast_in_round(&mut self, vote: &Vote)
        requires epoch { epoch_of vote.now ≡ self.old.epoch }
        requires kind { IsOfRound vote.now }
        ensures { Casts self.old self.new vote.now }
    {
        match round_of(vote) {
            Some(round) => self.cast_at(round, vote),
            None => {}
        }
    }

    // Marks a vote of this round, if the run has it.
    fn cast_at(&mut self, round: u8, vote: &Vote)
        requires round { IsOf self.old.epoch round vote.now }
        requires kind { IsOfRound vote.now }
        ensures { Casts self.old self.new vote.now }
    {
        if round >= self.config.rounds() {
            return;
        }
        let config = self.config;
        self.rounds.mark(&config, round, vote);
        self.top = self.top.max(round + 1);
    }

    /// Takes in a vote that node `from` has cast, and casts nothing. The state may then have votes that it owes, which
    /// `is_idle` tells.
    pub fn note(&mut self, from: u8, vote: &Vote)
        requires { from < (place_of self.old).config.n }
        ensures place { place_of self.new ≡ place_of self.old }
        ensures shows { (own : List Vote) (heard : List Hearing) → Shows self.old own heard
            → Shows self.new own (heard ++ hearing from vote.now ∷ []) }
    {
        let _round = self.noted(from, vote);
    }

    // Takes in a vote, and casts nothing: the round in which a row may come to owe something by it, if there is one.
    pub(crate) fn noted(&mut self, from: u8, vote: &Vote) -> Option<u8>
        requires { from < self.old.config.n }
        ensures { Notes self.old self.new (hearing from vote.now) result }
    {
        if vote.epoch() != self.epoch {
            return None;
        }
        match vote {
            Vote::NoMore { .. } => self.note_no_more(from),
            Vote::Bval { round, .. } | Vote::Aux { round, .. } | Vote::Conf { round, .. } =>
                self.note_claim(from, *round, vote),
            Vote::Coin {
                round,
                share,
                salt,
                branch,
                ..
            } => self.note_share(from, *round, *share, salt, branch),
            _ => None,
        }
    }

    // A desk wants no more lanes, which is heard of the own node's desk alone.
    fn note_no_more(&mut self, from: u8) -> Option<u8>
        requires { from < self.old.config.n }
        ensures { Notes self.old self.new (hearing from (NoMore self.old.epoch)) result }
    {
        if from != self.node {
            return None;
        }
        self.take(false);
        if self.has_begun() {
            return None;
        }
        Some(0)
    }

    // A node makes a claim in a round.
    fn note_claim(&mut self, from: u8, round: u8, vote: &Vote) -> Option<u8>
        requires from { from < self.old.config.n }
        requires epoch { epoch_of vote.now ≡ self.old.epoch }
        requires kind { IsClaim round vote.now }
        ensures { Notes self.old self.new (hearing from vote.now) result }
    {
        if round >= self.config.rounds() {
            return None;
        }
        let config = self.config;
        if !self.rounds.hear(&config, round, from, vote) {
            return None;
        }
        Some(round)
    }

    // A node shows its share of a coin.
    fn note_share(
        &mut self,
        from: u8,
        round: u8,
        share: u8,
        salt: &[u8; 16],
        branch: &Branch,
    ) -> Option<u8>
        requires { from < self.old.config.n }
        ensures { Notes self.old self.new (hearing from (Coin self.old.epoch round share salt.now branch.now)) result }
    {
        if round >= self.config.rounds() {
            return None;
        }
        let config = self.config;
        if !self
            .rounds
            .hear_share(&config, round, from, share, salt, branch)
        {
            return None;
        }
        Some(round)
    }

    // Whether an estimate of round 0 is cast.
    pub(crate) fn has_begun(&self) -> bool
        ensures { result ≡ mark_at self.now (any_est 0) }
    {
        let rounds = self.config.rounds();
        prove!(rounds >= 1);
        self.marks(0).ests.any()
    }
}

// The round that a vote is about, if it is about one.
fn round_of(vote: &Vote) -> Option<u8>
    ensures { result ≡ round_of vote.now }
{
    match vote {
        Vote::Est { round, .. }
        | Vote::Bval { round, .. }
        | Vote::Aux { round, .. }
        | Vote::Conf { round, .. }
        | Vote::Pick { round, .. }
        | Vote::Coin { round, .. } => Some(*round),
        _ => None,
    }
}
