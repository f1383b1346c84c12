ghost use Rattle.std.specs.Prelude.{◌≡◌, ◌+◌, ◌<◌, ◌&&◌, nat_le, None, if◌then◌else◌};
ghost use Rattle.hb_wire.specs.declared.vote.Vote.TheVariants.{Est, Aux, Conf, Pick, Decided};
ghost use Rattle.hb_rules.specs.declared.agreement_slot.AgreementSlot.TheVariants.{Begin, Support, Accept, ConfirmOne, ConfirmBoth, PickOne, PickBoth, ShowShare, GoOn, Decide};
ghost use Rattle.std.specs.Option.{option_map};
ghost use Rattle.hb_rules.specs.Agreement.{confirms};
ghost use Rattle.hb_rules.specs.Slots.{when};
ghost use Rattle.hb_rules.specs.AgreementRows.{limit_of, is_supported, has_quorum, is_gathered_one, is_gathered_both, is_confirmed_one, is_confirmed_both, was_settled, next_bit, stops, dealt};
ghost use Rattle.hb_rules.specs.Marks.{single, pick, bvals, auxes, confs};
ghost use Rattle.aba_core.specs.Levels.{levels_of};
ghost use Rattle.aba_core.specs.State.{round_in, mark_at, view_at, choice_at};
ghost use Rattle.aba_core.specs.Rows.{IsKnown};

use crate::aba::Aba;
use crate::levels::Levels;
use crate::marks::Marks;
use coin_deal::DealtShare;
use hb_rules::AgreementSlot;
use hb_wire::{Vals, Vote};

// What each row makes owed, by the tables.
impl Aba {
    // Whether the vote of a slot is cast, or another that fills its place.
    pub(crate) fn is_filled(&self, slot: AgreementSlot) -> bool
        requires { IsKnown self.now.config slot }
        ensures { result ≡ mark_at self.now (limit_of slot) }
    {
        match slot {
            AgreementSlot::Begin { .. } => self.marks(0).ests.any(),
            AgreementSlot::Support { round, bit } => self.marks(round).bvals.has(bit),
            AgreementSlot::Accept { round } => self.marks(round).aux,
            AgreementSlot::ConfirmOne { round, .. } | AgreementSlot::ConfirmBoth { round } => self
                .marks(round)
                .conf,
            AgreementSlot::PickOne { round, .. } | AgreementSlot::PickBoth { round } => self
                .marks(round)
                .any_pick(),
            AgreementSlot::ShowShare { round } => self.marks(round).coin,
            AgreementSlot::GoOn { round } => self.marks(round + 1).ests.any(),
            AgreementSlot::Decide { .. } => self.decisions.any(),
        }
    }

    // The vote that a slot makes owed, if it does.
    pub(crate) fn choice(&self, slot: AgreementSlot) -> Option<Vote>
        requires { IsKnown self.now.config slot }
        ensures { result ≡ choice_at self.now slot }
    {
        match slot {
            AgreementSlot::Begin { bit } => self.begin(bit),
            AgreementSlot::Support { round, bit } => self.support(round, bit),
            AgreementSlot::Accept { round } => self.accept(round),
            AgreementSlot::ConfirmOne { round, bit } => self.confirm_one(round, bit),
            AgreementSlot::ConfirmBoth { round } => self.confirm_both(round),
            AgreementSlot::PickOne { round, bit } => self.pick_one(round, bit),
            AgreementSlot::PickBoth { round } => self.pick_both(round),
            AgreementSlot::ShowShare { round } => self.show_share(round),
            AgreementSlot::GoOn { round } => self.go_on(round),
            AgreementSlot::Decide { round } => self.decide(round),
        }
    }

    // The rules have a confirm phase.
    pub(crate) fn confirms(&self) -> bool
        ensures { result ≡ confirms self.now.config }
    {
        self.config.version() == 2
    }

    // What was cast in a round.
    pub(crate) fn marks(&self, round: u8) -> Marks
        requires { round < self.now.config.rounds }
        ensures { result ≡ (round_in self.now round).marks }
    {
        self.rounds.marks(round)
    }

    fn levels(&self, round: u8) -> Levels
        requires { round < self.now.config.rounds }
        ensures { result ≡ levels_of self.now.config (view_at self.now).count round }
    {
        self.rounds.levels(&self.config, round)
    }

    fn coin(&self, round: u8) -> Option<bool>
        requires { round < self.now.config.rounds }
        ensures { result ≡ (round_in self.now round).coin }
    {
        self.rounds.coin(round)
    }

    // f + 1 nodes support the bit.
    fn is_backed(&self, round: u8, bit: bool) -> bool
        requires { round < self.now.config.rounds }
        ensures { result ≡ nat_le (self.now.config.f + 1) ((view_at self.now).count (bvals round bit)) }
    {
        self.levels(round).backed.has(bit)
    }

    // 2f + 1 nodes support it.
    fn is_supported(&self, round: u8, bit: bool) -> bool
        requires { round < self.now.config.rounds }
        ensures { result ≡ is_supported self.now.config (view_at self.now) round bit }
    {
        self.levels(round).supported.has(bit)
    }

    // n - f nodes have accepted it.
    fn is_gathered(&self, round: u8, bit: bool) -> bool
        requires { round < self.now.config.rounds }
        ensures { result ≡ has_quorum self.now.config (view_at self.now) (auxes round bit) }
    {
        self.levels(round).gathered.has(bit)
    }

    // n - f nodes are left with it alone.
    fn is_confirmed(&self, round: u8, bit: bool) -> bool
        requires { round < self.now.config.rounds }
        ensures { result ≡ has_quorum self.now.config (view_at self.now) (confs round bit) }
    {
        self.levels(round).confirmed.has(bit)
    }

    #[tactic(auto, unfolding(hb_rules::specs::AgreementRows::choice_of))]
    fn begin(&self, bit: bool) -> Option<Vote>
        ensures { result ≡ choice_at self.now (Begin bit) }
    {
        let is_due = if bit { self.is_delivered } else { self.no_more };
        if is_due { Some(self.est(0, bit)) } else { None }
    }

    #[tactic(auto, unfolding(hb_rules::specs::AgreementRows::choice_of))]
    fn support(&self, round: u8, bit: bool) -> Option<Vote>
        requires { round < self.now.config.rounds }
        ensures { result ≡ choice_at self.now (Support round bit) }
    {
        let marks = self.marks(round);
        if marks.ests.has(bit) || marks.ests.any() && self.is_backed(round, bit) {
            Some(Vote::Bval {
                epoch: self.epoch,
                round,
                bit,
            })
        } else {
            None
        }
    }

    // Of two bits that are supported it accepts 1.
    #[tactic(auto, unfolding(hb_rules::specs::AgreementRows::choice_of))]
    fn accept(&self, round: u8) -> Option<Vote>
        requires { round < self.now.config.rounds }
        ensures { result ≡ choice_at self.now (Accept round) }
    {
        if !self.marks(round).ests.any() {
            return None;
        }
        if self.is_supported(round, true) {
            Some(self.aux(round, true))
        } else if self.is_supported(round, false) {
            Some(self.aux(round, false))
        } else {
            None
        }
    }

    #[tactic(auto, unfolding(hb_rules::specs::AgreementRows::choice_of))]
    fn confirm_one(&self, round: u8, bit: bool) -> Option<Vote>
        requires { round < self.now.config.rounds }
        ensures { result ≡ choice_at self.now (ConfirmOne round bit) }
    {
        self.conf_if(self.is_gathered_one(round, bit), round, single(bit))
    }

    #[tactic(auto, unfolding(hb_rules::specs::AgreementRows::choice_of))]
    fn confirm_both(&self, round: u8) -> Option<Vote>
        requires { round < self.now.config.rounds }
        ensures { result ≡ choice_at self.now (ConfirmBoth round) }
    {
        self.conf_if(self.is_gathered_both(round), round, Vals::Both)
    }

    #[tactic(auto, unfolding(hb_rules::specs::AgreementRows::choice_of))]
    fn pick_one(&self, round: u8, bit: bool) -> Option<Vote>
        requires { round < self.now.config.rounds }
        ensures { result ≡ choice_at self.now (PickOne round bit) }
    {
        let is_left = if self.confirms() {
            self.is_confirmed_one(round, bit)
        } else {
            self.is_gathered_one(round, bit)
        };
        self.pick_if(is_left, round, single(bit))
    }

    #[tactic(auto, unfolding(hb_rules::specs::AgreementRows::choice_of))]
    fn pick_both(&self, round: u8) -> Option<Vote>
        requires { round < self.now.config.rounds }
        ensures { result ≡ choice_at self.now (PickBoth round) }
    {
        let are_left = if self.confirms() {
            self.is_confirmed_both(round)
        } else {
            self.is_gathered_both(round)
        };
        self.pick_if(are_left, round, Vals::Both)
    }

    fn conf_if(&self, is_due: bool, round: u8, vals: Vals) -> Option<Vote>
        ensures { result ≡ when is_due (Conf self.now.epoch round vals) }
    {
        if is_due {
            Some(Vote::Conf {
                epoch: self.epoch,
                round,
                vals,
            })
        } else {
            None
        }
    }

    fn pick_if(&self, is_due: bool, round: u8, vals: Vals) -> Option<Vote>
        ensures { result ≡ when is_due (Pick self.now.epoch round vals) }
    {
        if is_due {
            Some(Vote::Pick {
                epoch: self.epoch,
                round,
                vals,
            })
        } else {
            None
        }
    }

    #[tactic(auto, unfolding(hb_rules::specs::AgreementRows::choice_of))]
    fn show_share(&self, round: u8) -> Option<Vote>
        requires { round < self.now.config.rounds }
        ensures { result ≡ choice_at self.now (ShowShare round) }
    {
        if self.marks(round).any_pick() {
            Some(self.own_share(round))
        } else {
            None
        }
    }

    // The node's own share of the coin of a round.
    fn own_share(&self, round: u8) -> Vote
        requires { round < self.now.config.rounds }
        ensures { result ≡ dealt self.now.config self.now.node self.now.lane self.now.epoch round }
    {
        let DealtShare {
            share,
            salt,
            branch,
        } = self.rounds.dealt_to(round, self.node);
        Vote::Coin {
            epoch: self.epoch,
            round,
            share,
            salt,
            branch,
        }
    }

    #[tactic(auto, unfolding(hb_rules::specs::AgreementRows::choice_of))]
    fn go_on(&self, round: u8) -> Option<Vote>
        requires { round + 1 < self.now.config.rounds }
        ensures { result ≡ choice_at self.now (GoOn round) }
    {
        match self.coin(round) {
            Some(coin) => self.next_est(round, coin),
            None => None,
        }
    }

    #[tactic(auto, unfolding(hb_rules::specs::AgreementRows::choice_of))]
    fn decide(&self, round: u8) -> Option<Vote>
        requires { round < self.now.config.rounds }
        ensures { result ≡ choice_at self.now (Decide round) }
    {
        match self.coin(round) {
            Some(coin) => self.decided_by(round, coin),
            None => None,
        }
    }

    // The decision, by a round that has this coin.
    fn decided_by(&self, round: u8, coin: bool) -> Option<Vote>
        requires { round < self.now.config.rounds }
        ensures { result ≡ when ((view_at self.now).cast (pick round (single coin))) (Decided self.now.epoch coin) }
    {
        if self.marks(round).picks.has(coin) {
            Some(Vote::Decided {
                epoch: self.epoch,
                bit: coin,
            })
        } else {
            None
        }
    }

    // The estimate after a round that has this coin.
    fn next_est(&self, round: u8, coin: bool) -> Option<Vote>
        requires { round + 1 < self.now.config.rounds }
        ensures { result ≡ (if stops (view_at self.now) round coin then None else option_map (Est self.now.epoch (round + 1)) (next_bit (view_at self.now) round coin)) }
    {
        let rounds = self.config.rounds();
        prove!(round < rounds);
        if self.stops(round, coin) {
            return None;
        }
        match self.next_bit(round, coin) {
            Some(bit) => Some(self.est(round + 1, bit)),
            None => None,
        }
    }

    // A lane stops where the coin is the bit that it decided by an earlier round.
    fn stops(&self, round: u8, coin: bool) -> bool
        requires { round < self.now.config.rounds }
        ensures { result ≡ stops (view_at self.now) round coin }
    {
        self.decisions.has(coin) && self.was_settled(round, coin)
    }

    fn aux(&self, round: u8, bit: bool) -> Vote
        ensures { result ≡ Aux self.now.epoch round bit }
    {
        Vote::Aux {
            epoch: self.epoch,
            round,
            bit,
        }
    }

    fn est(&self, round: u8, bit: bool) -> Vote
        ensures { result ≡ Est self.now.epoch round bit }
    {
        Vote::Est {
            epoch: self.epoch,
            round,
            bit,
        }
    }

    // The bit with which a lane goes on from a round that has this coin.
    fn next_bit(&self, round: u8, coin: bool) -> Option<bool>
        requires { round < self.now.config.rounds }
        ensures { result ≡ next_bit (view_at self.now) round coin }
    {
        let marks = self.marks(round);
        if marks.picks.zero {
            Some(false)
        } else if marks.picks.one {
            Some(true)
        } else if marks.pick_both {
            Some(coin)
        } else {
            None
        }
    }

    // Whether the lane picked the bit alone in an earlier round whose coin is the bit.
    fn was_settled(&self, round: u8, bit: bool) -> bool
        requires { round < self.now.config.rounds }
        ensures { result ≡ was_settled (view_at self.now) round bit }
    {
        self.rounds.was_settled(round, bit)
    }

    fn is_gathered_one(&self, round: u8, bit: bool) -> bool
        requires { round < self.now.config.rounds }
        ensures { result ≡ is_gathered_one self.now.config (view_at self.now) round bit }
    {
        self.marks(round).aux && self.is_supported(round, bit) && self.is_gathered(round, bit)
    }

    fn is_gathered_both(&self, round: u8) -> bool
        requires { round < self.now.config.rounds }
        ensures { result ≡ is_gathered_both self.now.config (view_at self.now) round }
    {
        let levels = self.levels(round);
        let supported = levels.supported.zero && levels.supported.one;
        let accepted = levels.accepted.zero && levels.accepted.one;
        let alone = levels.gathered.zero || levels.gathered.one;
        self.marks(round).aux && supported && accepted && levels.any_gathered && !alone
    }

    fn is_confirmed_one(&self, round: u8, bit: bool) -> bool
        requires { round < self.now.config.rounds }
        ensures { result ≡ is_confirmed_one self.now.config (view_at self.now) round bit }
    {
        self.marks(round).conf && self.is_supported(round, bit) && self.is_confirmed(round, bit)
    }

    fn is_confirmed_both(&self, round: u8) -> bool
        requires { round < self.now.config.rounds }
        ensures { result ≡ is_confirmed_both self.now.config (view_at self.now) round }
    {
        let levels = self.levels(round);
        let supported = levels.supported.zero && levels.supported.one;
        let left = levels.left.zero && levels.left.one;
        let alone = levels.confirmed.zero || levels.confirmed.one;
        self.marks(round).conf && supported && levels.any_confirmed && left && !alone
    }
}

// The set with this bit alone.
fn single(bit: bool) -> Vals
    ensures { result ≡ single bit }
{
    if bit { Vals::One } else { Vals::Zero }
}
