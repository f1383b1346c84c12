ghost use Rattle.std.specs.Prelude.{◌≡◌, ◌↔◌, ℕ, ◌+◌, ◌<◌, ◌≤◌, ◌==◌, ◌&&◌, ◌||◌, true, false, [], length, take, slice_index_or, vec_capacity, IfOk, None, is_some};
ghost use Rattle.std.specs.Arc.{arc_value};
ghost use Rattle.std.specs.List.{list_any};
ghost use Rattle.hb_base.specs.NodeSet.{is_in};
ghost use Rattle.hb_base.specs.Limits.{most_nodes};
ghost use Rattle.merkle_branch.specs.Digests.{leaf_digests};
ghost use Rattle.merkle_branch.specs.Branches.{branch_of};
ghost use Rattle.coin_deal.specs.Deal.{share, salt, share as dealt_share, salt as dealt_salt, coin_leaves};
ghost use Rattle.coin_deal.specs.Heard.{heard_share, IsGoodShare};
ghost use Rattle.hb_rules.specs.Claims.{is_bit};
ghost use Rattle.hb_rules.specs.Marks.{Claim};
ghost use Rattle.aba_core.specs.Bits.{holds};
ghost use Rattle.aba_core.specs.Levels.{levels_of};
ghost use Rattle.aba_core.specs.Made.{all_rounds, round_of, replaced};
ghost use Rattle.aba_core.specs.Marks.{with_vote};
ghost use Rattle.aba_core.specs.Rounds.{blank, after_share, IsRound};
ghost use Rattle.aba_core.specs.Tables.{no_tables, voters_in, count_in, claims};

use crate::levels::Levels;
use crate::marks::Marks;
use crate::round::Round;
use crate::tables::Tables;
use coin_deal::{Deal, DealtShare};
use hb_base::Config;
use hb_wire::Vote;
use merkle_branch::Branch;
use std::alloc::{AllocError, Global};
use std::marker::Model;
use std::sync::Arc;

// The rounds of one agreement. They are made up to the last in which something was cast or heard; those after it are new.
// There is room for all, so that making one needs no memory, and no page on which none was made is touched. Clauses see each
// round that the run has.
#[derive(Drop)]
pub(crate) struct Rounds {
    deal: Arc<Deal, Global>,
    lane: u8,
    epoch: u8,
    made: Vec<Round>,
}

impl Model for Rounds {
    ghost use Rattle.std.specs.Prelude.{vec_capacity};
    ghost use Rattle.aba_core.specs.Made.{RoundsView, all_rounds, AreMade};

    ghost Value = { RoundsView };

    ghost view = { λ s. record {
      config = s.deal.value;
      lane = s.lane;
      epoch = s.epoch;
      all = all_rounds s.deal.value s.lane s.epoch s.made.items;
    } };

    ghost invariant = { λ s. AreMade s.deal.value s.lane s.epoch s.made.items (vec_capacity s.made) };
}

impl Rounds {
    // Rounds in which nothing was cast or heard.
    pub(crate) fn new(
        alloc: Global,
        config: &Config,
        deal: &Arc<Deal, Global>,
        lane: u8,
        epoch: u8,
    ) -> Result<Rounds, AllocError>
        requires deal { arc_value deal.now ≡ config.now }
        requires lane { lane < config.now.n }
        requires epoch { epoch < config.now.epochs }
        ensures { IfOk result (λ s. s ≡ record { config = config.now; lane = lane; epoch = epoch; all = all_rounds config.now lane epoch [] }) }
    {
        Ok(Rounds {
            deal: deal.clone()?,
            lane,
            epoch,
            made: Vec::with_capacity(alloc, config.rounds() as usize)?,
        })
    }

    // What was cast in a round.
    pub(crate) fn marks(&self, round: u8) -> Marks
        requires { round < self.now.config.rounds }
        ensures { result ≡ (round_of self.now round).marks }
    {
        marks_in(self.made.as_slice(), round)
    }

    // The levels of what was heard in a round.
    pub(crate) fn levels(&self, config: &Config, round: u8) -> Levels
        requires config { config.now ≡ self.now.config }
        requires round { round < self.now.config.rounds }
        ensures { result ≡ (round_of self.now round).levels }
    {
        levels_in(config, self.made.as_slice(), round)
    }

    // The coin of a round, once it is known.
    pub(crate) fn coin(&self, round: u8) -> Option<bool>
        requires { round < self.now.config.rounds }
        ensures { result ≡ (round_of self.now round).coin }
    {
        coin_in(self.made.as_slice(), round)
    }

    // Whether in a round before this one the lane picked the bit alone, and the coin is the bit.
    pub(crate) fn was_settled(&self, round: u8, bit: bool) -> bool
        requires { round < self.now.config.rounds }
        ensures { result ≡ list_any (λ x. holds x.marks.picks bit && is_bit bit x.coin) (take round self.now.all) }
    {
        is_any_settled(self.made.as_slice(), round, bit)
    }

    // The share of the coin of a round that was dealt to a node.
    pub(crate) fn dealt_to(&self, round: u8, node: u8) -> DealtShare
        requires round { round < self.now.config.rounds }
        requires node { node < self.now.config.n }
        ensures share { result.share ≡ share self.now.config self.now.epoch self.now.lane round node }
        ensures salt { result.salt ≡ salt self.now.config self.now.epoch self.now.lane round node }
        ensures branch { result.branch ≡ branch_of (leaf_digests (coin_leaves self.now.config self.now.epoch self.now.lane round)) node }
    {
        self.deal.dealt_to(self.epoch, self.lane, round, node)
    }

    // Marks a vote of a round that the lane has cast.
    pub(crate) fn mark(&mut self, config: &Config, round: u8, vote: &Vote)
        requires config { config.now ≡ self.old.config }
        requires round { round < self.old.config.rounds }
        ensures { self.new ≡ replaced self.old round (record (round_of self.old round) { marks = with_vote (round_of self.old round).marks vote.now }) }
    {
        make(
            config,
            &self.deal,
            self.lane,
            self.epoch,
            &mut self.made,
            round,
        );
        self.made[round as usize].marks.add(vote);
    }

    // Hears a claim of a node in a round: whether a count then is at another level.
    pub(crate) fn hear(&mut self, config: &Config, round: u8, from: u8, vote: &Vote) -> bool
        requires config { config.now ≡ self.old.config }
        requires round { round < self.old.config.rounds }
        requires from { from < most_nodes }
        ensures replaced { self.new ≡ replaced self.old round (round_of self.new round) }
        ensures same { (result ≡ false) ↔ ((round_of self.new round).levels ≡ (round_of self.old round).levels) }
        ensures claims { (claim : Claim) (node : ℕ) → is_in (voters_in (round_of self.new round).tables claim) node
            ≡ ((claims claim vote.now && (node == from)) || is_in (voters_in (round_of self.old round).tables claim) node) }
        ensures levels { (round_of self.new round).levels ≡ levels_of config.now (count_in (round_of self.new round).tables) 0 }
        ensures rest { round_of self.new round ≡ record (round_of self.old round) { tables = (round_of self.new round).tables; levels = (round_of self.new round).levels } }
    {
        make(
            config,
            &self.deal,
            self.lane,
            self.epoch,
            &mut self.made,
            round,
        );
        self.made[round as usize].hear(config, from, vote)
    }

    // Hears a share of a node in a round: whether it makes the coin known.
    pub(crate) fn hear_share(
        &mut self,
        config: &Config,
        round: u8,
        from: u8,
        share: u8,
        salt: &[u8; 16],
        branch: &Branch,
    ) -> bool
        requires config { config.now ≡ self.old.config }
        requires round { round < self.old.config.rounds }
        requires from { from < self.old.config.n }
        requires is_round { IsRound self.old.config self.old.lane self.old.epoch round (round_of self.old round) }
        ensures same { result ≡ false
            → (after_share (round_of self.old round) (heard_share from share salt.now branch.now)).coin ≡ (round_of self.old round).coin }
        ensures known { result ≡ true → (is_some (after_share (round_of self.old round) (heard_share from share salt.now branch.now)).coin ≡ true)
            × ((round_of self.old round).coin ≡ None) }
        ensures exact { self.new ≡ replaced self.old round (after_share (round_of self.old round) (heard_share from share salt.now branch.now)) }
    {
        let is_dealt = self.is_dealt(round, from, share, salt, branch);
        make(
            config,
            &self.deal,
            self.lane,
            self.epoch,
            &mut self.made,
            round,
        );
        self.made[round as usize].hear_share(from, share, salt, branch, is_dealt)
    }

    // Whether the coin of a round is not known yet, and this share of it was dealt to the node: then it is good.
    fn is_dealt(&self, round: u8, from: u8, share: u8, salt: &[u8; 16], branch: &Branch) -> bool
        requires round { round < self.now.config.rounds }
        requires from { from < self.now.config.n }
        ensures good { result ≡ true → IsGoodShare self.now.config self.now.epoch self.now.lane round from share salt.now branch.now }
        ensures exact { (result ≡ true) ↔ (((round_of self.now round).coin ≡ None)
            × ((share ≡ dealt_share self.now.config self.now.epoch self.now.lane round from)
            × (salt.now ≡ dealt_salt self.now.config self.now.epoch self.now.lane round from)
            × (branch.now ≡ branch_of (leaf_digests (coin_leaves self.now.config self.now.epoch self.now.lane round)) from))) }
    {
        coin_in(self.made.as_slice(), round).is_none()
            && self
                .deal
                .is_dealt(self.epoch, self.lane, round, from, share, salt, branch)
    }
}

// Makes the rounds up to this one, for which there is room.
fn make(config: &Config, deal: &Deal, lane: u8, epoch: u8, made: &mut Vec<Round>, round: u8)
    requires deal { deal.now ≡ config.now }
    requires lane { lane < config.now.n }
    requires epoch { epoch < config.now.epochs }
    requires round { round < config.now.rounds }
    requires count { length made.old.items ≤ config.now.rounds }
    requires room { config.now.rounds ≤ vec_capacity made.old }
    ensures same { all_rounds config.now lane epoch made.new.items ≡ all_rounds config.now lane epoch made.old.items }
    ensures made { round < length made.new.items }
    ensures count { length made.new.items ≤ config.now.rounds }
    ensures room { vec_capacity made.new ≡ vec_capacity made.old }
{
    'rounds: while made.len() <= round as usize {
        let next = made.len() as u8;
        made.push_reserved(Round::new(config, deal, lane, epoch, next));
    }
}

// What was cast in a round: nothing where it is not made.
fn marks_in(made: &[Round], round: u8) -> Marks
    ensures { result ≡ (slice_index_or made.now round blank).marks }
{
    match made.get(round as usize) {
        Some(known) => known.marks,
        None => Marks::none(),
    }
}

// The coin of a round: none where it is not made.
fn coin_in(made: &[Round], round: u8) -> Option<bool>
    ensures { result ≡ (slice_index_or made.now round blank).coin }
{
    match made.get(round as usize) {
        Some(known) => known.coin,
        None => None,
    }
}

// The levels of a round: those of no claim where it is not made.
fn levels_in(config: &Config, made: &[Round], round: u8) -> Levels
    ensures made { round < length made.now → result ≡ (slice_index_or made.now round blank).levels }
    ensures new { length made.now ≤ round → result ≡ levels_of config.now (count_in no_tables) 0 }
{
    match made.get(round as usize) {
        Some(known) => known.levels,
        None => Levels::of(config, &Tables::none()),
    }
}

// Whether in one of the first so many rounds that are made the lane picked the bit alone, and the coin is the bit.
fn is_any_settled(made: &[Round], count: u8, bit: bool) -> bool
    ensures { result ≡ list_any (λ x. holds x.marks.picks bit && is_bit bit x.coin) (take count made.now) }
{
    let count = made.len().min(count as usize);
    any_settled(&made[..count], bit)
}

// Whether in one of these rounds the lane picked the bit alone, and the coin is the bit.
fn any_settled(rounds: &[Round], bit: bool) -> bool
    ensures { result ≡ list_any (λ x. holds x.marks.picks bit && is_bit bit x.coin) rounds.now }
{
    rounds.iter().any(|known| known.is_settled(bit))
}
