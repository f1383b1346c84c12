ghost use Rattle.std.specs.Prelude.{◌≡◌, ◌↔◌, ℕ, ◌<◌, ◌==◌, ◌&&◌, ◌||◌, true, false, None, is_some};
ghost use Rattle.hb_base.specs.NodeSet.{is_in};
ghost use Rattle.hb_base.specs.Limits.{most_nodes};
ghost use Rattle.hb_rules.specs.Marks.{Claim};
ghost use Rattle.coin_deal.specs.Heard.{heard_share, IsGood};
ghost use Rattle.coin_share.specs.Shares.{with_offered};
ghost use Rattle.hb_rules.specs.Claims.{is_bit};
ghost use Rattle.aba_core.specs.Bits.{holds};
ghost use Rattle.aba_core.specs.Levels.{levels_of};
ghost use Rattle.aba_core.specs.Tables.{voters_in, count_in, claims};
ghost use Rattle.aba_core.specs.Rounds.{new_round, after_share};

use crate::levels::Levels;
use crate::marks::Marks;
use crate::tables::Tables;
use coin_deal::Deal;
use coin_share::Shares;
use hb_base::Config;
use hb_wire::Vote;
use merkle_branch::Branch;

// What a node knows of one round: what its lane has cast there, and what was heard.
#[derive(Drop)]
pub(crate) struct Round {
    pub(crate) marks: Marks,
    pub(crate) tables: Tables,
    pub(crate) levels: Levels,

    // The good shares that were heard, until they made the coin.
    pub(crate) shares: Shares,
    pub(crate) coin: Option<bool>,
}

impl Round {
    // A round of the agreement of a lane and an epoch, in which nothing was cast or heard.
    #[tactic(auto, unfolding(crate::specs::Rounds::new_round))]
    pub(crate) fn new(config: &Config, deal: &Deal, lane: u8, epoch: u8, round: u8) -> Round
        requires deal { deal.now ≡ config.now }
        requires lane { lane < config.now.n }
        requires epoch { epoch < config.now.epochs }
        requires round { round < config.now.rounds }
        ensures { result ≡ new_round config.now lane epoch round }
    {
        let tables = Tables::none();
        let levels = Levels::of(config, &tables);
        Round {
            marks: Marks::none(),
            tables,
            levels,
            shares: Shares::new(config.n(), config.f(), deal.root_of(epoch, lane, round)),
            coin: None,
        }
    }

    // Hears a claim of a node: whether a count then is at another level.
    pub(crate) fn hear(&mut self, config: &Config, from: u8, vote: &Vote) -> bool
        requires { from < most_nodes }
        ensures same { (result ≡ false) ↔ (self.new.levels ≡ self.old.levels) }
        ensures claims { (claim : Claim) (node : ℕ) → is_in (voters_in self.new.tables claim) node
            ≡ ((claims claim vote.now && (node == from)) || is_in (voters_in self.old.tables claim) node) }
        ensures levels { self.new.levels ≡ levels_of config.now (count_in self.new.tables) 0 }
        ensures rest { self.new ≡ record self.old { tables = self.new.tables; levels = self.new.levels } }
    {
        let before = self.levels;
        self.tables.hear(from, vote);
        self.levels = Levels::of(config, &self.tables);
        !self.levels.are(&before)
    }

    // Hears a share of a node: whether it makes the coin known. Once the coin is known no share is looked at.
    pub(crate) fn hear_share(
        &mut self,
        from: u8,
        share: u8,
        salt: &[u8; 16],
        branch: &Branch,
        is_known_good: bool,
    ) -> bool
        requires from { from < self.old.shares.n }
        requires dealt { is_known_good ≡ true → IsGood self.old.shares.root self.old.shares.n (heard_share from share salt.now branch.now) }
        ensures same { result ≡ false → self.new.coin ≡ self.old.coin }
        ensures known { result ≡ true → (is_some self.new.coin ≡ true) × (self.old.coin ≡ None) }
        ensures exact { self.new ≡ after_share self.old (heard_share from share salt.now branch.now) }
    {
        if self.coin.is_some() {
            return false;
        }
        take_in(&mut self.shares, from, share, salt, branch, is_known_good);
        self.coin = self.shares.coin();
        self.coin.is_some()
    }

    // Whether the lane picked the bit alone, and the coin is the bit.
    pub(crate) fn is_settled(&self, bit: bool) -> bool
        ensures { result ≡ (holds self.now.marks.picks bit && is_bit bit self.now.coin) }
    {
        match self.coin {
            Some(coin) => self.marks.picks.has(bit) && coin == bit,
            None => false,
        }
    }
}

// Takes in a share of a node: unless it is known to be good, its branch is checked.
fn take_in(
    shares: &mut Shares,
    from: u8,
    share: u8,
    salt: &[u8; 16],
    branch: &Branch,
    is_known_good: bool,
)
    requires from { from < shares.old.n }
    requires dealt { is_known_good ≡ true → IsGood shares.old.root shares.old.n (heard_share from share salt.now branch.now) }
    ensures { shares.new ≡ with_offered shares.old (heard_share from share salt.now branch.now) }
{
    if is_known_good {
        shares.add_checked(from, share, salt, branch);
    } else {
        shares.offer(from, share, salt, branch);
    }
}
