//! The coin of a round.
ghost use Rattle.std.specs.Prelude.{◌≡◌, ◌<◌, IfSome};
ghost use Rattle.coin_deal.specs.Heard.{IsGood};
ghost use Rattle.hb_rules.specs.Coins.{coin_in, share_in};
ghost use Rattle.aba_judge.specs.Checked.{AreSharesChecked};
ghost use Rattle.aba_judge.specs.Adding.{with_shown, shares_at};

use crate::place::Place;
use coin_deal::Deal;
use coin_share::Shares;
use hb_rules::Heard;
use hb_wire::Vote;

// Adds the share that a hearing shows for a round, if it shows one, which is good.
fn add(shares: &mut Shares, epoch: u8, round: u8, said: &Heard)
    requires { IfSome (share_in epoch round said.now.from said.now.vote) (IsGood shares.old.root shares.old.n) }
    ensures { shares.new ≡ with_shown shares.old epoch round said.now }
{
    match said.vote() {
        Vote::Coin {
            epoch: e,
            round: r,
            share,
            salt,
            branch,
        } if *e == epoch && *r == round => shares.add_checked(said.from, *share, salt, branch),
        _ => {}
    }
}

// The shares of a round that were heard, the first of each node. They were checked as they were heard.
fn collected(deal: &Deal, place: &Place, round: u8, heard: &[Heard]) -> Shares
    requires deal { deal.now ≡ place.now.config }
    requires lane { place.now.lane < place.now.config.n }
    requires epoch { place.now.epoch < place.now.config.epochs }
    requires round { round < place.now.config.rounds }
    requires checked { AreSharesChecked place.now.config place.now.lane heard.now }
    ensures { result ≡ shares_at place.now.config place.now.epoch place.now.lane round heard.now }
{
    let n = place.config.n();
    let f = place.config.f();
    let mut shares = Shares::new(n, f, deal.root_of(place.epoch, place.lane, round));
    for said in heard {
        add(&mut shares, place.epoch, round, said);
    }
    shares
}

// The coin of a round, of the good shares of the first f + 1 nodes.
pub(crate) fn coin_of(deal: &Deal, place: &Place, round: u8, heard: &[Heard]) -> Option<bool>
    requires deal { deal.now ≡ place.now.config }
    requires lane { place.now.lane < place.now.config.n }
    requires epoch { place.now.epoch < place.now.config.epochs }
    requires round { round < place.now.config.rounds }
    requires checked { AreSharesChecked place.now.config place.now.lane heard.now }
    ensures { result ≡ coin_in place.now.config place.now.epoch place.now.lane heard.now round }
{
    collected(deal, place, round, heard).coin()
}
