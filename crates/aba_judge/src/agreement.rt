//! The votes of an agreement.
ghost use Rattle.std.specs.Prelude.{◌≡◌, ◌<◌, true};
ghost use Rattle.hb_wire.specs.Votes.{epoch_of};
ghost use Rattle.hb_rules.specs.Agreement.{MayAgree};
ghost use Rattle.hb_rules.specs.Terms.{AreHeardSpelled};
ghost use Rattle.hb_rules.specs.Apart.{IsHeardApart};
ghost use Rattle.aba_judge.specs.Checked.{AreSharesChecked};

use crate::place::Place;
use crate::rows::{
    may_accept, may_confirm, may_decide, may_estimate, may_pick, may_show, may_support,
};
use coin_deal::Deal;
use hb_rules::Heard;
use hb_wire::Vote;

/// Whether a lane may cast this vote in the binary agreement of the vote's epoch, by the votes that it has cast and those that it
/// has heard (after Mostéfaoui, Moumen and Raynal, PODC 2014; with a confirm phase where the rules are of version 2). A yes is
/// always right. A no is right where a lane of a correct node heard all of it in a legal history in which no two hashed strings
/// share a digest: only there do all choices of f + 1 good shares give one coin, and it looks at the first f + 1 that were heard.
/// Votes of other epochs and parts may be among those that were cast and heard, but no share that is not good for its own epoch
/// and round: whoever hands them over has checked each once, and no look at them checks them again.
///
/// Time is linear in the number of votes; an estimate of a later round makes the coin of the round before, a decision that of
/// each round in which the lane picked the bit alone.
pub fn may_agree(deal: &Deal, place: &Place, own: &[Vote], heard: &[Heard], vote: &Vote) -> bool
    requires deal { deal.now ≡ place.now.config }
    requires node { place.now.node < place.now.config.n }
    requires lane { place.now.lane < place.now.config.n }
    requires epoch { place.now.epoch < place.now.config.epochs }
    requires same { epoch_of vote.now ≡ place.now.epoch }
    requires checked { AreSharesChecked place.now.config place.now.lane heard.now }
    requires spelled { AreHeardSpelled place.now.config heard.now }
    ensures sound { result ≡ true → MayAgree place.now.config place.now.node place.now.lane own.now heard.now vote.now }
    ensures complete { IsHeardApart place.now.config place.now.node place.now.lane heard.now
        → MayAgree place.now.config place.now.node place.now.lane own.now heard.now vote.now → result ≡ true }
{
    // A config is sound where its liars can be told.
    let _sound = place.config.liars();
    match vote {
        Vote::Est { round, bit, .. } => may_estimate(deal, place, *round, *bit, own, heard),
        Vote::Bval { round, bit, .. } => may_support(place, *round, *bit, own, heard),
        Vote::Aux { round, bit, .. } => may_accept(place, *round, *bit, own, heard),
        Vote::Conf { round, vals, .. } => may_confirm(place, *round, *vals, own, heard),
        Vote::Pick { round, vals, .. } => may_pick(place, *round, *vals, own, heard),
        Vote::Coin { round, .. } => may_show(deal, place, *round, own, vote),
        Vote::Decided { bit, .. } => may_decide(deal, place, *bit, own, heard),
        _ => false,
    }
}
