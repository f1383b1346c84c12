//! The rows of the rules.
ghost use Rattle.std.specs.Prelude.{◌≡◌, ◌+◌, ◌-◌, ◌*◌, ◌<◌, ◌&&◌, not, nat_lt, nat_le, true, false};
ghost use Rattle.hb_rules.specs.AgreementRows.{view_of, is_gathered_one, is_confirmed_one, was_settled, dealt};
ghost use Rattle.hb_rules.specs.Same.{same_vote};
ghost use Rattle.hb_rules.specs.Marks.{bvals, any_pick, any_coin, has, support};
ghost use Rattle.aba_judge.specs.Checked.{AreSharesChecked};
ghost use Rattle.aba_judge.specs.Names.{claim_of, mark_of};
ghost use Rattle.aba_judge.specs.Tests.{gathers_both, gathers, confirms_both, is_confirmed, is_left, goes_on, begins, allows_est, allows_bval, allows_aux, allows_conf, allows_pick, allows_decided, settles};

use crate::claims::{Said, single, support, wants_no_more};
use crate::coins::coin_of;
use crate::marks::{Cast, has};
use crate::place::Place;
use coin_deal::{Deal, DealtShare};
use hb_rules::Heard;
use hb_wire::{Vals, Vote};

// Whether the run has a round, and the lane has cast no such vote.
fn is_first(place: &Place, round: u8, cast: Cast, own: &[Vote]) -> bool
    ensures exact { result ≡ (nat_lt round place.now.config.rounds && not (has place.now.epoch (mark_of cast) own.now)) }
    ensures inside { result ≡ true → round < place.now.config.rounds }
{
    round < place.config.rounds() && !has(place.epoch, cast, own)
}

// Whether f + 1 nodes support a bit.
fn is_backed(place: &Place, round: u8, bit: bool, heard: &[Heard]) -> bool
    ensures { result ≡ nat_le (place.now.config.f + 1) (support place.now.config.n place.now.epoch (bvals round bit) heard.now) }
{
    let n = place.config.n();
    place.config.f() + 1 <= support(n, place.epoch, Said::Bvals { round, bit }, heard)
}

// Whether 2f + 1 do.
fn is_supported(place: &Place, round: u8, bit: bool, heard: &[Heard]) -> bool
    ensures { result ≡ nat_le (2 * place.now.config.f + 1) (support place.now.config.n place.now.epoch (bvals round bit) heard.now) }
{
    let n = place.config.n();
    2 * place.config.f() + 1 <= support(n, place.epoch, Said::Bvals { round, bit }, heard)
}

// Whether 2f + 1 support each bit.
fn are_supported(place: &Place, round: u8, heard: &[Heard]) -> bool
    ensures { result ≡ (nat_le (2 * place.now.config.f + 1) (support place.now.config.n place.now.epoch (bvals round false) heard.now)
        && nat_le (2 * place.now.config.f + 1) (support place.now.config.n place.now.epoch (bvals round true) heard.now)) }
{
    is_supported(place, round, false, heard) && is_supported(place, round, true, heard)
}

// Whether n - f nodes make a claim.
fn has_quorum(place: &Place, said: Said, heard: &[Heard]) -> bool
    ensures { result ≡ nat_le (place.now.config.n - place.now.config.f) (support place.now.config.n place.now.epoch (claim_of said) heard.now) }
{
    let n = place.config.n();
    let f = place.config.f();
    prove!(f < n);
    n - f <= support(n, place.epoch, said, heard)
}

// Whether some node makes it.
fn is_made(place: &Place, said: Said, heard: &[Heard]) -> bool
    ensures { result ≡ nat_le 1 (support place.now.config.n place.now.epoch (claim_of said) heard.now) }
{
    let n = place.config.n();
    1 <= support(n, place.epoch, said, heard)
}

fn is_gathered_one(place: &Place, round: u8, bit: bool, own: &[Vote], heard: &[Heard]) -> bool
    ensures { result ≡ is_gathered_one place.now.config (view_of place.now.config place.now.node place.now.lane place.now.epoch own.now heard.now) round bit }
{
    has(place.epoch, Cast::AnyAux { round }, own)
        && (is_supported(place, round, bit, heard)
            && has_quorum(place, Said::Auxes { round, bit }, heard))
}

fn gathers_both(place: &Place, round: u8, own: &[Vote], heard: &[Heard]) -> bool
    ensures { result ≡ gathers_both place.now.config (view_of place.now.config place.now.node place.now.lane place.now.epoch own.now heard.now) round }
{
    has(place.epoch, Cast::AnyAux { round }, own)
        && (are_supported(place, round, heard)
            && ((is_made(place, Said::Auxes { round, bit: false }, heard)
                && is_made(place, Said::Auxes { round, bit: true }, heard))
                && has_quorum(place, Said::AnyAuxes { round }, heard)))
}

// Whether these bits are left, by the claims of accepted bits.
fn gathers(place: &Place, round: u8, vals: Vals, own: &[Vote], heard: &[Heard]) -> bool
    ensures { result ≡ gathers place.now.config (view_of place.now.config place.now.node place.now.lane place.now.epoch own.now heard.now) round vals }
{
    match vals {
        Vals::Zero => is_gathered_one(place, round, false, own, heard),
        Vals::One => is_gathered_one(place, round, true, own, heard),
        Vals::Both => gathers_both(place, round, own, heard),
    }
}

fn is_confirmed_one(place: &Place, round: u8, bit: bool, own: &[Vote], heard: &[Heard]) -> bool
    ensures { result ≡ is_confirmed_one place.now.config (view_of place.now.config place.now.node place.now.lane place.now.epoch own.now heard.now) round bit }
{
    has(place.epoch, Cast::AnyConf { round }, own)
        && (is_supported(place, round, bit, heard)
            && has_quorum(place, Said::Confs { round, bit }, heard))
}

fn confirms_both(place: &Place, round: u8, own: &[Vote], heard: &[Heard]) -> bool
    ensures { result ≡ confirms_both place.now.config (view_of place.now.config place.now.node place.now.lane place.now.epoch own.now heard.now) round }
{
    has(place.epoch, Cast::AnyConf { round }, own)
        && (are_supported(place, round, heard)
            && (has_quorum(place, Said::AnyConfs { round }, heard)
                && (is_made(place, Said::ConfsWith { round, bit: false }, heard)
                    && is_made(place, Said::ConfsWith { round, bit: true }, heard))))
}

fn is_confirmed(place: &Place, round: u8, vals: Vals, own: &[Vote], heard: &[Heard]) -> bool
    ensures { result ≡ is_confirmed place.now.config (view_of place.now.config place.now.node place.now.lane place.now.epoch own.now heard.now) round vals }
{
    match vals {
        Vals::Zero => is_confirmed_one(place, round, false, own, heard),
        Vals::One => is_confirmed_one(place, round, true, own, heard),
        Vals::Both => confirms_both(place, round, own, heard),
    }
}

fn is_left(place: &Place, round: u8, vals: Vals, own: &[Vote], heard: &[Heard]) -> bool
    ensures { result ≡ is_left place.now.config (view_of place.now.config place.now.node place.now.lane place.now.epoch own.now heard.now) round vals }
{
    if place.config.version() == 2 {
        is_confirmed(place, round, vals, own, heard)
    } else {
        gathers(place, round, vals, own, heard)
    }
}

// Whether the lane goes on from a round with this bit.
fn goes_on(deal: &Deal, place: &Place, round: u8, bit: bool, own: &[Vote], heard: &[Heard]) -> bool
    requires deal { deal.now ≡ place.now.config }
    requires lane { place.now.lane < place.now.config.n }
    requires epoch { place.now.epoch < place.now.config.epochs }
    requires round { round < place.now.config.rounds }
    requires checked { AreSharesChecked place.now.config place.now.lane heard.now }
    ensures { result ≡ goes_on (view_of place.now.config place.now.node place.now.lane place.now.epoch own.now heard.now) round bit }
{
    let alone = Cast::Pick {
        round,
        vals: single(bit),
    };
    let both = Cast::Pick {
        round,
        vals: Vals::Both,
    };
    match coin_of(deal, place, round, heard) {
        Some(coin) => {
            has(place.epoch, alone, own) || (has(place.epoch, both, own) && bit == coin)
        }
        None => false,
    }
}

fn begins(deal: &Deal, place: &Place, round: u8, bit: bool, own: &[Vote], heard: &[Heard]) -> bool
    requires deal { deal.now ≡ place.now.config }
    requires lane { place.now.lane < place.now.config.n }
    requires epoch { place.now.epoch < place.now.config.epochs }
    requires round { round < place.now.config.rounds }
    requires checked { AreSharesChecked place.now.config place.now.lane heard.now }
    ensures { result ≡ begins (view_of place.now.config place.now.node place.now.lane place.now.epoch own.now heard.now) round bit }
{
    if round > 0 {
        return goes_on(deal, place, round - 1, bit, own, heard);
    }
    if bit {
        has(place.epoch, Cast::Delivery, own)
    } else {
        wants_no_more(place.node, place.epoch, heard)
    }
}

pub(crate) fn may_estimate(
    deal: &Deal,
    place: &Place,
    round: u8,
    bit: bool,
    own: &[Vote],
    heard: &[Heard],
) -> bool
    requires deal { deal.now ≡ place.now.config }
    requires lane { place.now.lane < place.now.config.n }
    requires epoch { place.now.epoch < place.now.config.epochs }
    requires checked { AreSharesChecked place.now.config place.now.lane heard.now }
    ensures { result ≡ allows_est place.now.config (view_of place.now.config place.now.node place.now.lane place.now.epoch own.now heard.now) round bit }
{
    is_first(place, round, Cast::AnyEst { round }, own)
        && begins(deal, place, round, bit, own, heard)
}

pub(crate) fn may_support(
    place: &Place,
    round: u8,
    bit: bool,
    own: &[Vote],
    heard: &[Heard],
) -> bool
    ensures { result ≡ allows_bval place.now.config (view_of place.now.config place.now.node place.now.lane place.now.epoch own.now heard.now) round bit }
{
    is_first(place, round, Cast::Bval { round, bit }, own)
        && (has(place.epoch, Cast::Est { round, bit }, own)
            || (has(place.epoch, Cast::AnyEst { round }, own)
                && is_backed(place, round, bit, heard)))
}

pub(crate) fn may_accept(place: &Place, round: u8, bit: bool, own: &[Vote], heard: &[Heard]) -> bool
    ensures { result ≡ allows_aux place.now.config (view_of place.now.config place.now.node place.now.lane place.now.epoch own.now heard.now) round bit }
{
    is_first(place, round, Cast::AnyAux { round }, own)
        && (has(place.epoch, Cast::AnyEst { round }, own) && is_supported(place, round, bit, heard))
}

pub(crate) fn may_confirm(
    place: &Place,
    round: u8,
    vals: Vals,
    own: &[Vote],
    heard: &[Heard],
) -> bool
    ensures { result ≡ allows_conf place.now.config (view_of place.now.config place.now.node place.now.lane place.now.epoch own.now heard.now) round vals }
{
    is_first(place, round, Cast::AnyConf { round }, own)
        && (place.config.version() == 2 && gathers(place, round, vals, own, heard))
}

pub(crate) fn may_pick(place: &Place, round: u8, vals: Vals, own: &[Vote], heard: &[Heard]) -> bool
    ensures { result ≡ allows_pick place.now.config (view_of place.now.config place.now.node place.now.lane place.now.epoch own.now heard.now) round vals }
{
    is_first(place, round, Cast::AnyPick { round }, own) && is_left(place, round, vals, own, heard)
}

// The share that was dealt to the node.
fn dealt_share(deal: &Deal, place: &Place, round: u8) -> Vote
    requires deal { deal.now ≡ place.now.config }
    requires node { place.now.node < place.now.config.n }
    requires lane { place.now.lane < place.now.config.n }
    requires epoch { place.now.epoch < place.now.config.epochs }
    requires round { round < place.now.config.rounds }
    ensures { result ≡ dealt place.now.config place.now.node place.now.lane place.now.epoch round }
{
    let DealtShare {
        share,
        salt,
        branch,
    } = deal.dealt_to(place.epoch, place.lane, round, place.node);
    Vote::Coin {
        epoch: place.epoch,
        round,
        share,
        salt,
        branch,
    }
}

// Whether the lane has picked in a round and has shown no share of it.
fn is_share_due(place: &Place, round: u8, own: &[Vote]) -> bool
    ensures exact { result ≡ ((nat_lt round place.now.config.rounds && not (has place.now.epoch (any_coin round) own.now)) && has place.now.epoch (any_pick round) own.now) }
    ensures inside { result ≡ true → round < place.now.config.rounds }
{
    is_first(place, round, Cast::AnyCoin { round }, own)
        && has(place.epoch, Cast::AnyPick { round }, own)
}

// Whether the lane may show this share, which is to be its own of the round.
pub(crate) fn may_show(deal: &Deal, place: &Place, round: u8, own: &[Vote], vote: &Vote) -> bool
    requires deal { deal.now ≡ place.now.config }
    requires node { place.now.node < place.now.config.n }
    requires lane { place.now.lane < place.now.config.n }
    requires epoch { place.now.epoch < place.now.config.epochs }
    ensures { result ≡ (((nat_lt round place.now.config.rounds && not (has place.now.epoch (any_coin round) own.now)) && has place.now.epoch (any_pick round) own.now)
        && same_vote (dealt place.now.config place.now.node place.now.lane place.now.epoch round) vote.now) }
{
    is_share_due(place, round, own) && dealt_share(deal, place, round) == *vote
}

// Whether a round settles a bit: the lane picked it alone there, and the coin is the bit.
fn settles(deal: &Deal, place: &Place, round: u8, bit: bool, own: &[Vote], heard: &[Heard]) -> bool
    requires deal { deal.now ≡ place.now.config }
    requires lane { place.now.lane < place.now.config.n }
    requires epoch { place.now.epoch < place.now.config.epochs }
    requires round { round < place.now.config.rounds }
    requires checked { AreSharesChecked place.now.config place.now.lane heard.now }
    ensures { result ≡ settles (view_of place.now.config place.now.node place.now.lane place.now.epoch own.now heard.now) bit round }
{
    let alone = Cast::Pick {
        round,
        vals: single(bit),
    };
    if !has(place.epoch, alone, own) {
        return false;
    }
    match coin_of(deal, place, round, heard) {
        Some(coin) => bit == coin,
        None => false,
    }
}

fn was_settled(deal: &Deal, place: &Place, bit: bool, own: &[Vote], heard: &[Heard]) -> bool
    requires deal { deal.now ≡ place.now.config }
    requires lane { place.now.lane < place.now.config.n }
    requires epoch { place.now.epoch < place.now.config.epochs }
    requires checked { AreSharesChecked place.now.config place.now.lane heard.now }
    ensures { result ≡ was_settled (view_of place.now.config place.now.node place.now.lane place.now.epoch own.now heard.now) place.now.config.rounds bit }
{
    for round in 0..place.config.rounds() {
        let settled = settles(deal, place, round, bit, own, heard);
        if settled {
            return true;
        }
    }
    false
}

pub(crate) fn may_decide(
    deal: &Deal,
    place: &Place,
    bit: bool,
    own: &[Vote],
    heard: &[Heard],
) -> bool
    requires deal { deal.now ≡ place.now.config }
    requires lane { place.now.lane < place.now.config.n }
    requires epoch { place.now.epoch < place.now.config.epochs }
    requires checked { AreSharesChecked place.now.config place.now.lane heard.now }
    ensures { result ≡ allows_decided place.now.config (view_of place.now.config place.now.node place.now.lane place.now.epoch own.now heard.now) bit }
{
    !has(place.epoch, Cast::AnyDecision, own) && was_settled(deal, place, bit, own, heard)
}
