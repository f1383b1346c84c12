//! Whether an actor may cast a vote, by what it has cast and what it has heard.
ghost use Rattle.std.specs.Prelude.{◌≡◌, ◌<◌, true, IfOk};
ghost use Rattle.hb_wire.specs.Votes.{epoch_of};
ghost use Rattle.hb_rules.specs.History.{HasSpelling};
ghost use Rattle.hb_rules.specs.Parts.{is_broadcast, part_of};
ghost use Rattle.hb_rules.specs.Rules.{MayCast};
ghost use Rattle.hb_rules.specs.Terms.{AreHeardSpelled};
ghost use Rattle.hb_rules.specs.Apart.{IsHeardApart};
ghost use Rattle.rbc_judge.specs.Checked.{AreChecked};
ghost use Rattle.aba_judge.specs.Checked.{AreSharesChecked};
ghost use Rattle.post_judge.specs.Places.{casts};

use aba_judge::{Place as Agreement, may_agree};
use coin_deal::Deal;
use desk_judge::may_at_desk;
use hb_base::Config;
use hb_rules::Heard;
use hb_wire::Vote;
use rbc_judge::{Known, Lane, may_broadcast};
use std::alloc::{AllocError, Global};

// An actor of a node, in a run with this config.
#[derive(Clone, Copy)]
pub(crate) struct Caster {
    pub(crate) config: Config,
    pub(crate) node: u8,
    pub(crate) actor: u8,
}

// Whether actors of this number cast votes of this kind: the desk, which is actor n, or the lanes.
pub(crate) fn casts(n: u8, actor: u8, vote: &Vote) -> bool
    ensures { result ≡ casts n actor vote.now }
{
    match vote {
        Vote::Propose { .. } | Vote::NoMore { .. } | Vote::Closed { .. } => actor == n,
        _ => actor < n,
    }
}

fn is_of_broadcast(vote: &Vote) -> bool
    ensures { result ≡ is_broadcast (part_of vote.now) }
{
    matches!(
        vote,
        Vote::Val { .. } | Vote::Echo { .. } | Vote::Ready { .. } | Vote::Delivered { .. }
    )
}

// Whether a lane may cast a vote that lanes cast, of an epoch that the run has.
fn may_in_lane(
    alloc: Global,
    deal: &Deal,
    known: &mut Known,
    lane: &Lane,
    own: &[Vote],
    heard: &[Heard],
    vote: &Vote,
) -> Result<bool, AllocError>
    requires deal { deal.now ≡ lane.now.config }
    requires node { lane.now.node < lane.now.config.n }
    requires lane { lane.now.lane < lane.now.config.n }
    requires casts { casts lane.now.config.n lane.now.lane vote.now ≡ true }
    requires epoch { epoch_of vote.now < lane.now.config.epochs }
    requires vote { HasSpelling lane.now.config vote.now }
    requires checked { AreChecked lane.now.config.n heard.now }
    requires shares { AreSharesChecked lane.now.config lane.now.lane heard.now }
    requires spelled { AreHeardSpelled lane.now.config heard.now }
    ensures sound { IfOk result (λ may. may ≡ true → MayCast lane.now.config lane.now.node lane.now.lane own.now heard.now vote.now) }
    ensures complete { IfOk result (λ may. IsHeardApart lane.now.config lane.now.node lane.now.lane heard.now
        → MayCast lane.now.config lane.now.node lane.now.lane own.now heard.now vote.now → may ≡ true) }
{
    if is_of_broadcast(vote) {
        return may_broadcast(alloc, known, lane, own, heard, vote);
    }
    let place = Agreement {
        config: lane.config,
        node: lane.node,
        lane: lane.lane,
        epoch: vote.epoch(),
    };
    Ok(may_agree(deal, &place, own, heard, vote))
}

// Whether an actor may cast a vote that actors of its number cast, of an epoch that the run has. A yes is always right, and so is
// a no of a desk. The no of a lane is right where all was heard in a legal history in which no two hashed strings share a digest.
pub(crate) fn may_cast(
    alloc: Global,
    deal: &Deal,
    known: &mut Known,
    caster: &Caster,
    own: &[Vote],
    heard: &[Heard],
    vote: &Vote,
) -> Result<bool, AllocError>
    requires deal { deal.now ≡ caster.now.config }
    requires node { caster.now.node < caster.now.config.n }
    requires casts { casts caster.now.config.n caster.now.actor vote.now ≡ true }
    requires epoch { epoch_of vote.now < caster.now.config.epochs }
    requires vote { HasSpelling caster.now.config vote.now }
    requires checked { caster.now.actor < caster.now.config.n → AreChecked caster.now.config.n heard.now }
    requires shares { caster.now.actor < caster.now.config.n → AreSharesChecked caster.now.config caster.now.actor heard.now }
    requires spelled { AreHeardSpelled caster.now.config heard.now }
    ensures sound { IfOk result (λ may. may ≡ true → MayCast caster.now.config caster.now.node caster.now.actor own.now heard.now vote.now) }
    ensures complete { IfOk result (λ may. (caster.now.actor < caster.now.config.n → IsHeardApart caster.now.config caster.now.node caster.now.actor heard.now)
        → MayCast caster.now.config caster.now.node caster.now.actor own.now heard.now vote.now → may ≡ true) }
{
    if caster.actor < caster.config.n() {
        let lane = Lane {
            config: caster.config,
            node: caster.node,
            lane: caster.actor,
        };
        return may_in_lane(alloc, deal, known, &lane, own, heard, vote);
    }
    Ok(may_at_desk(&caster.config, own, heard, vote))
}
