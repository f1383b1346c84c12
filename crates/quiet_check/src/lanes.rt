ghost use Rattle.std.specs.Prelude.{◌≡◌, ◌<◌, ◌↔◌, IsTrue, IfOk};
ghost use Rattle.std.specs.Arc.{arc_value};
ghost use Rattle.hb_rules.specs.Owing.{lane_slots};
ghost use Rattle.hb_rules.specs.Slots.{IsIdle};
ghost use Rattle.hb_rules.specs.Terms.{AreSpelled, AreHeardSpelled};
ghost use Rattle.quiet_check.specs.Lanes.{epoch_slots};

use crate::agreement::is_agreement_idle;
use crate::broadcast::is_broadcast_idle;
use crate::place::Place;
use coin_deal::Deal;
use hb_base::Config;
use hb_rules::Heard;
use hb_wire::Vote;
use std::alloc::{AllocError, Global};
use std::sync::Arc;

// Whether lane `lane` of node `node` owes nothing, by the votes that it has cast and those that it has heard, of all epochs.
// An epoch's states take in the votes of that epoch, and pass over all others at a look.
pub(crate) fn is_lane_idle(
    alloc: Global,
    config: &Config,
    deal: &Arc<Deal, Global>,
    node: u8,
    lane: u8,
    own: &[Vote],
    heard: &[Heard],
) -> Result<bool, AllocError>
    requires deal { arc_value deal.now ≡ config.now }
    requires node { node < config.now.n }
    requires lane { lane < config.now.n }
    requires own { AreSpelled config.now own.now }
    requires heard { AreHeardSpelled config.now heard.now }
    ensures { IfOk result (λ idle. IsTrue idle ↔ IsIdle (lane_slots config.now node lane) own.now heard.now) }
{
    for epoch in 0..config.epochs() {
        let place = Place {
            config: *config,
            node,
            lane,
            epoch,
        };
        let is_idle = is_epoch_idle(alloc, deal, &place, own, heard)?;
        if !is_idle {
            return Ok(false);
        }
    }
    Ok(true)
}

// Whether a lane owes nothing in an epoch.
fn is_epoch_idle(
    alloc: Global,
    deal: &Arc<Deal, Global>,
    place: &Place,
    own: &[Vote],
    heard: &[Heard],
) -> Result<bool, AllocError>
    requires deal { arc_value deal.now ≡ place.now.config }
    requires node { place.now.node < place.now.config.n }
    requires lane { place.now.lane < place.now.config.n }
    requires epoch { place.now.epoch < place.now.config.epochs }
    requires own { AreSpelled place.now.config own.now }
    requires heard { AreHeardSpelled place.now.config heard.now }
    ensures { IfOk result (λ idle. IsTrue idle ↔ IsIdle (epoch_slots place.now.config place.now.node place.now.lane place.now.epoch) own.now heard.now) }
{
    let is_idle = is_broadcast_idle(alloc, place, own, heard)?;
    if !is_idle {
        return Ok(false);
    }
    is_agreement_idle(alloc, deal, place, own, heard)
}
