ghost use Rattle.std.specs.Prelude.{◌≡◌, ◌<◌, ◌↔◌, IsTrue, IfOk};
ghost use Rattle.std.specs.Arc.{arc_value};
ghost use Rattle.hb_rules.specs.Owing.{agreement_slots};
ghost use Rattle.hb_rules.specs.Slots.{IsIdle};

use crate::place::Place;
use aba_core::Aba;
use coin_deal::Deal;
use hb_rules::Heard;
use hb_wire::Vote;
use std::alloc::{AllocError, Global};
use std::sync::Arc;

// Whether a lane owes nothing in the binary agreement of an epoch, by the votes that it has cast and those that it has heard.
// All of these are noted before the rows are asked: asked at each hearing with the votes that it cast in the end, a lane would
// seem to owe an estimate of a round before which it stopped. No vote of a node that the run does not have counts.
pub(crate) fn is_agreement_idle(
    alloc: Global,
    deal: &Arc<Deal, Global>,
    place: &Place,
    own: &[Vote],
    heard: &[Heard],
) -> Result<bool, AllocError>
    requires deal { arc_value deal.now ≡ place.now.config }
    requires node { place.now.node < place.now.config.n }
    requires lane { place.now.lane < place.now.config.n }
    requires epoch { place.now.epoch < place.now.config.epochs }
    ensures { IfOk result (λ idle. IsTrue idle ↔ IsIdle (agreement_slots place.now.config place.now.node place.now.lane place.now.epoch) own.now heard.now) }
{
    let n = place.config.n();
    let mut aba = Aba::rebuild(
        alloc,
        &place.config,
        deal,
        place.node,
        place.lane,
        place.epoch,
        own,
    )?;
    for said in heard {
        if said.from < n {
            aba.note(said.from, said.spoken.vote());
        }
    }
    aba.is_idle(alloc)
}
