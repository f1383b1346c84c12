ghost use Rattle.std.specs.Prelude.{◌<◌, ◌↔◌, IsTrue, IfOk};
ghost use Rattle.hb_rules.specs.Owing.{broadcast_slots};
ghost use Rattle.hb_rules.specs.Slots.{IsIdle};
ghost use Rattle.hb_rules.specs.Terms.{AreSpelled, AreHeardSpelled};

use crate::place::Place;
use hb_rules::{Due, Heard};
use hb_wire::Vote;
use rbc_core::Rbc;
use std::alloc::{AllocError, Global};

// Whether a lane owes nothing in the reliable broadcast of an epoch, by the votes that it has cast and those that it has
// heard. What is idle by all hearings was idle by each beginning of them, so the hearings may be gone through one after the
// other, and the first that makes a vote due tells that one is owed. No vote of a node that the run does not have counts.
pub(crate) fn is_broadcast_idle(
    alloc: Global,
    place: &Place,
    own: &[Vote],
    heard: &[Heard],
) -> Result<bool, AllocError>
    requires node { place.now.node < place.now.config.n }
    requires lane { place.now.lane < place.now.config.n }
    requires own { AreSpelled place.now.config own.now }
    requires heard { AreHeardSpelled place.now.config heard.now }
    ensures { IfOk result (λ idle. IsTrue idle ↔ IsIdle (broadcast_slots place.now.config place.now.node place.now.lane place.now.epoch) own.now heard.now) }
{
    // a config is sound where its liars can be told
    let _sound = place.config.liars();
    let n = place.config.n();
    let mut rbc = Rbc::rebuild(
        alloc,
        &place.config,
        place.node,
        place.lane,
        place.epoch,
        own,
    )?;
    let mut due = Due::new(alloc);
    for said in heard {
        if said.from >= n {
            continue;
        }
        rbc.hear(alloc, said.from, &said.spoken, &mut due)?;
        let made = due.votes().len();
        if made > 0 {
            return Ok(false);
        }
    }
    Ok(true)
}
