//! The actors of a correct node, over any kind of book.
ghost use Rattle.std.specs.Prelude.{◌≡◌, ◌<◌, true, false, IfOk};
ghost use Rattle.std.specs.Arc.{arc_value};
ghost use Rattle.hb_base.specs.NodeSet.{is_in};
ghost use Rattle.net_script.specs.Scenario.{told};
ghost use Rattle.net_script.specs.Sound.{IsScenario};
ghost use Rattle.step_driver.specs.Delivering.{IsPlayer};
ghost use Rattle.ledger_run.specs.Actors.{seat_at, new_seat, running_at};

use crate::disks::disk_of;
use crate::node_core::NodeCore;
use crate::submissions::submitted_at;
use coin_deal::Deal;
use desk_core::DeskCore;
use disk_model::MemoryDisk;
use hb_rules::Book;
use journaled_actor::JournaledActor;
use lane_core::LaneCore;
use net_script::Script;
use std::alloc::{AllocError, Global};
use std::sync::Arc;

/// An actor of a correct node, over its disk in memory.
pub type NodeActor<B> = JournaledActor<B, MemoryDisk, NodeCore>;

/// A lane of a correct node that was never started, over a seat that has seen nothing and the disk that the script plans for it.
/// The deal is that of the run. Err is want of memory.
pub fn lane_of<B: Book>(
    alloc: Global,
    script: &Script,
    deal: &Arc<Deal, Global>,
    node: u8,
    lane: u8,
    seat: B::Seat,
) -> Result<NodeActor<B>, AllocError>
    requires known { node < script.now.config.n }
    requires lane { lane < script.now.config.n }
    requires honest { is_in script.now.config.liars node ≡ false }
    requires deal { arc_value deal.now ≡ script.now.config }
    requires seat { seat_at B.config B.node B.actor B.seen seat ≡ new_seat script.now.config node lane }
    requires scenario { IsScenario (told script.now) }
    ensures seat { IfOk result (λ a. a.seat ≡ seat) }
    ensures player { IfOk result (λ a. IsPlayer script.now.config script.now false (running_at B.config B.node B.actor B.seen a)) }
{
    let disk = disk_of(alloc, script, node, lane)?;
    let core = LaneCore::new(alloc, &script.config, node, lane, deal.clone()?);
    Ok(JournaledActor::new(alloc, NodeCore::Lane(core), disk, seat))
}

/// The desk of a correct node that was never started, over a seat that has seen nothing and the disk that the script plans for
/// it. Err is want of memory.
pub fn desk_of<B: Book>(
    alloc: Global,
    script: &Script,
    node: u8,
    seat: B::Seat,
) -> Result<NodeActor<B>, AllocError>
    requires known { node < script.now.config.n }
    requires honest { is_in script.now.config.liars node ≡ false }
    requires seat { seat_at B.config B.node B.actor B.seen seat ≡ new_seat script.now.config node script.now.config.n }
    requires scenario { IsScenario (told script.now) }
    ensures seat { IfOk result (λ a. a.seat ≡ seat) }
    ensures player { IfOk result (λ a. IsPlayer script.now.config script.now false (running_at B.config B.node B.actor B.seen a)) }
{
    let disk = disk_of(alloc, script, node, script.config.n())?;
    let submitted = submitted_at(alloc, script, node)?;
    let core = DeskCore::new(&script.config, node, submitted);
    Ok(JournaledActor::new(alloc, NodeCore::Desk(core), disk, seat))
}
