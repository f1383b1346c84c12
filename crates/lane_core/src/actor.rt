//! A lane over its journal.
ghost use Rattle.std.specs.Prelude.{◌≡◌, ◌<◌, [], true, false};
ghost use Rattle.std.specs.Arc.{arc_value};
ghost use Rattle.hb_rules.specs.Hearing.{own_in};
ghost use Rattle.vote_journal.specs.Calls.{IsEmpty};

use crate::lane::LaneCore;
use coin_deal::Deal;
use disk_model::Power;
use hb_base::Config;
use hb_rules::Book;
use journaled_actor::JournaledActor;
use std::alloc::Global;
use std::sync::Arc;

/// A lane over its journal. It is an `Actor` of any kind of book, and its disk may be of any kind.
pub type Lane<B, D> = JournaledActor<B, D, LaneCore>;

/// A lane of a node that was never started, with its seat and its disk, which is empty and on. The deal is that of the run,
/// and the seat has posted nothing. It takes no memory and touches no device.
pub fn new_lane<B: Book, D: Power + Drop>(
    alloc: Global,
    config: &Config,
    node: u8,
    lane: u8,
    deal: Arc<Deal, Global>,
    disk: D,
    seat: B::Seat,
) -> Lane<B, D>
    requires node { node < config.now.n }
    requires lane { lane < config.now.n }
    requires deal { arc_value deal ≡ config.now }
    requires empty { IsEmpty D.seen D.may_leave disk }
    requires on { (D.supply disk).off ≡ false }
    requires seat { (B.config seat ≡ config.now) × (B.node seat ≡ node) × (B.actor seat ≡ lane) }
    requires unused { own_in config.now node lane (B.seen seat) ≡ [] }
    ensures { result ≡ record {
      seat = seat;
      disk = disk;
      core = record { config = config.now; node = node; lane = lane; epochs = [] };
      fresh = true;
      live = false;
      got = [];
      restarts = 0;
    } }
{
    let core = LaneCore::new(alloc, config, node, lane, deal);
    JournaledActor::new(alloc, core, disk, seat)
}
