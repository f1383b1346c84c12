//! A desk over its journal.
ghost use Rattle.std.specs.Prelude.{◌≡◌, ◌<◌, [], None, true, false};
ghost use Rattle.std.specs.List.{AllByRecursion};
ghost use Rattle.hb_base.specs.ByteLists.{AreBytes};
ghost use Rattle.hb_base.specs.Limits.{IsTransaction};
ghost use Rattle.hb_rules.specs.Hearing.{own_in};
ghost use Rattle.vote_journal.specs.Calls.{IsEmpty};

use crate::desk::DeskCore;
use disk_model::Power;
use hb_base::{Bytes, Config};
use hb_rules::Book;
use journaled_actor::JournaledActor;
use std::alloc::Global;

/// A desk over its journal. It is an `Actor` of any kind of book, and its disk may be of any kind.
pub type Desk<B, D> = JournaledActor<B, D, DeskCore>;

/// The desk of a node, at which these transactions were submitted in this order. It was never started; its disk is empty and
/// on, and its seat has posted nothing. It takes no memory and touches no device.
pub fn new_desk<B: Book, D: Power + Drop>(
    alloc: Global,
    config: &Config,
    node: u8,
    submitted: Vec<Bytes>,
    disk: D,
    seat: B::Seat,
) -> Desk<B, D>
    requires node { node < config.now.n }
    requires fit { AllByRecursion IsTransaction submitted.items }
    requires bytes { AllByRecursion AreBytes submitted.items }
    requires empty { IsEmpty D.seen D.may_leave disk }
    requires on { (D.supply disk).off ≡ false }
    requires seat { (B.config seat ≡ config.now) × (B.node seat ≡ node) × (B.actor seat ≡ config.now.n) }
    requires unused { own_in config.now node config.now.n (B.seen seat) ≡ [] }
    ensures { result ≡ record {
      seat = seat;
      disk = disk;
      core = record { config = config.now; node = node; submitted = submitted.items; epochs = None };
      fresh = true;
      live = false;
      got = [];
      restarts = 0;
    } }
{
    let core = DeskCore::new(config, node, submitted);
    JournaledActor::new(alloc, core, disk, seat)
}
