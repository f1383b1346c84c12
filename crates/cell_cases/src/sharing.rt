//! The same lane over a shared book, behind its lock.
ghost use Rattle.std.specs.Prelude.{◌≡◌, ◌<◌, true, false, []};
ghost use Rattle.std.specs.Arc.{arc_value};
ghost use Rattle.hb_base.specs.NodeSet.{is_in};
ghost use Rattle.hb_rules.specs.Hearing.{own_in};

use crate::beginning::begin;
use actor_cell::{Cell, Mail, RunName};
use coin_deal::Deal;
use disk_model::MemoryDisk;
use lane_core::Lane;
use net_script::Script;
use post_book::{Naming, PostBook, SharedBook, SharedSeat};
use std::alloc::Global;
use std::sync::{Arc, Wait};

/// A lane over a shared book and a disk in memory.
pub type SharedLane<'a, R, K> = Lane<SharedBook<'a, R, K>, MemoryDisk>;

/// Lane 0 of node 0, started over a shared book and put behind its lock.
pub fn begin_shared<'a, 'b, K: Naming, J: RunName, R: Wait>(
    rt: &'a R,
    alloc: Global,
    script: &'b Script,
    deal: Arc<Deal, Global>,
    book: &'a PostBook<K>,
    seat: SharedSeat<K>,
    mail: Mail<'b>,
) -> Cell<'b, SharedBook<'a, R, K>, SharedLane<'a, R, K>, J>
    requires plans { script.now.plans.items ≡ [] }
    requires deal { arc_value deal ≡ script.now.config }
    requires honest { is_in script.now.config.liars 0 ≡ false }
    requires nodes { 0 < script.now.config.n }
    requires book { (seat.book ≡ book.now) × (book.now ≡ J.book) }
    requires script { J.is_script script.now }
    requires seat { (seat.seat.config ≡ script.now.config) × (seat.seat.node ≡ 0) × (seat.seat.actor ≡ 0) }
    requires unused { own_in script.now.config 0 0 seat.seat.seen ≡ [] }
    requires boxes { mail.boxes.config ≡ script.now.config }
    requires place { mail.passes.place ≡ 0 }
{
    let shared = SharedBook::at(rt, book);
    Cell::new(begin::<SharedBook<'a, R, K>, J, R>(rt, alloc, script, deal, shared, seat, mail))
}
