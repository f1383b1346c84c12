//! A lane that is started, over any kind of book that threads may share.
ghost use Rattle.std.specs.Prelude.{◌≡◌, ◌<◌, true, false, []};
ghost use Rattle.std.specs.Arc.{arc_value};
ghost use Rattle.hb_base.specs.NodeSet.{is_in};
ghost use Rattle.disk_model.specs.Memory.{new_disk};
ghost use Rattle.hb_rules.specs.Hearing.{own_in};
ghost use Rattle.actor_cell.specs.Mail.{IsSameTaker};

use actor_cell::{Held, Mail, RunName};
use coin_deal::Deal;
use disk_model::{MemoryDisk, Plan};
use lane_core::{Lane, new_lane};
use net_script::Script;
use post_book::NamedBook;
use std::alloc::Global;
use std::sync::{Arc, Wait};

/// Lane 0 of node 0 with a disk that never fails, started by its seat of this book.
pub fn begin<'b, B: NamedBook + Drop, J: RunName, R: Wait>(
    rt: &R,
    alloc: Global,
    script: &'b Script,
    deal: Arc<Deal, Global>,
    book: B,
    seat: B::Seat,
    mail: Mail<'b>,
) -> Held<'b, B, Lane<B, MemoryDisk>, J>
    requires plans { script.now.plans.items ≡ [] }
    requires deal { arc_value deal ≡ script.now.config }
    requires honest { is_in script.now.config.liars 0 ≡ false }
    requires nodes { 0 < script.now.config.n }
    requires book { B.knows book seat × (B.name book ≡ J.book) }
    requires script { J.is_script script.now }
    requires seat { (B.config seat ≡ script.now.config) × (B.node seat ≡ 0) × (B.actor seat ≡ 0) }
    requires unused { own_in script.now.config 0 0 (B.seen seat) ≡ [] }
    requires boxes { mail.boxes.config ≡ script.now.config }
    requires place { mail.passes.place ≡ 0 }
    ensures script { (result.script ≡ script.now) × (result.back ≡ []) }
    ensures moved { B.moved 0 0 book result.book }
    ensures taker { IsSameTaker mail.entry result.mail }
{
    let lane = new_lane(alloc, &script.config, 0, 0, deal, quiet_disk(alloc), seat);
    Held::begin(rt, alloc, lane, script, book, mail)
}

// A disk that never fails.
fn quiet_disk(alloc: Global) -> MemoryDisk
    ensures { result ≡ new_disk [] [] }
{
    let stops = Vec::new(alloc);
    let faults = Vec::new(alloc);
    MemoryDisk::new(alloc, Plan { stops, faults })
}
