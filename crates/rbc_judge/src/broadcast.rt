//! The votes of a broadcast.
ghost use Rattle.std.specs.Prelude.{◌≡◌, ◌<◌, true, IfOk};
ghost use Rattle.hb_rules.specs.Broadcast.{MayBroadcast};
ghost use Rattle.hb_rules.specs.History.{HasSpelling};
ghost use Rattle.hb_rules.specs.Terms.{AreHeardSpelled};
ghost use Rattle.hb_rules.specs.Apart.{IsHeardApart};
ghost use Rattle.rbc_judge.specs.Checked.{AreChecked};

use crate::delivering::{may_be_ready, may_deliver};
use crate::known::Known;
use crate::lane::Lane;
use crate::sending::{may_echo, may_send};
use hb_rules::Heard;
use hb_wire::Vote;
use std::alloc::{AllocError, Global};

/// Whether a lane may cast this vote in the reliable broadcast, by the votes that it has cast and those that it has heard (CCS
/// 2016, figure 2). A yes is always right. A no is right where a lane of a correct node heard all of it in a legal history in
/// which no two hashed strings share a digest: only there do all choices of k valid Echoes for a root rebuild to one value, and
/// it tries one choice, the shards of the first k nodes that were heard. Votes of other epochs and parts may be among those that
/// were cast and heard. The branches of the Echoes that were heard have been checked before, so that no look at them checks them
/// again. Err where there is no memory; what is known may be another than before then, and is as right.
///
/// Time is linear in the number of votes; a Delivered takes so much for each Ready of a correct node that was heard, until one is
/// of its root. A Val encodes the value, a Ready and a Delivered rebuild one.
pub fn may_broadcast(
    alloc: Global,
    known: &mut Known,
    lane: &Lane,
    own: &[Vote],
    heard: &[Heard],
    vote: &Vote,
) -> Result<bool, AllocError>
    requires node { lane.now.node < lane.now.config.n }
    requires vote { HasSpelling lane.now.config vote.now }
    requires checked { AreChecked lane.now.config.n heard.now }
    requires spelled { AreHeardSpelled lane.now.config heard.now }
    ensures sound { IfOk result (λ may. may ≡ true → MayBroadcast lane.now.config lane.now.node lane.now.lane own.now heard.now vote.now) }
    ensures complete { IfOk result (λ may. IsHeardApart lane.now.config lane.now.node lane.now.lane heard.now
        → MayBroadcast lane.now.config lane.now.node lane.now.lane own.now heard.now vote.now → may ≡ true) }
{
    // A config is sound where its liars can be told.
    let _sound = lane.config.liars();
    match vote {
        Vote::Val { epoch, target, .. } => {
            may_send(alloc, known, lane, *epoch, *target, own, heard, vote)
        }
        Vote::Echo {
            epoch,
            root,
            shard,
            branch,
        } => may_echo(lane, *epoch, root, shard, branch, own, heard),
        Vote::Ready { epoch, root } => may_be_ready(alloc, known, lane, *epoch, root, own, heard),
        Vote::Delivered { epoch, value } => {
            may_deliver(alloc, known, lane, *epoch, value, own, heard)
        }
        _ => Ok(false),
    }
}
