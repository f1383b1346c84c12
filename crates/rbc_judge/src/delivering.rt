//! For which root a node is ready, and which value it delivers.
ghost use Rattle.std.specs.Prelude.{◌≡◌, ◌&&◌, not, IfOk};
ghost use Rattle.std.specs.List.{list_any};
ghost use Rattle.hb_rules.specs.BroadcastRows.{is_made_ready};
ghost use Rattle.hb_rules.specs.Claims.{is_any_ready, is_any_delivery};
ghost use Rattle.hb_rules.specs.Terms.{AreHeardSpelled};
ghost use Rattle.rbc_judge.specs.Checked.{AreChecked};
ghost use Rattle.rbc_judge.specs.Tests.{is_carried, is_delivered_by};

use crate::claims::{count_echoes, count_readies};
use crate::known::Known;
use crate::lane::Lane;
use crate::shards::value_of;
use hb_base::Bytes;
use hb_rules::Heard;
use hb_wire::Vote;
use std::alloc::{AllocError, Global};

fn has_ready(epoch: u8, own: &[Vote]) -> bool
    ensures { result ≡ list_any (is_any_ready epoch) own.now }
{
    own.iter().any(|vote| matches!(vote, Vote::Ready { epoch: other, .. } if *other == epoch))
}

// Whether what was heard makes a node ready for a root.
fn is_made_ready(
    alloc: Global,
    known: &mut Known,
    lane: &Lane,
    epoch: u8,
    root: &[u8; 32],
    heard: &[Heard],
) -> Result<bool, AllocError>
    requires checked { AreChecked lane.now.config.n heard.now }
    requires spelled { AreHeardSpelled lane.now.config heard.now }
    ensures { IfOk result (λ made. made ≡ is_made_ready lane.now.config epoch heard.now root.now) }
{
    let n = lane.config.n();
    let f = lane.config.f();
    prove!(f < n);
    if count_readies(n, epoch, root, heard) >= f + 1 {
        return Ok(true);
    }
    if count_echoes(n, epoch, root, heard) < n - f {
        return Ok(false);
    }
    let value = value_of(alloc, known, lane, epoch, root, heard)?;
    Ok(value.is_some())
}

// Whether a node may be ready for a root: what was heard makes it so, and it is ready for none yet.
pub(crate) fn may_be_ready(
    alloc: Global,
    known: &mut Known,
    lane: &Lane,
    epoch: u8,
    root: &[u8; 32],
    own: &[Vote],
    heard: &[Heard],
) -> Result<bool, AllocError>
    requires checked { AreChecked lane.now.config.n heard.now }
    requires spelled { AreHeardSpelled lane.now.config heard.now }
    ensures { IfOk result (λ may. may ≡ (not (list_any (is_any_ready epoch) own.now) && is_made_ready lane.now.config epoch heard.now root.now)) }
{
    if has_ready(epoch, own) {
        return Ok(false);
    }
    is_made_ready(alloc, known, lane, epoch, root, heard)
}

fn has_delivery(epoch: u8, own: &[Vote]) -> bool
    ensures { result ≡ list_any (is_any_delivery epoch) own.now }
{
    own.iter().any(|vote| matches!(vote, Vote::Delivered { epoch: other, .. } if *other == epoch))
}

// Whether a value is delivered under a root.
fn is_carried(
    alloc: Global,
    known: &mut Known,
    lane: &Lane,
    epoch: u8,
    heard: &[Heard],
    value: &Bytes,
    root: &[u8; 32],
) -> Result<bool, AllocError>
    requires checked { AreChecked lane.now.config.n heard.now }
    requires spelled { AreHeardSpelled lane.now.config heard.now }
    ensures { IfOk result (λ carried. carried ≡ is_carried lane.now.config epoch heard.now value.now root.now) }
{
    let n = lane.config.n();
    let f = lane.config.f();
    if count_readies(n, epoch, root, heard) < 2 * f + 1 {
        return Ok(false);
    }
    match value_of(alloc, known, lane, epoch, root, heard)? {
        Some(other) => Ok(value.as_slice() == other.as_slice()),
        None => Ok(false),
    }
}

// Whether it is delivered under the root for which a node that is no liar is ready in a hearing.
fn is_delivered_by(
    alloc: Global,
    known: &mut Known,
    lane: &Lane,
    epoch: u8,
    heard: &[Heard],
    value: &Bytes,
    said: &Heard,
) -> Result<bool, AllocError>
    requires checked { AreChecked lane.now.config.n heard.now }
    requires spelled { AreHeardSpelled lane.now.config heard.now }
    ensures { IfOk result (λ delivered. delivered ≡ is_delivered_by lane.now.config epoch heard.now value.now said.now) }
{
    let is_correct = said.from < lane.config.n() && !lane.config.liars().has(said.from);
    if !is_correct {
        return Ok(false);
    }
    match said.vote() {
        Vote::Ready { epoch: other, root } if *other == epoch => {
            is_carried(alloc, known, lane, epoch, heard, value, root)
        }
        _ => Ok(false),
    }
}

// Whether a node may deliver a value. Of 2f + 1 nodes that are ready for a root one is no liar, so the roots for which these are
// ready are enough to look at: in a legal history it is one.
pub(crate) fn may_deliver(
    alloc: Global,
    known: &mut Known,
    lane: &Lane,
    epoch: u8,
    value: &Bytes,
    own: &[Vote],
    heard: &[Heard],
) -> Result<bool, AllocError>
    requires checked { AreChecked lane.now.config.n heard.now }
    requires spelled { AreHeardSpelled lane.now.config heard.now }
    ensures { IfOk result (λ may. may ≡ (not (list_any (is_any_delivery epoch) own.now)
        && list_any (is_delivered_by lane.now.config epoch heard.now value.now) heard.now)) }
{
    if has_delivery(epoch, own) {
        return Ok(false);
    }
    for said in heard {
        let delivered = is_delivered_by(alloc, known, lane, epoch, heard, value, said)?;
        if delivered {
            return Ok(true);
        }
    }
    Ok(false)
}
