//! Bytes to votes, with nothing copied.

ghost use Rattle.std.specs.Prelude.{◌≡◌, ◌≤◌, length, OnSome};
ghost use Rattle.hb_base.specs.Limits.{most_nodes, most_rounds};
ghost use Rattle.hb_wire.specs.Reading.{Shows, pair, ended, byte_at, bit_at, val_at, echo_at, ready_at, delivered_at, est_at, bval_at, aux_at};
ghost use Rattle.hb_wire.specs.Reading.{pick_at, conf_at, coin_at, decided_at, propose_at, closed_at, broadcast_at, agreement_at, desk_at, fields_at};
ghost use Rattle.hb_wire.specs.Reading.{whole_vote};
ghost use Rattle.hb_wire.specs.Views.{vote_of};

use crate::fields::{Field, array_of, bit_of, byte_of, list_of, path_of, set_of, sized_of};
use crate::vote_view::VoteView;
use hb_base::limits::{LONGEST_SHARD, LONGEST_VALUE, MOST_EPOCHS, MOST_ROUNDS};

// Rounds are below this.
const ROUNDS: u16 = MOST_ROUNDS as u16;

#[tactic(auto, unfolding(crate::specs::Reading::val_at))]
fn val_of(n: u8, epoch: u8, bytes: &[u8]) -> Field<'_, VoteView<'_>>
    requires some { 1 ≤ n }
    requires few { n ≤ most_nodes }
    ensures { Shows (λ x. (vote_of x.0, x.1.now)) result (val_at n epoch bytes.now) }
{
    let (target, rest) = byte_of(n as u16, bytes)?;
    let (root, rest) = array_of(rest)?;
    let (shard, rest) = sized_of(1, LONGEST_SHARD, rest)?;
    let (branch, rest) = path_of(n, rest)?;
    let vote = VoteView::Val {
        epoch,
        target,
        root,
        shard,
        branch,
    };
    Some((vote, rest))
}

#[tactic(auto, unfolding(crate::specs::Reading::echo_at))]
fn echo_of(n: u8, epoch: u8, bytes: &[u8]) -> Field<'_, VoteView<'_>>
    requires some { 1 ≤ n }
    requires few { n ≤ most_nodes }
    ensures { Shows (λ x. (vote_of x.0, x.1.now)) result (echo_at n epoch bytes.now) }
{
    let (root, rest) = array_of(bytes)?;
    let (shard, rest) = sized_of(1, LONGEST_SHARD, rest)?;
    let (branch, rest) = path_of(n, rest)?;
    let vote = VoteView::Echo {
        epoch,
        root,
        shard,
        branch,
    };
    Some((vote, rest))
}

#[tactic(auto, unfolding(crate::specs::Reading::coin_at))]
fn coin_of(n: u8, epoch: u8, bytes: &[u8]) -> Field<'_, VoteView<'_>>
    requires some { 1 ≤ n }
    requires few { n ≤ most_nodes }
    ensures { Shows (λ x. (vote_of x.0, x.1.now)) result (coin_at n epoch bytes.now) }
{
    let (round, rest) = byte_of(ROUNDS, bytes)?;
    let (share, rest) = byte_of(256, rest)?;
    let (salt, rest) = array_of(rest)?;
    let (branch, rest) = path_of(n, rest)?;
    let vote = VoteView::Coin {
        epoch,
        round,
        share,
        salt,
        branch,
    };
    Some((vote, rest))
}

#[tactic(auto, unfolding(crate::specs::Reading::ready_at))]
fn ready_of(epoch: u8, bytes: &[u8]) -> Field<'_, VoteView<'_>>
    ensures { Shows (λ x. (vote_of x.0, x.1.now)) result (ready_at epoch bytes.now) }
{
    let (root, rest) = array_of(bytes)?;
    Some((VoteView::Ready { epoch, root }, rest))
}

#[tactic(auto, unfolding(crate::specs::Reading::delivered_at))]
fn delivered_of(epoch: u8, bytes: &[u8]) -> Field<'_, VoteView<'_>>
    ensures { Shows (λ x. (vote_of x.0, x.1.now)) result (delivered_at epoch bytes.now) }
{
    let (value, rest) = sized_of(0, LONGEST_VALUE, bytes)?;
    Some((VoteView::Delivered { epoch, value }, rest))
}

#[tactic(auto, unfolding(crate::specs::Reading::propose_at))]
fn propose_of(epoch: u8, bytes: &[u8]) -> Field<'_, VoteView<'_>>
    ensures { Shows (λ x. (vote_of x.0, x.1.now)) result (propose_at epoch bytes.now) }
{
    let (value, rest) = sized_of(0, LONGEST_VALUE, bytes)?;
    Some((VoteView::Propose { epoch, value }, rest))
}

#[tactic(auto, unfolding(crate::specs::Reading::pick_at))]
fn pick_of(epoch: u8, bytes: &[u8]) -> Field<'_, VoteView<'_>>
    ensures { Shows (λ x. (vote_of x.0, x.1.now)) result (pick_at epoch bytes.now) }
{
    let (round, rest) = byte_of(ROUNDS, bytes)?;
    let (vals, rest) = set_of(rest)?;
    Some((VoteView::Pick { epoch, round, vals }, rest))
}

#[tactic(auto, unfolding(crate::specs::Reading::conf_at))]
fn conf_of(epoch: u8, bytes: &[u8]) -> Field<'_, VoteView<'_>>
    ensures { Shows (λ x. (vote_of x.0, x.1.now)) result (conf_at epoch bytes.now) }
{
    let (round, rest) = byte_of(ROUNDS, bytes)?;
    let (vals, rest) = set_of(rest)?;
    Some((VoteView::Conf { epoch, round, vals }, rest))
}

#[tactic(auto, unfolding(crate::specs::Reading::decided_at))]
fn decided_of(epoch: u8, bytes: &[u8]) -> Field<'_, VoteView<'_>>
    ensures { Shows (λ x. (vote_of x.0, x.1.now)) result (decided_at epoch bytes.now) }
{
    let (bit, rest) = bit_of(bytes)?;
    Some((VoteView::Decided { epoch, bit }, rest))
}

#[tactic(auto, unfolding(crate::specs::Reading::closed_at))]
fn closed_of(n: u8, epoch: u8, bytes: &[u8]) -> Field<'_, VoteView<'_>>
    requires { n ≤ most_nodes }
    ensures { Shows (λ x. (vote_of x.0, x.1.now)) result (closed_at n epoch bytes.now) }
{
    let (list, rest) = list_of(n, bytes)?;
    Some((VoteView::Closed { epoch, list }, rest))
}

// A round and a bit.
fn round_bit_of(bytes: &[u8]) -> Field<'_, (u8, bool)>
    ensures { Shows (λ x. ((x.0.0, (x.0.1, tt)), x.1.now)) result (pair (byte_at most_rounds) (pair bit_at ended) bytes.now) }
{
    let (round, rest) = byte_of(ROUNDS, bytes)?;
    let (bit, rest) = bit_of(rest)?;
    Some(((round, bit), rest))
}

#[tactic(auto, unfolding(crate::specs::Reading::est_at))]
fn est_of(epoch: u8, bytes: &[u8]) -> Field<'_, VoteView<'_>>
    ensures { Shows (λ x. (vote_of x.0, x.1.now)) result (est_at epoch bytes.now) }
{
    let ((round, bit), rest) = round_bit_of(bytes)?;
    Some((VoteView::Est { epoch, round, bit }, rest))
}

#[tactic(auto, unfolding(crate::specs::Reading::bval_at))]
fn bval_of(epoch: u8, bytes: &[u8]) -> Field<'_, VoteView<'_>>
    ensures { Shows (λ x. (vote_of x.0, x.1.now)) result (bval_at epoch bytes.now) }
{
    let ((round, bit), rest) = round_bit_of(bytes)?;
    Some((VoteView::Bval { epoch, round, bit }, rest))
}

#[tactic(auto, unfolding(crate::specs::Reading::aux_at))]
fn aux_of(epoch: u8, bytes: &[u8]) -> Field<'_, VoteView<'_>>
    ensures { Shows (λ x. (vote_of x.0, x.1.now)) result (aux_at epoch bytes.now) }
{
    let ((round, bit), rest) = round_bit_of(bytes)?;
    Some((VoteView::Aux { epoch, round, bit }, rest))
}

// The fields of a kind of the broadcast.
#[tactic(auto, unfolding(crate::specs::Reading::broadcast_at))]
fn broadcast_of(n: u8, kind: u8, epoch: u8, bytes: &[u8]) -> Field<'_, VoteView<'_>>
    requires some { 1 ≤ n }
    requires few { n ≤ most_nodes }
    ensures { Shows (λ x. (vote_of x.0, x.1.now)) result (broadcast_at n kind epoch bytes.now) }
{
    match kind {
        0x01 => val_of(n, epoch, bytes),
        0x02 => echo_of(n, epoch, bytes),
        0x03 => ready_of(epoch, bytes),
        0x04 => delivered_of(epoch, bytes),
        _ => None,
    }
}

// The fields of a kind of the binary agreement.
#[tactic(auto, unfolding(crate::specs::Reading::agreement_at))]
fn agreement_of(n: u8, version: u8, kind: u8, epoch: u8, bytes: &[u8]) -> Field<'_, VoteView<'_>>
    requires some { 1 ≤ n }
    requires few { n ≤ most_nodes }
    ensures { Shows (λ x. (vote_of x.0, x.1.now)) result (agreement_at n version kind epoch bytes.now) }
{
    match kind {
        0x05 => est_of(epoch, bytes),
        0x06 => bval_of(epoch, bytes),
        0x07 => aux_of(epoch, bytes),
        0x08 => pick_of(epoch, bytes),
        0x09 => coin_of(n, epoch, bytes),
        0x0A => decided_of(epoch, bytes),
        0x0B if version == 2 => conf_of(epoch, bytes),
        _ => None,
    }
}

// The fields of a kind of the desk.
#[tactic(auto, unfolding(crate::specs::Reading::desk_at, crate::specs::Reading::no_more_at))]
fn desk_of(n: u8, kind: u8, epoch: u8, bytes: &[u8]) -> Field<'_, VoteView<'_>>
    requires { n ≤ most_nodes }
    ensures { Shows (λ x. (vote_of x.0, x.1.now)) result (desk_at n kind epoch bytes.now) }
{
    match kind {
        0x10 => propose_of(epoch, bytes),
        0x11 => Some((VoteView::NoMore { epoch }, bytes)),
        0x12 => closed_of(n, epoch, bytes),
        _ => None,
    }
}

// The fields of any kind.
#[tactic(auto, unfolding(crate::specs::Reading::fields_at))]
fn fields_of(n: u8, version: u8, kind: u8, epoch: u8, bytes: &[u8]) -> Field<'_, VoteView<'_>>
    requires some { 1 ≤ n }
    requires few { n ≤ most_nodes }
    ensures { Shows (λ x. (vote_of x.0, x.1.now)) result (fields_at n version kind epoch bytes.now) }
{
    if kind < 0x05 {
        broadcast_of(n, kind, epoch, bytes)
    } else if kind < 0x10 {
        agreement_of(n, version, kind, epoch, bytes)
    } else {
        desk_of(n, kind, epoch, bytes)
    }
}

// The vote at the front of the bytes, if nothing stands behind it.
#[tactic(auto, unfolding(crate::specs::Reading::whole_vote, crate::specs::Reading::front_vote))]
pub(crate) fn scan(n: u8, version: u8, bytes: &[u8]) -> Option<VoteView<'_>>
    requires some { 1 ≤ n }
    requires few { n ≤ most_nodes }
    ensures { Shows vote_of result (whole_vote n version bytes.now) }
{
    match bytes {
        [kind, epoch, rest @ ..] if (version == 1 || version == 2) && *epoch < MOST_EPOCHS => {
            let (vote, rest) = fields_of(n, version, *kind, *epoch, rest)?;
            if rest.is_empty() { Some(vote) } else { None }
        }
        _ => None,
    }
}
