//! The places of votes.
ghost use Rattle.std.specs.Prelude.{◌≡◌};
ghost use Rattle.hb_wire.specs.Views.{vote_of};
ghost use Rattle.accuse.specs.Places.{place_of, root_place};

use crate::place::{Kind, Place};
use hb_wire::VoteView;

// The place of the votes that a vote of an actor excludes, if it excludes any.
#[tactic(auto, unfolding(crate::specs::Places::place_of))]
pub(crate) fn place_of(actor: u8, vote: &VoteView) -> Option<Place>
    ensures { result ≡ place_of actor (vote_of vote.now) }
{
    let (kind, epoch, round, target) = match vote {
        VoteView::Val { epoch, target, .. } => (Kind::Val, *epoch, 0, *target),
        VoteView::Echo { epoch, .. } => (Kind::Echo, *epoch, 0, 0),
        VoteView::Ready { epoch, .. } => (Kind::Ready, *epoch, 0, 0),
        VoteView::Delivered { epoch, .. } => (Kind::Delivered, *epoch, 0, 0),
        VoteView::Est { epoch, round, .. } => (Kind::Est, *epoch, *round, 0),
        VoteView::Aux { epoch, round, .. } => (Kind::Aux, *epoch, *round, 0),
        VoteView::Conf { epoch, round, .. } => (Kind::Conf, *epoch, *round, 0),
        VoteView::Pick { epoch, round, .. } => (Kind::Pick, *epoch, *round, 0),
        VoteView::Coin { epoch, round, .. } => (Kind::Coin, *epoch, *round, 0),
        VoteView::Decided { epoch, .. } => (Kind::Decided, *epoch, 0, 0),
        VoteView::Propose { epoch, .. } => (Kind::Propose, *epoch, 0, 0),
        VoteView::Closed { epoch, .. } => (Kind::Closed, *epoch, 0, 0),
        VoteView::Bval { .. } | VoteView::NoMore { .. } => return None,
    };
    Some(Place {
        actor,
        kind,
        epoch,
        round,
        target,
    })
}

// The place of the Vals of an actor and epoch, if the vote is one.
#[tactic(auto, unfolding(crate::specs::Places::root_place))]
pub(crate) fn root_place(actor: u8, vote: &VoteView) -> Option<Place>
    ensures { result ≡ root_place actor (vote_of vote.now) }
{
    match vote {
        VoteView::Val { epoch, .. } => Some(Place {
            actor,
            kind: Kind::Root,
            epoch: *epoch,
            round: 0,
            target: 0,
        }),
        _ => None,
    }
}
