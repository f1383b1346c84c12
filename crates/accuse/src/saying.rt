//! What posts say, and whether two of them contradict each other.
ghost use Rattle.std.specs.Prelude.{◌≡◌};
ghost use Rattle.std.specs.Option.{option_map};
ghost use Rattle.hb_wire.specs.Views.{vote_of};
ghost use Rattle.accuse.specs.Accused.{said, contradict};
ghost use Rattle.accuse.specs.Conflicts.{excludes, show_two_roots};

use crate::placing::place_of;
use hb_base::Config;
use hb_wire::{Post, VoteView, view};

// The vote of a post, if it is of this node and spells one.
pub(crate) fn vote_by<'a>(config: &Config, node: u8, post: &'a Post) -> Option<VoteView<'a>>
    ensures { option_map (λ vote. (post.now.actor, vote_of vote)) result ≡ said config.now node post.now }
{
    if post.from != node {
        return None;
    }
    view(config.n(), config.version(), post.bytes.as_slice())
}

// Whether two votes hand out shards of two values in one epoch.
#[tactic(auto, unfolding(crate::specs::Conflicts::show_two_roots))]
fn show_two_roots(vote: &VoteView, other: &VoteView) -> bool
    ensures { result ≡ show_two_roots (vote_of vote.now) (vote_of other.now) }
{
    match (vote, other) {
        (
            VoteView::Val { epoch, root, .. },
            VoteView::Val {
                epoch: other_epoch,
                root: other_root,
                ..
            },
        ) => epoch == other_epoch && root != other_root,
        _ => false,
    }
}

// Whether the one vote excludes the other: they have one place.
fn excludes(vote: &VoteView, other: &VoteView) -> bool
    ensures { result ≡ excludes (vote_of vote.now) (vote_of other.now) }
{
    let Some(place) = place_of(0, vote) else {
        return false;
    };
    let Some(other_place) = place_of(0, other) else {
        return false;
    };
    place == other_place
}

// Whether two posts of this node contradict each other. A vote has one spelling, so two votes are the same exactly where their
// bytes are.
pub(crate) fn contradict(config: &Config, node: u8, post: &Post, other: &Post) -> bool
    ensures { result ≡ contradict (said config.now node post.now) (said config.now node other.now) }
{
    let Some(vote) = vote_by(config, node, post) else {
        return false;
    };
    let Some(other_vote) = vote_by(config, node, other) else {
        return false;
    };
    if post.actor != other.actor {
        return false;
    }
    if show_two_roots(&vote, &other_vote) {
        return true;
    }
    excludes(&vote, &other_vote) && post.bytes.as_slice() != other.bytes.as_slice()
}
