//! Which desks have closed the last epoch.

ghost use Rattle.std.specs.Prelude.{◌≡◌, ◌-◌, ◌<◌, IfSome};
ghost use Rattle.hb_base.specs.Limits.{most_nodes};
ghost use Rattle.hb_rules.specs.Claims.{is_any_closing};
ghost use Rattle.hb_rules.specs.Hearing.{spelled};
ghost use Rattle.hb_wire.specs.Views.{vote_of};
ghost use Rattle.run_status.specs.Closers.{closer_of, AreClosers, AreClosersBy};
ghost use Rattle.run_status.specs.Shown.{passes};

use hb_base::limits::MOST_NODES;
use hb_base::{Config, NodeSet};
use hb_wire::{Post, VoteView, view};

/// The nodes whose desks have closed the last epoch in these posts.
pub(crate) fn closers(config: &Config, posts: &[Post]) -> NodeSet
    ensures { AreClosers config.now posts.now result }
{
    let mut nodes = NodeSet::new();
    for post in posts {
        add_closer(config, post, &mut nodes);
    }
    nodes
}

// Adds the node of one more post, if by it the node's desk closes the last epoch.
fn add_closer(config: &Config, post: &Post, nodes: &mut NodeSet)
    ensures { AreClosersBy config.now post.now nodes.old nodes.new }
{
    if let Some(node) = closer_of(config, post) {
        nodes.add(node);
    }
}

// The node whose desk closes the last epoch by a post.
fn closer_of(config: &Config, post: &Post) -> Option<u8>
    ensures exact { result ≡ closer_of config.now post.now }
    ensures inside { IfSome result (λ node. node < most_nodes) }
{
    if post.from < MOST_NODES && post.actor == config.n() && closes_last(config, post) {
        Some(post.from)
    } else {
        None
    }
}

// Whether a post spells a vote that closes the last epoch.
fn closes_last(config: &Config, post: &Post) -> bool
    ensures { result ≡ passes (is_any_closing (config.now.epochs - 1)) (spelled config.now post.now) }
{
    match view(config.n(), config.version(), post.bytes.as_slice()) {
        None => false,
        Some(vote) => closes(config.epochs() - 1, &vote),
    }
}

// Whether a vote closes an epoch.
fn closes(epoch: u8, vote: &VoteView<'_>) -> bool
    ensures { result ≡ is_any_closing epoch (vote_of vote.now) }
{
    match vote {
        VoteView::Closed { epoch: closed, .. } => *closed == epoch,
        _ => false,
    }
}
