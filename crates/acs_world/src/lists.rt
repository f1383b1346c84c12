//! Ledgers as they are in any history, also in one where a desk closes an epoch with several lists.

ghost use Rattle.std.specs.Prelude.{◌≡◌, ℕ, ◌+◌, ◌<◌, ◌≤◌, List, length, take, slice_get, Some, None, IfSome, IfNone};
ghost use Rattle.std.specs.List.{list_any};
ghost use Rattle.hb_wire.specs.declared.items.Item.{Item};
ghost use Rattle.hb_wire.specs.Glances.{IsClosedRest};
ghost use Rattle.hb_rules.specs.Ledger.{ledger};
ghost use Rattle.acs_world.specs.Common.{closes, is_like, is_new};
ghost use Rattle.acs_world.specs.Lists.{lists_of, new_list, Searched};

use crate::closings::closing_at;
use hb_base::Config;
use hb_wire::{Post, VoteView, view};

/// How many lists the ledger of a node has. It compares each post that closes an epoch with those before it.
pub(crate) fn closed_count(config: &Config, posts: &[Post], node: u8) -> usize
    ensures { result ≡ length (ledger config.now posts.now node) }
{
    let mut count = 0;
    for number in 0..posts.len() {
        count += added(config, node, posts, number);
    }
    count
}

// How many lists one more post adds to the ledger of a node.
fn added(config: &Config, node: u8, posts: &[Post], number: usize) -> usize
    requires { number < length posts.now }
    ensures lists { length (ledger config.now (take (number + 1) posts.now) node) ≡ length (ledger config.now (take number posts.now) node) + result }
    ensures few { result ≤ 1 }
{
    if is_new(config, node, front(posts, number), &posts[number]) {
        1
    } else {
        0
    }
}

// The posts before one.
fn front(posts: &[Post], number: usize) -> &[Post]
    requires { number ≤ length posts.now }
    ensures { result.now ≡ take number posts.now }
{
    &posts[..number]
}

// Whether a post of the desk of this node closes an epoch as none before it does.
fn is_new(config: &Config, node: u8, before: &[Post], post: &Post) -> bool
    ensures { result ≡ is_new config.now node before.now post.now }
{
    closes(config, node, post) && !is_known(config, node, before, post.bytes.as_slice())
}

// Whether a post of the desk of this node has these bytes.
fn is_known(config: &Config, node: u8, before: &[Post], bytes: &[u8]) -> bool
    ensures { result ≡ list_any (is_like config.now node bytes.now) before.now }
{
    before.iter().any(|post| is_like(config, node, bytes, post))
}

/// Whether a post is of the desk of this node, and has these bytes.
pub(crate) fn is_like(config: &Config, node: u8, bytes: &[u8], post: &Post) -> bool
    ensures { result ≡ is_like config.now node bytes.now post.now }
{
    post.from == node && post.actor == config.n() && bytes == post.bytes.as_slice()
}

// Whether a post of the desk of this node closes an epoch.
fn closes(config: &Config, node: u8, post: &Post) -> bool
    ensures { result ≡ closes config.now node post.now }
{
    if post.from != node || post.actor != config.n() {
        return false;
    }
    match view(config.n(), config.version(), post.bytes.as_slice()) {
        Some(VoteView::Closed { .. }) => true,
        _ => false,
    }
}

/// What comes of the search for a list: what the vote that closes with it has behind kind and epoch, or how many lists there
/// are.
#[derive(Clone, Copy, Debug)]
pub(crate) enum Search<'a> {
    Found(&'a [u8]),
    Fewer(usize),
}

/// Looks for the list at a place among those with which the desk of a node closes an epoch. It compares each post that closes
/// the epoch with those before.
pub(crate) fn list_in<'a>(
    config: &Config,
    posts: &'a [Post],
    node: u8,
    epoch: u8,
    place: usize,
) -> Search<'a>
    ensures { Searched (lists_of config.now node epoch posts.now) place result }
{
    let mut count = 0;
    for number in 0..posts.len() {
        match new_list(config, node, epoch, front(posts, number), &posts[number]) {
            None => {}
            Some(rest) => {
                if count == place {
                    return Search::Found(rest);
                }
                count += 1;
            }
        }
    }
    Search::Fewer(count)
}

// The list with which a post of the desk of this node closes an epoch, if no post before it does so.
fn new_list<'a>(
    config: &Config,
    node: u8,
    epoch: u8,
    before: &[Post],
    post: &'a Post,
) -> Option<&'a [u8]>
    ensures none { IfNone result (new_list config.now node epoch before.now post.now ≡ None) }
    ensures some { IfSome result (λ rest. (list : List Item) × (new_list config.now node epoch before.now post.now ≡ Some list) × IsClosedRest rest.now list) }
{
    let closing = closing_at(config, node, post)?;
    if closing.epoch != epoch || is_known(config, node, before, post.bytes.as_slice()) {
        return None;
    }
    Some(closing.rest)
}
