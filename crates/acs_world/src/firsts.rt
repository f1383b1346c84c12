//! Tables that lead to posts of desks. What they say is only where to look first: what is found there is looked at.

ghost use Rattle.std.specs.Prelude.{◌≡◌, ℕ, Contains, IfSome, IfNone, None, Some};
ghost use Rattle.acs_world.specs.Firsts.{place_of, post_at, is_closing, has_closed};

use crate::closings::closing_of;
use hb_base::Config;
use hb_base::limits::{MOST_EPOCHS, MOST_NODES};
use hb_rules::is_correct;
use hb_wire::{Post, glance};

// How many epochs each desk has.
const EPOCHS: usize = MOST_EPOCHS as usize;

/// How many places all desks and epochs have.
pub(crate) const PLACES: usize = MOST_NODES as usize * EPOCHS;

/// The place of a desk and an epoch.
pub(crate) fn place_of(node: u8, epoch: u8) -> usize
    ensures { result ≡ place_of node epoch }
{
    node as usize * EPOCHS + epoch as usize
}

/// For each desk and epoch the number of the desk's first vote of this kind, the first byte of such votes, for the epoch.
pub(crate) fn first_numbers(config: &Config, posts: &[Post], kind: u8) -> [Option<usize>; PLACES] {
    let mut table = [None; PLACES];
    for number in 0..posts.len() {
        if let Some(place) = voting_place(config, &posts[number], kind)
            && place < PLACES
            && table[place].is_none()
        {
            table[place] = Some(number);
        }
    }
    table
}

/// For each epoch what the table has of the first correct node's desk of which it has anything.
pub(crate) fn leading_numbers(
    config: &Config,
    table: &[Option<usize>; PLACES],
) -> [Option<usize>; EPOCHS] {
    let mut leading = [None; EPOCHS];
    for node in 0..MOST_NODES {
        for epoch in 0..MOST_EPOCHS {
            let place = node as usize * EPOCHS + epoch as usize;
            if is_correct(config, node) && leading[epoch as usize].is_none() {
                leading[epoch as usize] = table[place];
            }
        }
    }
    leading
}

// The place of the desk and epoch of a vote of this kind.
fn voting_place(config: &Config, post: &Post, kind: u8) -> Option<usize> {
    if post.actor != config.n() {
        return None;
    }
    let glance = glance(config.n(), config.version(), post.bytes.as_slice())?;
    if glance.kind != kind {
        return None;
    }
    Some(place_of(post.from, glance.epoch))
}

/// The post to which a table leads at a place.
pub(crate) fn post_at<'a>(
    posts: &'a [Post],
    table: &[Option<usize>],
    place: usize,
) -> Option<&'a Post>
    ensures none { IfNone result (post_at posts.now table.now place ≡ None) }
    ensures some { IfSome result (λ post. post_at posts.now table.now place ≡ Some post.now) }
    ensures stands { IfSome result (λ post. Contains posts.now post.now) }
{
    if place >= table.len() {
        return None;
    }
    let number = table[place]?;
    if number >= posts.len() {
        return None;
    }
    Some(&posts[number])
}

/// Whether the table leads for a correct node's desk and an epoch to a post with which the desk closes the epoch.
pub(crate) fn has_closed(
    config: &Config,
    posts: &[Post],
    table: &[Option<usize>],
    node: u8,
    epoch: u8,
) -> bool
    ensures { result ≡ has_closed config.now posts.now table.now node epoch }
{
    match post_at(posts, table, place_of(node, epoch)) {
        None => false,
        Some(post) => is_closing(config, node, epoch, post),
    }
}

// Whether a post is of the desk of this node, which does not lie, and closes the epoch.
fn is_closing(config: &Config, node: u8, epoch: u8, post: &Post) -> bool
    ensures { result ≡ is_closing config.now node epoch (Some post.now) }
{
    match closing_of(config, post) {
        None => false,
        Some(closing) => post.from == node && closing.epoch == epoch,
    }
}
