//! Deliveries of what no desk has proposed.

ghost use Rattle.std.specs.Prelude.{◌≡◌, ℕ, ◌↔◌, length, IsTrue};
ghost use Rattle.rbc_world.specs.declared.claims.Kind.{Kind};
ghost use Rattle.rbc_world.specs.Claimed.{AreDeliveries, AreStruck, AreLeft, AreNone};

use crate::claims::{Kind, PLACES, claim_of, has_body, lane_at};
use crate::entries::entry_at;
use hb_base::{Config, NodeSet};
use hb_wire::Post;

/// The table without the numbers of posts that deliver what a desk has proposed.
pub(crate) fn unproposed(
    config: &Config,
    posts: &[Post],
    table: [Option<usize>; PLACES],
) -> [Option<usize>; PLACES]
    requires { AreDeliveries config.now posts.now table }
    ensures { AreLeft config.now posts.now posts.now table result }
{
    let mut left = table;
    for post in posts {
        strike(config, posts, post, &mut left);
    }
    left
}

// Strikes out the number of a post that delivers what this post proposes.
fn strike(config: &Config, posts: &[Post], post: &Post, table: &mut [Option<usize>])
    requires { AreDeliveries config.now posts.now table.old }
    ensures { AreStruck config.now posts.now post.now table.old table.new }
{
    let Some(proposal) = claim_of(config, Kind::Propose, post) else {
        return;
    };
    let Some(number) = entry_at(table, proposal.place) else {
        return;
    };
    if has_body(config, Kind::Delivered, &posts[number], proposal.body) {
        table[proposal.place] = None;
    }
}

/// Whether there is no number at the places of lanes whose nodes are no liars.
pub(crate) fn are_none(liars: &NodeSet, table: &[Option<usize>]) -> bool
    requires { length table.now ≡ 512 }
    ensures { IsTrue result ↔ AreNone liars.now table.now }
{
    for place in 0..PLACES {
        if entry_at(table, place).is_some() && !liars.has(lane_at(place)) {
            return false;
        }
    }
    true
}
