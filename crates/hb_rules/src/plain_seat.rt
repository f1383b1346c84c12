//! A seat of the book for one thread.
ghost use Rattle.std.specs.Prelude.{◌≡◌, ◌⊎◌, length};
ghost use Rattle.hb_rules.specs.Ledger.{IsPrefix};

use crate::posts::Posts;
use std::marker::Model;
use std::snapshot::Snapshot;

/// A seat of a `PlainBook`. Clauses see what it knows, a `SeatView`; the history that it has seen takes no memory here, but
/// for its length.
#[derive(Drop)]
pub struct PlainSeat {
    node: u8,
    actor: u8,
    count: u32,
    posts: Snapshot<Posts>,
}

impl Model for PlainSeat {
    ghost use Rattle.std.specs.Prelude.{◌≤◌, length, take};
    ghost use Rattle.hb_rules.specs.Book.{SeatView};

    ghost Value = { SeatView };

    ghost view = { λ s. record {
      config = s.posts.value.config;
      node = s.node;
      actor = s.actor;
      seen = take s.count s.posts.value.posts;
    } };

    ghost invariant = { λ s. s.count ≤ length s.posts.value.posts };
}

impl PlainSeat {
    /// The node that it is for.
    pub fn node(&self) -> u8
        ensures { result ≡ self.now.node }
    {
        self.node
    }

    /// The actor that it is for, and 255 where its node lies: then it is for the whole node.
    pub fn actor(&self) -> u8
        ensures { result ≡ self.now.actor }
    {
        self.actor
    }

    // A seat that has seen all posts.
    pub(crate) fn new(posts: &Posts, node: u8, actor: u8) -> PlainSeat
        ensures { result ≡ record { config = posts.now.config; node = node; actor = actor; seen = posts.now.posts } }
    {
        PlainSeat {
            node,
            actor,
            count: posts.count(),
            posts: Snapshot::of(posts),
        }
    }

    // Shows it all posts, and answers how many there are.
    pub(crate) fn look(&mut self, posts: &Posts) -> u32
        requires config { self.old.config ≡ posts.now.config }
        ensures seen { self.new ≡ record self.old { seen = posts.now.posts } }
        ensures count { result ≡ length posts.now.posts }
    {
        self.count = posts.count();
        self.posts = Snapshot::of(posts);
        self.count
    }

    // Shows it what another seat has seen, where both have seen a beginning of these posts.
    pub(crate) fn meet(&mut self, posts: &Posts, other: &PlainSeat)
        requires config { self.old.config ≡ posts.now.config }
        requires seen { IsPrefix self.old.seen posts.now.posts }
        requires other { IsPrefix other.now.seen posts.now.posts }
        ensures same { self.new ≡ record self.old { seen = self.new.seen } }
        ensures longer { (self.new.seen ≡ self.old.seen) ⊎ (self.new.seen ≡ other.now.seen) }
        ensures mine { IsPrefix self.old.seen self.new.seen }
        ensures both { IsPrefix other.now.seen self.new.seen }
        ensures stands { IsPrefix self.new.seen posts.now.posts }
    {
        self.count = self.count.max(other.count);
        self.posts = Snapshot::of(posts);
    }
}
