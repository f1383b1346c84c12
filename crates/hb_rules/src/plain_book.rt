//! A book for one thread.
ghost use Rattle.std.specs.Prelude.{◌≡◌, ℕ, ◌<◌, true, List, [], ◌∷◌, ◌++◌, length};
ghost use Rattle.hb_base.specs.NodeSet.{is_in};
ghost use Rattle.hb_rules.specs.History.{IsLegal};
ghost use Rattle.hb_wire.specs.declared.post.Post.{Post};
ghost use Rattle.hb_rules.specs.Book.{SeatView, BookView, is_mine, mine_in, Watched, Posted, IsSeatOf, Moved, HasSeenAll};
ghost use Rattle.hb_rules.specs.BookLaws.{Moved-refl, Moved-trans, IsSeatOf-moved, HasSeenAll-most};

use crate::book::{Book, BookFault};
use crate::plain_seat::PlainSeat;
use crate::posts::Posts;
use hb_base::{Bytes, Config};
use hb_wire::{Post, To, Vote};
use std::alloc::{AllocError, Global};
use std::marker::Model;

/// A book that one thread keeps. Its history is legal at every moment. Clauses see a `BookView`.
#[derive(Drop)]
pub struct PlainBook {
    posts: Posts,
}

impl Model for PlainBook {
    ghost use Rattle.hb_rules.specs.Book.{BookView};

    ghost Value = { BookView };

    ghost view = { λ b. b.posts };
}

impl PlainBook {
    /// A book with no post. It takes no memory.
    pub fn new(alloc: Global, config: &Config) -> PlainBook
        ensures { result ≡ record { config = config.now; posts = [] } }
    {
        PlainBook {
            posts: Posts::new(alloc, config),
        }
    }

    /// The seat of an actor that has not posted. At a liar it is of the whole node, with the actor 255. It takes no memory.
    /// Of two seats that were made for one actor, the book knows only the first that posts.
    pub fn seat(&mut self, node: u8, actor: u8) -> PlainSeat
        requires known { node < self.old.config.n }
        requires liar { is_in self.old.config.liars node ≡ true → actor ≡ 255 }
        requires fresh { mine_in self.old.config node actor self.old.posts ≡ [] }
        ensures same { self.new ≡ self.old }
        ensures seat { result ≡ record { config = self.old.config; node = node; actor = actor; seen = self.old.posts } }
        ensures knows { IsSeatOf self.new result }
    {
        PlainSeat::new(&self.posts, node, actor)
    }

    /// The posts so far, lent. They are legal.
    pub fn history(&self) -> &[Post]
        ensures posts { result.now ≡ self.now.posts }
        ensures legal { IsLegal self.now.config self.now.posts }
    {
        self.posts.as_slice()
    }

    /// The config of the run.
    pub fn config(&self) -> Config
        ensures { result ≡ self.now.config }
    {
        self.posts.config()
    }

    /// The history, which is legal. It takes no memory.
    pub fn into_history(self) -> Vec<Post>
        ensures posts { result.items ≡ self.posts }
        ensures legal { IsLegal self.config self.posts }
    {
        self.posts.into_vec()
    }
}

impl Book for PlainBook {
    type Seat = PlainSeat;

    ghost config = { λ s. s.config };

    ghost node = { λ s. s.node };

    ghost actor = { λ s. s.actor };

    ghost seen = { λ s. s.seen };

    ghost knows = { IsSeatOf };

    ghost moved = { Moved };

    ghost is_whole = { λ a b s t. HasSeenAll b t };

    ghost stays = { Moved-refl };

    ghost goes_on = { Moved-trans };

    ghost keeps = { IsSeatOf-moved };

    ghost looks = { HasSeenAll-most };

    fn post(&mut self, seat: &mut PlainSeat, vote: &Vote) -> Result<u32, BookFault> {
        let (node, actor) = (seat.node(), seat.actor());
        let bytes = self.posts.spell_for(node, actor, vote);
        let posted = self.posts.add_vote(node, actor, vote, bytes);
        seat.look(&self.posts);
        posted
    }

    fn lie(
        &mut self,
        seat: &mut PlainSeat,
        as_actor: u8,
        to: To,
        bytes: &[u8],
    ) -> Result<u32, BookFault> {
        let bytes = Bytes::copy(self.posts.alloc(), bytes);
        let posted = self.posts.add_lie(seat.node(), as_actor, to, bytes);
        seat.look(&self.posts);
        posted
    }

    fn read(&mut self, seat: &mut PlainSeat, k: u32) -> Result<Option<Post>, AllocError> {
        seat.look(&self.posts);
        self.posts.read(k)
    }

    fn reread(&mut self, seat: &mut PlainSeat, k: u32) -> Result<Option<Post>, AllocError> {
        self.read(seat, k)
    }

    fn posts(&mut self, seat: &mut PlainSeat) -> u32 {
        seat.look(&self.posts)
    }

    fn meet(&mut self, seat: &mut PlainSeat, other: &mut PlainSeat) {
        seat.meet(&self.posts, other);
    }
}

/// What the contract of `Book` says of a plain book; the function does nothing. A call on a seat that told it of posts of others
/// alone left the book as it was. A call that showed a seat all posts, and told it of one post of its own, put that post behind
/// all others, under the number that it told, and changed nothing else.
pub fn plain_book_laws()
    ensures still { (a b : BookView) (s : SeatView) (seen : List Post) → IsSeatOf a s → Moved s.node s.actor a b
        → IsSeatOf b (record s { seen = seen }) → Watched s.config s.node s.actor s.seen seen → b ≡ a }
    ensures added { (a b : BookView) (s : SeatView) (seen : List Post) (post : Post) (k : ℕ) → IsSeatOf a s → Moved s.node s.actor a b
        → seen ≡ b.posts → is_mine s.config s.node s.actor post ≡ true → Posted s.config s.node s.actor post k s.seen seen
        → (b ≡ record a { posts = a.posts ++ post ∷ [] }) × (k ≡ length a.posts) }
{}
