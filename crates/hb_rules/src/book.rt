//! The contract of a book and of its seats, and why a book takes no post.
ghost use Rattle.std.specs.Prelude.{◌≡◌, ℕ, ◌<◌, ◌≤◌, ◌⊎◌, true, List, length, IfOk, IfSome, IsOk, OnErr, slice_get};
ghost use Rattle.hb_base.specs.Numbers.{Numbers};
ghost use Rattle.hb_base.specs.NodeSet.{is_in};
ghost use Rattle.hb_wire.specs.declared.post.Post.{Post};
ghost use Rattle.hb_base.specs.Limits.{most_posts};
ghost use Rattle.hb_rules.specs.History.{IsAllowed, HasSpelling};
ghost use Rattle.hb_rules.specs.Ledger.{IsPrefix};
ghost use Rattle.hb_rules.specs.Book.{post_of, lie_of, AreTwo, Watched, Posted};

use hb_wire::{Post, To, Vote};
use std::alloc::{AllocError, AllocFailed};
use thiserror::Error;

/// Why a book did not take a post.
#[derive(Clone, Copy, Debug, PartialEq, Eq, Error)]
pub enum BookFault {
    /// 2^22 posts stand in it already.
    #[error("the book is full")]
    Full,
    #[error("out of memory")]
    Memory,
}

impl From<AllocError> for BookFault {
    ghost use Rattle.hb_rules.specs.declared.book.BookFault.TheVariants.{Memory};

    ghost from_gives = { λ _ fault. fault ≡ Memory };

    fn from(_: AllocError) -> BookFault {
        BookFault::Memory
    }
}

impl<T: Drop> From<AllocFailed<T>> for BookFault {
    ghost use Rattle.hb_rules.specs.declared.book.BookFault.TheVariants.{Memory};

    ghost from_gives = { λ _ fault. fault ≡ Memory };

    fn from(_: AllocFailed<T>) -> BookFault {
        BookFault::Memory
    }
}

/// One growing list of posts that all actors share. An actor posts and reads by a seat of its own, and a seat is handed
/// only to the book that made it. The seat of a liar is of its whole node. Each call but `reread` and `meet` makes what the
/// seat has seen the whole history of that moment. Each leaves what every other seat knows.
pub trait Book {
    type Seat: Drop;

    /// The config of the book that the seat is of, the node and the actor that it is for, and what it has seen: a
    /// beginning of the history, with all posts of its own.
    ghost config: { Self.Seat → Numbers };

    ghost node: { Self.Seat → ℕ };

    ghost actor: { Self.Seat → ℕ };

    ghost seen: { Self.Seat → List Post };

    /// The seat is of this book: what it has not seen is of others.
    ghost knows: { Self → Self.Seat → Type 0 };

    /// The same book, after calls on the seat of this actor of this node alone.
    ghost moved: { ℕ → ℕ → Self → Self → Type 0 };

    /// Between these states of the book and of the seat, the seat was shown the whole history of that moment.
    ghost is_whole: { Self → Self → Self.Seat → Self.Seat → Type 0 };

    /// Posts a vote that has a spelling and that the rules allow, under the seat's name, and answers the number of the
    /// post. `Full` comes exactly where 2^22 posts stand. A refusal posts nothing.
    fn post(&mut self, seat: &mut Self::Seat, vote: &Vote) -> Result<u32, BookFault>
        requires seat { knows self.old seat.old }
        requires spelled { HasSpelling (config seat.old) vote.now }
        requires allowed { IsAllowed (config seat.old) (node seat.old) (actor seat.old) (seen seat.old) vote.now }
        ensures seat { knows self.new seat.new }
        ensures same { (config seat.new ≡ config seat.old) × (node seat.new ≡ node seat.old) × (actor seat.new ≡ actor seat.old) }
        ensures moved { moved (node seat.old) (actor seat.old) self.old self.new }
        ensures whole { is_whole self.old self.new seat.old seat.new }
        ensures posted { IfOk result (λ k. (k < most_posts)
            × Posted (config seat.old) (node seat.old) (actor seat.old) (post_of (node seat.old) (actor seat.old) vote.now) k
            (seen seat.old) (seen seat.new)) }
        ensures refused { OnErr result (Watched (config seat.old) (node seat.old) (actor seat.old) (seen seat.old) (seen seat.new)) }
        ensures full { result ≡ Err BookFault.Full → length (seen seat.new) ≡ most_posts }
        ensures memory { result ≡ Err BookFault.Memory → length (seen seat.new) < most_posts };

    /// Posts any bytes under the node of a liar's seat, as any actor, and answers the number of the post. `Full` comes
    /// exactly where 2^22 posts stand. A refusal posts nothing.
    fn lie(
        &mut self,
        seat: &mut Self::Seat,
        as_actor: u8,
        to: To,
        bytes: &[u8],
    ) -> Result<u32, BookFault>
        requires seat { knows self.old seat.old }
        requires liar { is_in (config seat.old).liars (node seat.old) ≡ true }
        ensures seat { knows self.new seat.new }
        ensures same { (config seat.new ≡ config seat.old) × (node seat.new ≡ node seat.old) × (actor seat.new ≡ actor seat.old) }
        ensures moved { moved (node seat.old) (actor seat.old) self.old self.new }
        ensures whole { is_whole self.old self.new seat.old seat.new }
        ensures posted { IfOk result (λ k. (k < most_posts)
            × Posted (config seat.old) (node seat.old) (actor seat.old) (lie_of (node seat.old) as_actor to bytes.now) k
            (seen seat.old) (seen seat.new)) }
        ensures refused { OnErr result (Watched (config seat.old) (node seat.old) (actor seat.old) (seen seat.old) (seen seat.new)) }
        ensures full { result ≡ Err BookFault.Full → length (seen seat.new) ≡ most_posts }
        ensures memory { result ≡ Err BookFault.Memory → length (seen seat.new) < most_posts };

    /// Post k, which is of one of the n nodes, and None exactly where there are no more than k. It shares the post's bytes and
    /// takes no memory; Err is as of `Bytes::clone`, and never told of a post that does not stand.
    fn read(&mut self, seat: &mut Self::Seat, k: u32) -> Result<Option<Post>, AllocError>
        requires seat { knows self.old seat.old }
        ensures seat { knows self.new seat.new }
        ensures same { (config seat.new ≡ config seat.old) × (node seat.new ≡ node seat.old) × (actor seat.new ≡ actor seat.old) }
        ensures moved { moved (node seat.old) (actor seat.old) self.old self.new }
        ensures whole { is_whole self.old self.new seat.old seat.new }
        ensures watched { Watched (config seat.old) (node seat.old) (actor seat.old) (seen seat.old) (seen seat.new) }
        ensures found { IfOk result (λ post. post ≡ slice_get (seen seat.new) k) }
        ensures known { IfOk result (λ post. IfSome post (λ p. p.from < (config seat.old).n)) }
        ensures none { length (seen seat.new) ≤ k → IsOk result };

    /// Post k of those that the seat has seen when the call returns, and else None. It is for who has just read the post and
    /// wants it once more. No clause asks for a look: who has to know whether post k stands asks `read`.
    fn reread(&mut self, seat: &mut Self::Seat, k: u32) -> Result<Option<Post>, AllocError>
        requires seat { knows self.old seat.old }
        ensures seat { knows self.new seat.new }
        ensures same { (config seat.new ≡ config seat.old) × (node seat.new ≡ node seat.old) × (actor seat.new ≡ actor seat.old) }
        ensures moved { moved (node seat.old) (actor seat.old) self.old self.new }
        ensures watched { Watched (config seat.old) (node seat.old) (actor seat.old) (seen seat.old) (seen seat.new) }
        ensures found { IfOk result (λ post. post ≡ slice_get (seen seat.new) k) }
        ensures known { IfOk result (λ post. IfSome post (λ p. p.from < (config seat.old).n)) }
        ensures none { length (seen seat.new) ≤ k → IsOk result };

    /// How many posts stand.
    fn posts(&mut self, seat: &mut Self::Seat) -> u32
        requires seat { knows self.old seat.old }
        ensures seat { knows self.new seat.new }
        ensures same { (config seat.new ≡ config seat.old) × (node seat.new ≡ node seat.old) × (actor seat.new ≡ actor seat.old) }
        ensures moved { moved (node seat.old) (actor seat.old) self.old self.new }
        ensures whole { is_whole self.old self.new seat.old seat.new }
        ensures watched { Watched (config seat.old) (node seat.old) (actor seat.old) (seen seat.old) (seen seat.new) }
        ensures count { result ≡ length (seen seat.new) };

    /// Shows a seat what another has seen: afterwards it has seen the longer of both, of which the shorter is a
    /// beginning. It takes no memory.
    fn meet(&mut self, seat: &mut Self::Seat, other: &mut Self::Seat)
        requires seat { knows self.old seat.old }
        requires other { knows self.old other.old }
        ensures seat { knows self.new seat.new }
        ensures other { knows self.new other.new }
        ensures same { (config seat.new ≡ config seat.old) × (node seat.new ≡ node seat.old) × (actor seat.new ≡ actor seat.old) }
        ensures moved { moved (node seat.old) (actor seat.old) self.old self.new }
        ensures watched { Watched (config seat.old) (node seat.old) (actor seat.old) (seen seat.old) (seen seat.new) }
        ensures longer { (seen seat.new ≡ seen seat.old) ⊎ (seen seat.new ≡ seen other.old) }
        ensures both { IsPrefix (seen other.old) (seen seat.new) }
        ensures kept { (config other.new ≡ config other.old) × (node other.new ≡ node other.old)
            × (actor other.new ≡ actor other.old) × (seen other.new ≡ seen other.old) };

    ghost stays: { (i x : ℕ) (b : Self) → moved i x b b };

    ghost goes_on: { (i x : ℕ) (a b c : Self) → moved i x a b → moved i x b c → moved i x a c };

    ghost keeps: { (i x : ℕ) (a b : Self) (s : Self.Seat) → moved i x a b → AreTwo (config s) i x (node s) (actor s) → knows a s → knows b s };

    /// A call that left its seat as it was had nothing new to show: no seat of the book has seen more.
    ghost looks: { (a b : Self) (s t : Self.Seat) → is_whole a b s s → knows b t → IsPrefix (seen t) (seen s) };
}
