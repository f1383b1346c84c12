//! The book, and how its seats come and go.
ghost use Rattle.std.specs.Prelude.{◌≡◌, ℕ, ◌+◌, ◌<◌, ◌⊎◌, ◌++◌, true, false, List, [], ◌∷◌, All, Contains, IfOk};
ghost use Rattle.hb_base.specs.NodeSet.{is_in};
ghost use Rattle.hb_wire.specs.declared.post.Post.{Post};
ghost use Rattle.hb_rules.specs.Book.{mine_in, Watched};
ghost use Rattle.hb_rules.specs.History.{IsLegal};
ghost use Rattle.hb_rules.specs.Ledger.{IsPrefix};
ghost use Rattle.turn_book.specs.Entries.{AddsAtMostOne};
ghost use Rattle.post_book.specs.Numbering.{IsPlace, seat_number, post_number};
ghost use Rattle.post_book.specs.SharedSeats.{AllJoined};

use crate::first_seat::FirstSeat;
use crate::named_posts::NamedPosts;
use crate::naming::Naming;
use crate::seat::SharedSeat;
use hb_base::Config;
use hb_wire::Post;
use std::alloc::{AllocError, Global};
use std::marker::Model;
use std::sync::Wait;
use turn_book::{Seat, TurnBook};

/// A book of posts that threads share. A clause sees it as its name, which each of its seats has as `book`. Its calls take only
/// seats of this book; those of the actors are in `SharedBook`. Only `new` takes memory, and none of these waits.
#[derive(Drop)]
pub struct PostBook<J: Naming> {
    pub(crate) alloc: Global,
    pub(crate) config: Config,
    pub(crate) turns: TurnBook<NamedPosts<J>>,
}

impl<J: Naming> Model for PostBook<J> {
    ghost use Rattle.std.specs.Prelude.{◌≡◌};
    ghost use Rattle.atomic_table.specs.Seated.{TableId, table_id_coded};

    ghost Value = { TableId };

    ghost coded = { table_id_coded };

    ghost view = { λ b. b.turns };

    ghost invariant = { λ b. b.config ≡ J.config };
}

// The number of a seat in the turn book.
fn number_of(node: u8, actor: u8) -> u32
    ensures { result ≡ seat_number node actor }
{
    1 + 256 * (node as u32) + (actor as u32)
}

impl<J: Naming> PostBook<J> {
    // Begins the turn of a seat of this place. What the posts have that the seat had not seen is of others.
    pub(crate) fn begin<R: Wait>(
        &self,
        rt: &R,
        seat: &mut Seat<NamedPosts<J>>,
        node: u8,
        actor: u8,
    ) -> NamedPosts<J>
        requires book { seat.old.book ≡ self.now }
        requires turn { seat.old.in_turn ≡ false }
        requires place { (seat.old.number ≡ seat_number node actor) × IsPlace J.config node actor }
        ensures turn { seat.new ≡ record seat.old { in_turn = true; looks = seat.old.looks + 1; seen = result } }
        ensures watched { Watched J.config node actor seat.old.seen result }
    {
        let _ = (node, actor);
        seat.entries_are_own();
        self.turns.begin(rt, seat)
    }

    // Ends the turn of a seat, which has then seen these posts. They are legal.
    pub(crate) fn pass(&self, seat: &mut Seat<NamedPosts<J>>, posts: NamedPosts<J>)
        requires book { seat.old.book ≡ self.now }
        requires turn { seat.old.in_turn ≡ true }
        requires value { AddsAtMostOne (post_number J.config) seat.old.number seat.old.seen posts }
        ensures turn { seat.new ≡ record seat.old { in_turn = false; seen = posts; mine = seat.new.mine } }
        ensures legal { IsLegal J.config posts }
    {
        self.turns.pass(seat, posts);
    }

    /// A book with no post, and its first seat. The error means want of memory.
    pub fn new(alloc: Global, config: &Config) -> Result<(PostBook<J>, FirstSeat<J>), AllocError>
        requires { config.now ≡ J.config }
        ensures { IfOk result (λ r. r.1 ≡ record { book = r.0; seen = []; given = []; joined = [] }) }
    {
        let (turns, seat) = TurnBook::new(alloc, NamedPosts::new(alloc, config))?;
        let book = PostBook {
            alloc,
            config: *config,
            turns,
        };
        Ok((book, FirstSeat { seat }))
    }

    /// The seat of an actor, for which no seat was made before. At a liar it is of the whole node, with the actor 255. It has
    /// seen what the first seat has, and posted nothing. It takes no memory.
    pub fn seat_for(&self, first: &mut FirstSeat<J>, node: u8, actor: u8) -> SharedSeat<J>
        requires book { first.old.book ≡ self.now }
        requires known { node < J.config.n }
        requires liar { is_in J.config.liars node ≡ true → actor ≡ 255 }
        requires fresh { ¬ Contains first.old.given (seat_number node actor) }
        ensures first { first.new ≡ record first.old { given = first.old.given ++ seat_number node actor ∷ [] } }
        ensures seat { result ≡ record {
          book = self.now;
          looks = 0;
          seat = record { config = J.config; node = node; actor = actor; seen = first.old.seen };
        } }
        ensures none { mine_in J.config node actor first.old.seen ≡ [] }
    {
        let seat = self.turns.split(&mut first.seat, number_of(node, actor));
        seat.entries_are_own();
        SharedSeat {
            node,
            actor,
            seat,
            last: None,
        }
    }

    /// Takes a seat in: the first seat then knows which posts that seat has made, and has seen the longer of what both had. It
    /// takes no memory.
    pub fn join(&self, first: &mut FirstSeat<J>, seat: SharedSeat<J>)
        requires book { (first.old.book ≡ self.now) × (seat.book ≡ self.now) }
        ensures joined { first.new ≡ record first.old {
          seen = first.new.seen;
          joined = first.old.joined
              ++ (seat_number seat.seat.node seat.seat.actor, mine_in J.config seat.seat.node seat.seat.actor seat.seat.seen) ∷ [];
        } }
        ensures longer { (first.new.seen ≡ first.old.seen) ⊎ (first.new.seen ≡ seat.seat.seen) }
        ensures both { IsPrefix first.old.seen first.new.seen × IsPrefix seat.seat.seen first.new.seen }
        ensures given { Contains first.old.given (seat_number seat.seat.node seat.seat.actor) }
        ensures once { (posts : List Post) → ¬ Contains first.old.joined (seat_number seat.seat.node seat.seat.actor, posts) }
    {
        seat.seat.entries_are_own();
        let SharedSeat {
            node: _,
            actor: _,
            seat,
            last: _,
        } = seat;
        self.turns.join(&mut first.seat, seat);
    }

    /// Shows the first seat what another has seen: afterwards it has seen the longer of both. It takes no memory.
    pub fn meet(&self, first: &mut FirstSeat<J>, seat: &mut SharedSeat<J>)
        requires book { (first.old.book ≡ self.now) × (seat.old.book ≡ self.now) }
        ensures same { (first.new ≡ record first.old { seen = first.new.seen }) × (seat.new ≡ seat.old) }
        ensures longer { (first.new.seen ≡ first.old.seen) ⊎ (first.new.seen ≡ seat.old.seat.seen) }
        ensures both { IsPrefix first.old.seen first.new.seen × IsPrefix seat.old.seat.seen first.new.seen }
    {
        self.turns.meet(&mut first.seat, &mut seat.seat);
    }

    /// The history, once each seat that was made was taken in. It begins with what the first seat has seen, the posts of each
    /// seat in it are those that the first seat knows, and there are no others. It takes no memory.
    pub fn close(self, first: FirstSeat<J>) -> Vec<Post>
        requires book { first.book ≡ self }
        requires all { AllJoined first }
        ensures legal { IsLegal J.config result.items }
        ensures begins { IsPrefix first.seen result.items }
        ensures mine { (i x : ℕ) (posts : List Post) → IsPlace J.config i x → Contains first.joined (seat_number i x, posts)
            → mine_in J.config i x result.items ≡ posts }
        ensures others { All (λ post. Contains first.given (post_number J.config post)) result.items }
    {
        let PostBook {
            alloc: _,
            config: _,
            turns,
        } = self;
        let FirstSeat { seat } = first;
        turns.close(seat).into_vec()
    }
}
