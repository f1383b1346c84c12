//! Seats that are taken in again.
ghost use Rattle.std.specs.Prelude.{◌≡◌, ℕ, List, [], ◌∷◌, ◌++◌, All, Contains};
ghost use Rattle.hb_wire.specs.declared.post.Post.{Post};
ghost use Rattle.hb_rules.specs.Book.{mine_in};
ghost use Rattle.hb_rules.specs.History.{IsLegal};
ghost use Rattle.hb_rules.specs.Ledger.{IsPrefix};
ghost use Rattle.post_book.specs.Numbering.{IsPlace, seat_number, post_number};
ghost use Rattle.book_cases.specs.Seating.{AreOut};

use hb_wire::Post;
use post_book::{FirstSeat, Naming, PostBook, SharedSeat};

/// Takes in a seat that was out.
pub fn take_in<J: Naming>(book: &PostBook<J>, first: &mut FirstSeat<J>, seat: SharedSeat<J>)
    requires book { (first.old.book ≡ book.now) × (seat.book ≡ book.now) }
    ensures joined { first.new ≡ record first.old {
      seen = first.new.seen;
      joined = first.old.joined
          ++ (seat_number seat.seat.node seat.seat.actor, mine_in J.config seat.seat.node seat.seat.actor seat.seat.seen) ∷ [];
    } }
    ensures both { IsPrefix first.old.seen first.new.seen × IsPrefix seat.seat.seen first.new.seen }
    ensures out { (out : List ℕ) → AreOut first.old (seat_number seat.seat.node seat.seat.actor ∷ out) → AreOut first.new out }
{
    book.join(first, seat);
}

/// Closes a book of which no seat is out.
pub fn close_all<J: Naming>(book: PostBook<J>, first: FirstSeat<J>) -> Vec<Post>
    requires book { first.book ≡ book }
    requires none { AreOut first [] }
    ensures legal { IsLegal J.config result.items }
    ensures begins { IsPrefix first.seen result.items }
    ensures mine { (i x : ℕ) (posts : List Post) → IsPlace J.config i x → Contains first.joined (seat_number i x, posts)
        → mine_in J.config i x result.items ≡ posts }
    ensures others { All (λ post. Contains first.given (post_number J.config post)) result.items }
{
    book.close(first)
}
