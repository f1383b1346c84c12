//! Books that have a name.
ghost use Rattle.std.specs.Prelude.{◌≡◌, ℕ};
ghost use Rattle.atomic_table.specs.Seated.{TableId};

use crate::naming::Naming;
use crate::shared_book::SharedBook;
use hb_rules::Book;
use std::sync::Wait;

/// A book of which there may be several handles: those with one name are of one book. Nothing but its type tells of a value that
/// comes out of a lock, so who puts a handle there names the book by a type.
pub trait NamedBook: Book {
    ghost name: { Self → TableId };

    /// A book keeps its name through the calls of a seat.
    ghost stays_named: { (i x : ℕ) (a b : Self) → Self.moved i x a b → name b ≡ name a };

    /// A seat of one handle is of the others too.
    ghost by_name: { (a b : Self) (s : Self.Seat) → name b ≡ name a → Self.knows a s → Self.knows b s };
}

impl<'a, R: Wait, J: Naming> NamedBook for SharedBook<'a, R, J> {
    ghost use Rattle.post_book.specs.SharedLaws.{same_for_both};

    ghost name = { λ b. b.book.now };

    ghost stays_named = { λ i x a b moved. moved };

    ghost by_name = { λ a b s name. same_for_both a.book.now b.book.now s.book name };
}
