//! The first seat of a book.
ghost use Rattle.hb_rules.specs.History.{IsLegal};

use crate::named_posts::NamedPosts;
use crate::naming::Naming;
use std::marker::Model;
use turn_book::Seat;

/// The seat that a `PostBook` is made with. It posts nothing: it makes the others, takes them in again, and closes the book.
#[derive(Drop)]
pub struct FirstSeat<J: Naming> {
    pub(crate) seat: Seat<NamedPosts<J>>,
}

impl<J: Naming> Model for FirstSeat<J> {
    ghost use Rattle.std.specs.Prelude.{◌≡◌, false};
    ghost use Rattle.hb_rules.specs.History.{IsLegal};
    ghost use Rattle.post_book.specs.SharedSeats.{FirstView};

    ghost Value = { FirstView };

    ghost view = { λ s. record { book = s.seat.book; seen = s.seat.seen; given = s.seat.given; joined = s.seat.ended } };

    ghost invariant = { λ s. (s.seat.number ≡ 0) × (s.seat.in_turn ≡ false) × IsLegal J.config s.seat.seen };
}

impl<J: Naming> FirstSeat<J> {
    /// What it has seen is a legal history. The call does nothing; its contract tells so.
    pub fn seen_is_legal(&self)
        ensures { IsLegal J.config self.now.seen }
    {
        let _ = &self.seat;
    }
}
