//! The seat of an actor.
ghost use Rattle.std.specs.Prelude.{◌≡◌};
ghost use Rattle.hb_rules.specs.History.{IsLegal};

use crate::named_posts::NamedPosts;
use crate::naming::Naming;
use hb_wire::Post;
use std::marker::Model;
use turn_book::Seat;

/// A seat of a `PostBook`: that of an actor, and at a liar's node that of the whole node, with the actor 255. It keeps the post
/// that its last call has read, which shares the bytes of the one in the book. Clauses see which book it is of, how often it was
/// shown the whole history, and what it knows.
#[derive(Drop)]
pub struct SharedSeat<J: Naming> {
    pub(crate) node: u8,
    pub(crate) actor: u8,
    pub(crate) seat: Seat<NamedPosts<J>>,
    pub(crate) last: Option<Found>,
}

/// A post that was read, and its number.
#[derive(Drop)]
pub(crate) struct Found {
    pub(crate) k: u32,
    pub(crate) post: Post,
}

impl<J: Naming> Model for SharedSeat<J> {
    ghost use Rattle.std.specs.Prelude.{◌≡◌, ◌<◌, false};
    ghost use Rattle.hb_rules.specs.History.{IsLegal};
    ghost use Rattle.post_book.specs.Numbering.{IsPlace, seat_number};
    ghost use Rattle.post_book.specs.SharedSeats.{SharedView, IsFound};

    ghost Value = { SharedView };

    ghost view = { λ s. record {
      book = s.seat.book;
      looks = s.seat.looks;
      seat = record { config = J.config; node = s.node; actor = s.actor; seen = s.seat.seen };
    } };

    ghost invariant = { λ s. (s.seat.number ≡ seat_number s.node s.actor) × (s.seat.in_turn ≡ false)
        × (s.node < J.config.n) × IsPlace J.config s.node s.actor × IsLegal J.config s.seat.seen × IsFound J.config s.seat.seen s.last };
}

impl<J: Naming> SharedSeat<J> {
    /// The node that it is for.
    pub fn node(&self) -> u8
        ensures { result ≡ self.now.seat.node }
    {
        self.node
    }

    /// The actor that it is for, and 255 where its node lies: then it is for the whole node.
    pub fn actor(&self) -> u8
        ensures { result ≡ self.now.seat.actor }
    {
        self.actor
    }

    /// What it has seen is a legal history. The call does nothing; its contract tells so.
    pub fn seen_is_legal(&self)
        ensures { IsLegal self.now.seat.config self.now.seat.seen }
    {
        let _ = &self.seat;
    }
}
