//! One place to which posts are delivered.

ghost use Rattle.std.specs.Prelude.{◌≡◌, true, false, length};
ghost use Rattle.hb_rules.specs.Book.{IsSeatOf};
ghost use Rattle.hb_wire.specs.Addresses.{reaches};
ghost use Rattle.step_driver.specs.Places.{spot_of, seat_of};
ghost use Rattle.step_driver.specs.Delivering.{IsSpot, Serves, IsReachedBy};

use crate::coming::reaches_node;
use crate::hired::{Hired, Mouth};
use crate::player::Player;
use hb_base::{Config, Gate};
use hb_rules::{Actor, PlainBook};
use hb_wire::{Post, reaches};
use net_script::Script;
use std::alloc::Global;

/// A place to which posts are delivered.
#[derive(Drop)]
pub enum Place<A, L> {
    /// An actor of a correct node.
    Correct(Player<A>),
    /// A node that lies.
    Lying(Hired<L>),
}

impl<A: Actor<PlainBook>, L: Mouth> Place<A, L> {
    // Starts what is here. Where an actor was restarted, it answers how many posts stood before the restart that succeeded.
    pub(crate) fn start(
        &mut self,
        alloc: Global,
        script: &Script,
        book: &mut PlainBook,
    ) -> Option<u32>
        requires seat { IsSeatOf book.old (seat_of (spot_of A.seat A.view self.old)) }
        requires spot { IsSpot book.old.config script.now false (spot_of A.seat A.view self.old) }
        ensures { Serves script.now (length book.new.posts) book.old book.new (spot_of A.seat A.view self.old) (spot_of A.seat A.view self.new) result }
    {
        match self {
            Place::Correct(player) => player.start(alloc, script, book),
            Place::Lying(hired) => {
                hired.start(alloc, book);
                None
            }
        }
    }

    // Delivers post k, if it comes here. The answer is that of `start`.
    pub(crate) fn hear(
        &mut self,
        alloc: Global,
        script: &Script,
        book: &mut PlainBook,
        k: u32,
    ) -> Option<u32>
        requires seat { IsSeatOf book.old (seat_of (spot_of A.seat A.view self.old)) }
        requires spot { IsSpot book.old.config script.now true (spot_of A.seat A.view self.old) }
        ensures { Serves script.now k book.old book.new (spot_of A.seat A.view self.old) (spot_of A.seat A.view self.new) result }
    {
        match self {
            Place::Correct(player) => player.hear(alloc, script, book, k),
            Place::Lying(hired) => {
                hired.hear(alloc, script, book, k);
                None
            }
        }
    }

    // Enters a gate as what is here. A node that lies enters as actor 255.
    pub(crate) fn enter<G: Gate>(&self, gate: &G) {
        match self {
            Place::Correct(player) => gate.enter(player.node(), player.actor()),
            Place::Lying(hired) => gate.enter(hired.node(), 255),
        }
    }

    // The node whose place it is.
    pub(crate) fn node(&self) -> u8
        ensures { result ≡ (seat_of (spot_of A.seat A.view self.now)).node }
    {
        match self {
            Place::Correct(player) => player.node(),
            Place::Lying(hired) => hired.node(),
        }
    }

    // Whether a post reaches the actor that is here, or an actor of the node that lies.
    pub(crate) fn is_reached(&self, config: &Config, post: &Post) -> bool
        ensures { IsReachedBy config.now post.now (spot_of A.seat A.view self.now) result }
    {
        match self {
            Place::Correct(player) => reaches(config.n(), post, player.node(), player.actor()),
            Place::Lying(hired) => reaches_node(config, post, hired.node()),
        }
    }
}
