//! The book as its actors see it.
ghost use Rattle.std.specs.Prelude.{◌≡◌, Ok, Some, IfSome};

use crate::book::PostBook;
use crate::naming::Naming;
use crate::seat::{Found, SharedSeat};
use hb_base::Bytes;
use hb_rules::{Book, BookFault, spell_for};
use hb_wire::{Post, To, Vote};
use std::alloc::AllocError;
use std::sync::Wait;

/// A handle of a shared book, and what waits for its turns there. Each actor may have one of its own.
#[derive(Drop)]
pub struct SharedBook<'a, R, J: Naming> {
    rt: &'a R,
    book: &'a PostBook<J>,
}

impl<'a, R, J: Naming> Clone for SharedBook<'a, R, J> {
    ghost is_clone = { λ book copy. copy ≡ book };

    fn clone(&self) -> Result<SharedBook<'a, R, J>, AllocError> {
        Ok(*self)
    }
}

impl<'a, R, J: Naming> Copy for SharedBook<'a, R, J> {}

impl<'a, R, J: Naming> SharedBook<'a, R, J> {
    /// A handle of this book. It takes no memory.
    pub fn at(rt: &'a R, book: &'a PostBook<J>) -> SharedBook<'a, R, J>
        ensures { result.book.now ≡ book.now }
    {
        SharedBook { rt, book }
    }
}

// What a seat may keep of a reading of post k: the post that was found.
fn found_at(k: u32, found: &Result<Option<Post>, AllocError>) -> Option<Found>
    ensures { IfSome result (λ kept. (kept.k ≡ k) × (found.now ≡ Ok (Some kept.post))) }
{
    match found {
        Ok(Some(post)) => match post.clone() {
            Ok(post) => Some(Found { k, post }),
            Err(_) => None,
        },
        _ => None,
    }
}

impl<'a, R: Wait, J: Naming> Book for SharedBook<'a, R, J> {
    ghost use Rattle.std.specs.Prelude.{◌<◌, refl};
    ghost use Rattle.post_book.specs.SharedLaws.{same_twice, same_for_both, looks_twice};

    type Seat = SharedSeat<J>;

    ghost config = { λ s. s.seat.config };

    ghost node = { λ s. s.seat.node };

    ghost actor = { λ s. s.seat.actor };

    ghost seen = { λ s. s.seat.seen };

    ghost knows = { λ b s. s.book ≡ b.book.now };

    ghost moved = { λ i x a b. b.book.now ≡ a.book.now };

    ghost is_whole = { λ a b s t. s.looks < t.looks };

    ghost stays = { λ i x b. refl };

    ghost goes_on = { λ i x a b c. same_twice a.book.now b.book.now c.book.now };

    ghost keeps = { λ i x a b s moved apart. same_for_both a.book.now b.book.now s.book moved };

    ghost looks = { λ a b s t whole knows. looks_twice s t whole };

    fn post(&mut self, seat: &mut SharedSeat<J>, vote: &Vote) -> Result<u32, BookFault> {
        let (node, actor) = (seat.node, seat.actor);
        let book = self.book;
        seat.last = None;
        let bytes = spell_for(book.alloc, &book.config, node, vote);
        let mut posts = book.begin(self.rt, &mut seat.seat, node, actor);
        let posted = posts.add_vote(node, actor, vote, bytes);
        book.pass(&mut seat.seat, posts);
        posted
    }

    fn lie(
        &mut self,
        seat: &mut SharedSeat<J>,
        as_actor: u8,
        to: To,
        bytes: &[u8],
    ) -> Result<u32, BookFault> {
        let book = self.book;
        seat.last = None;
        let bytes = Bytes::copy(book.alloc, bytes);
        let mut posts = book.begin(self.rt, &mut seat.seat, seat.node, seat.actor);
        let posted = posts.add_lie(seat.node, as_actor, to, bytes);
        book.pass(&mut seat.seat, posts);
        posted
    }

    fn read(&mut self, seat: &mut SharedSeat<J>, k: u32) -> Result<Option<Post>, AllocError> {
        let book = self.book;
        seat.last = None;
        let posts = book.begin(self.rt, &mut seat.seat, seat.node, seat.actor);
        let found = posts.read(k);
        book.pass(&mut seat.seat, posts);
        seat.last = found_at(k, &found);
        found
    }

    fn reread(&mut self, seat: &mut SharedSeat<J>, k: u32) -> Result<Option<Post>, AllocError> {
        match seat.last.take() {
            Some(found) if found.k == k => Ok(Some(found.post)),
            _ => self.read(seat, k),
        }
    }

    fn posts(&mut self, seat: &mut SharedSeat<J>) -> u32 {
        let book = self.book;
        seat.last = None;
        let posts = book.begin(self.rt, &mut seat.seat, seat.node, seat.actor);
        let count = posts.count();
        book.pass(&mut seat.seat, posts);
        count
    }

    fn meet(&mut self, seat: &mut SharedSeat<J>, other: &mut SharedSeat<J>) {
        let book = self.book;
        seat.last = None;
        seat.seat.entries_are_own();
        book.turns.meet(&mut seat.seat, &mut other.seat);
        seat.seat.entries_are_own();
    }
}
