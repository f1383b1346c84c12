//! One thread with a desk's seat and a liar's, which meet.
ghost use Rattle.std.specs.Prelude.{◌≡◌};
ghost use Rattle.book_cases.specs.Run.{IsRun, empty_proposal};

use crate::crowd::desk_seat;
use crate::pair::{close_two, post_and_read};
use hb_base::Config;
use hb_rules::{Book, BookFault};
use hb_wire::{Post, To, Vote};
use post_book::{Naming, PostBook, SharedBook};
use std::alloc::{AllocError, Global};
use std::sync::Wait;

// What the two were told, which places their seats have, and the closed history.
#[derive(Drop)]
pub(crate) struct Alone {
    pub read: Result<Option<Post>, BookFault>,
    pub lie: Result<u32, BookFault>,
    pub places: [u8; 4],
    pub history: Vec<Post>,
}

// The desk of node 0 posts a vote and reads it back, and node 4 lies.
pub(crate) fn post_alone<J: Naming, R: Wait>(
    rt: &R,
    alloc: Global,
    config: &Config,
    vote: &Vote,
) -> Result<Alone, AllocError>
    requires config { config.now ≡ J.config }
    requires run { IsRun J.config }
    requires vote { vote.now ≡ empty_proposal }
{
    let (book, mut first) = PostBook::<J>::new(alloc, config)?;
    let mut desk = desk_seat(&book, &mut first, 0);
    let mut liar = book.seat_for(&mut first, 4, 255);
    let read = post_and_read(rt, &book, &mut desk, vote);
    let mut shared = SharedBook::at(rt, &book);
    shared.meet(&mut liar, &mut desk);
    let lie = shared.lie(&mut liar, 3, To::Book, b"?");
    book.meet(&mut first, &mut liar);
    let places = [desk.node(), desk.actor(), liar.node(), liar.actor()];
    let history = close_two(book, first, desk, liar);
    Ok(Alone {
        read,
        lie,
        places,
        history,
    })
}
