//! Seats are taken in.
ghost use Rattle.std.specs.Prelude.{◌≡◌, length, All};
ghost use Rattle.run_closing.specs.Joining.{seats_in, HasJoined, HasClosedWith};

use hb_wire::Post;
use post_book::{FirstSeat, Naming, PostBook, SharedSeat};

/// Takes in seats, in their order. It takes no memory.
pub fn join_all<K: Naming>(book: &PostBook<K>, first: &mut FirstSeat<K>, seats: Vec<SharedSeat<K>>)
    requires book { first.old.book ≡ book.now }
    requires seats { All (λ seat. seat.book ≡ book.now) seats.items }
    ensures { HasJoined K.config (seats_in seats.items) first.old first.new }
{
    for seat in seats {
        book.join(first, seat);
    }
}

/// Takes in as many seats as were made, and closes the book. So these are all: each was made by this first seat, and none is
/// taken in twice. It takes no memory.
pub fn close_with<K: Naming>(
    book: PostBook<K>,
    first: FirstSeat<K>,
    seats: Vec<SharedSeat<K>>,
) -> Vec<Post>
    requires book { first.book ≡ book }
    requires seats { All (λ seat. seat.book ≡ book) seats.items }
    requires all { length seats.items ≡ length first.given }
    ensures { HasClosedWith K.config (seats_in seats.items) first result.items }
{
    let mut first = first;
    join_all(&book, &mut first, seats);
    book.close(first)
}
