//! The book of posts that threads share: the posts of hb_rules as the value in a turn book.
//!
//! Its history is legal at every moment, whichever threads post beside one another. Each actor has a seat of its own; what a seat
//! has seen begins the history, and has all posts of that seat. A call that asks the book waits for its turn, and within the turn
//! it only looks, or adds a post whose bytes are made already: the one thing that may ask for memory there is the list of posts,
//! where it grows.
#![tactic(auto)]

mod book;
mod first_seat;
mod named_book;
mod named_posts;
mod naming;
mod seat;
mod shared_book;

pub use book::PostBook;
pub use first_seat::FirstSeat;
pub use named_book::NamedBook;
pub use naming::Naming;
pub use seat::SharedSeat;
pub use shared_book::SharedBook;
