//! A lock round a value that stands for a list of entries, its history: the mutex of three states of Drepper, Futexes Are Tricky
//! (2011).
//!
//! Threads take turns in no set order: one that runs may take its next turn before one that sleeps. Each turn adds at most one
//! entry, which names the number of the seat whose turn it is. A seat is a token of no bytes: it knows a beginning of the
//! history, and all entries of its own number in it. So what a thread has seen stands in the history for ever, and what it added
//! stands there once, however many threads take turns beside it.
//!
//! Nothing is promised of progress: no clause says that a turn comes, or when. A seat that is dropped in its turn keeps the lock,
//! and each later `begin` waits for ever.
#![tactic(auto)]

mod book;
mod history;
mod notes;
mod plays;
mod seat;
mod steps;
#[cfg(test)]
mod tests;
mod view;

pub use book::TurnBook;
pub use history::History;
pub use seat::Seat;
