//! The whole run of a scenario on threads: a book that threads share, a seat and passes to the mailboxes for each place, the run
//! of the team over them, and the report.
//!
//! When all workers have returned, nothing that they did is counted on: what was given away is counted again when all seats are
//! taken in and the book is closed.
#![tactic(auto)]

mod playing;
mod run;

pub use run::run_on_threads;
