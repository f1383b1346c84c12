//! The last deliveries of a run over any kind of shared book: when all worker threads have returned, the thread of the caller
//! delivers what is left.
#![tactic(auto)]

mod catching;
mod levels;
mod listing;
mod marking;
mod reading;
mod settling;

pub use settling::{Settled, settle};
