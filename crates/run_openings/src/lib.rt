//! What the places of a run begin with: the seat of each, made by the first seat of a shared book, and its passes to the
//! mailboxes.
//!
//! Seats and mailboxes stand in the same order, by node and then actor, and a node that lies has one of each. So the next passes
//! are those of the next seat, and since the numbers of the seats rise, no seat is made twice.
#![tactic(auto)]

mod opening;
mod openings;

pub use opening::{NodeOpening, Opening};
pub use openings::openings_of;
