//! The common subset of one epoch at one node (CCS 2016, figure 4): a state that hears what the node's lanes decide and
//! deliver, says when no more lanes are wanted, and gives the list with which the epoch is closed.
#![tactic(auto)]

mod acs;
mod shown;

pub use acs::{Acs, subset_laws};
