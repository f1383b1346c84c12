//! The status that a run comes to.
#![tactic(auto)]

mod closings;
mod outcome;
mod spent;

pub use outcome::status;
