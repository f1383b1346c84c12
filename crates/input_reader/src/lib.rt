//! Input that is read to its end, as long as it is not longer than it may be.
#![tactic(auto)]

mod input;

pub use input::{Input, read_input};
