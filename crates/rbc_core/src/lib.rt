//! The reliable broadcast of one lane and one epoch at one node (CCS 2016, figure 2): a state that hears votes, counts
//! them root by root, and says which votes become due.
#![tactic(auto)]

mod answer;
mod checking;
mod rbc;
mod root_state;
mod roots;

pub use answer::Check;
pub use checking::{check, tree_over, value_through};
pub use rbc::Rbc;
