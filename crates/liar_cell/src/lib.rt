//! Nodes that lie, among threads.
#![tactic(auto)]

mod arrival;
mod cell;
mod held;

pub use cell::LiarCell;
pub use held::HeldLiar;
