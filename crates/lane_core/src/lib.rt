//! A lane: its broadcasts and its agreements of all epochs at one node.
#![tactic(auto)]

mod actor;
mod cores;
mod lane;

pub use actor::{Lane, new_lane};
pub use lane::LaneCore;
