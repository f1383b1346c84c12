//! The core of a desk (CCS 2016, figures 3 and 4): what an actor over its journal asks of a desk, by its state of all
//! epochs.
#![tactic(auto)]

mod actor;
mod desk;

pub use actor::{Desk, new_desk};
pub use desk::DeskCore;
