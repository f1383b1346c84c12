//! Calm runs, and what lanes have heard in them.
#![tactic(auto)]

pub mod laws;

pub use laws::lane_laws;
