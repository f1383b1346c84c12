//! Runs in any order: what holds of each schedule of starts, hearings, posts, stops and lies.
#![tactic(auto)]

pub mod laws;

pub use laws::schedule_laws;
