//! Quiet runs: what holds of each report of a run that was left with nothing to do.
#![tactic(auto)]

pub mod laws;

pub use laws::{calm_laws, quiet_laws};
