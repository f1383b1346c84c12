//! The binary agreement in calm runs: how its rounds end.
#![tactic(auto)]

pub mod laws;

pub use laws::progress_laws;
