//! The reliable broadcast in calm runs: which nodes deliver.
#![tactic(auto)]

pub mod laws;

pub use laws::delivery_laws;
