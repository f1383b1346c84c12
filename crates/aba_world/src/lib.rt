//! The binary agreement in histories of whole runs: what holds in each, whatever its liars post.
#![tactic(auto)]

mod agreed;
pub mod laws;
mod marks;

pub use agreed::decided_agree;
pub use laws::{agreement_laws, round_laws};
