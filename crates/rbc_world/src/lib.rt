//! The reliable broadcast in histories of whole runs: what holds in each, whatever its liars post.
#![tactic(auto)]

mod agreed;
mod claims;
mod entries;
pub mod laws;
mod proposed;

pub use agreed::delivered_agree;
pub use laws::{broadcast_laws, root_laws};
