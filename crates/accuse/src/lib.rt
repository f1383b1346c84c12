//! Accusations: which nodes' own posts contradict each other, told of a history alone.
#![tactic(auto)]

mod accusation;
mod accused;
mod firsts;
pub mod laws;
mod place;
mod placing;
mod saying;
mod search;

pub use accusation::Accusation;
pub use accused::accuse;
pub use laws::accuse_laws;
