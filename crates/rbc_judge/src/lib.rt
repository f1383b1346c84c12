//! Whether a lane may cast a vote in the reliable broadcast of an epoch, by what it has cast and what it has heard.
#![tactic(auto)]

mod broadcast;
mod claims;
mod delivering;
mod known;
mod lane;
mod sending;
mod shards;

pub use broadcast::may_broadcast;
pub use known::Known;
pub use lane::Lane;
