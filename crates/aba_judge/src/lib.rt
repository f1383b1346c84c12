//! Whether a lane may cast a vote in the binary agreement of an epoch, by what it has cast and what it has heard.
#![tactic(auto)]

mod agreement;
mod claims;
mod coins;
mod marks;
mod place;
mod rows;

pub use agreement::may_agree;
pub use place::Place;
