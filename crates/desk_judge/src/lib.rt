//! Whether a desk may cast a vote, by what it has cast and what it has heard.
#![tactic(auto)]

mod accepted;
mod desk;
mod heard;

pub use desk::may_at_desk;
