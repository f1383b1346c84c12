//! How a liar of one's own hears and speaks: the vote that a post spells and the lane in which it is heard, and lies of any bytes
//! or of a vote.
#![tactic(auto)]

mod speech;

pub use speech::{Hushed, heard_vote, tell, tell_vote};
