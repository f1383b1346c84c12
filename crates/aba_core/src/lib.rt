//! The binary agreement of one lane and one epoch at one node (after Mostéfaoui, Moumen and Raynal, PODC 2014): a state
//! that hears votes, counts them round by round, and says which votes become due.
#![tactic(auto)]

mod aba;
mod bits;
mod choosing;
mod levels;
mod marks;
mod noting;
mod passing;
mod round;
mod rounds;
mod tables;
mod voters;

pub use aba::Aba;
