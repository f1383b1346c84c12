//! The team of a run on threads: the actors and the nodes that lie are started, put behind locks, and taken out of them again.
//!
//! What comes out of a lock does not tell whose it is. So the actors that come out are put in the order of their nodes and
//! numbers, and of each it is known that it goes by the script and that its seat is of the book; that none is missing, their
//! count and the joins tell.
#![tactic(auto)]

mod returning;
mod starting;

pub use returning::{Returned, take_out};
pub use starting::begin_all;
