//! A lane of a correct node, and a node that lies, that are started over a shared book and put behind their locks: a caller of
//! cells, with contracts of its own. Beside it stand the mailboxes and the pool of workers of a run on threads, and the line of
//! envelopes of a run on one thread.
#![tactic(auto)]

mod beginning;
#[cfg(test)]
mod line;
mod lying;
#[cfg(test)]
mod mailboxes;
mod marking;
mod sharing;
#[cfg(test)]
mod tests;
mod turning;
#[cfg(test)]
mod workers;

pub use beginning::begin;
pub use lying::{Echo, LiarTurns, lie_and_hear};
pub use marking::CountingGate;
pub use sharing::{SharedLane, begin_shared};
pub use turning::{Turns, first_passes, hear_a_lie};
