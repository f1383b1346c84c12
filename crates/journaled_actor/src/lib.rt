//! An actor over its journal: it keeps each vote in the journal before it posts it, and goes on from the journal after a
//! loss of power. What it has to cast a core says, of a lane or of a desk.
#![tactic(auto)]

mod actor;
mod beginning;
mod casting;
pub mod cores;
mod payload;
mod posting;
mod reading;
mod recording;
mod stepping;

pub use actor::JournaledActor;
pub use cores::Core;
