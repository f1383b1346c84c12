//! A journal of votes in two halves of a disk: what was acknowledged is found again after a crash at any moment.
#![tactic(auto)]

mod device;
mod entry;
mod fault;
mod fold;
mod journal;
mod laws;
mod parse;
mod recover;
mod steps;

pub use entry::Entry;
pub use fault::JournalFault;
pub use journal::Journal;
pub use laws::{always_sound, crash_laws, usable_laws};
