//! Disks in memory, and journals on them, that are stopped at each device call or fail once at it.
//!
//! `callers` and `stopped` are as any user might write them. What is proved of them stands on the contracts of vote_journal
//! and of disk_model alone.
#![tactic(auto)]

mod callers;
#[cfg(test)]
mod disks;
mod stopped;
#[cfg(test)]
mod tests;

pub use callers::append_two;
pub use stopped::read_after_stop;
