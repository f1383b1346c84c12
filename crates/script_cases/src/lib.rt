//! Scenarios by hand: the lines that tell why texts are none, and what is read of those that are. Beside them some that are
//! generated.
//!
//! `callers` is as any user might write it, and what is proved of it stands on the contracts of script_reader and net_script
//! alone.
#![tactic(auto)]

mod callers;
#[cfg(test)]
mod generated;
#[cfg(test)]
mod rows;
#[cfg(test)]
mod tests;

pub use callers::read_copy;
