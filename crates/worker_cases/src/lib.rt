//! Runs with worker threads: what a caller may rely on, and runs with gates and liars of the tests' own. What the program prints
//! of a scenario with workers, `tools/hostile` shows.
//!
//! `callers` is as any user might write it, and what is proved of it stands on the contract of hb_app alone.
#![tactic(auto)]

#[cfg(test)]
mod boxes;
mod callers;
#[cfg(test)]
mod calls;
#[cfg(test)]
mod counting;
#[cfg(test)]
mod frames;
#[cfg(test)]
mod holding;
#[cfg(test)]
mod texts;

pub use callers::run_gated;
