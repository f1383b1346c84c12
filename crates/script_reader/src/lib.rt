//! Scenarios as JSON: reads one, up to its first fault.
#![tactic(auto)]

mod entries;
mod fields;
mod liars;
mod links;
mod lists;
mod plans;
mod read;
mod stops;
mod submits;
mod top;
mod words;

pub use read::read_script;
