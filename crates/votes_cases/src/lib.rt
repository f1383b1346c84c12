//! A caller of votes_app, and its tests: histories by hand, whose words were written beside their bytes; texts that break the
//! form; and sources and sinks that fail.
//!
//! `in_words` is as any user might write it, and what is proved of it stands on the contract of votes_app alone.
#![tactic(auto)]

mod callers;
#[cfg(test)]
mod faults;
#[cfg(test)]
mod rows;
#[cfg(test)]
mod words;

pub use callers::in_words;
