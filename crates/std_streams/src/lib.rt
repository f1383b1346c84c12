//! The streams of a process as the source and the sinks of a program: a reader as a source, and a writer as a sink.
#![tactic(auto)]

mod streams;

pub use streams::{Reading, Writing};
