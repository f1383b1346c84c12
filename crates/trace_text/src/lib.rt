//! The text of a history: each post, in order, as it can be read again.
#![tactic(auto)]

mod lines;
mod text;

pub use text::print_trace;
