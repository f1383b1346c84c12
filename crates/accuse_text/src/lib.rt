//! The text of accusations: what the run was, each accused node with the numbers of two posts, and the status.
#![tactic(auto)]

mod lines;
mod text;

pub use text::print_accuse;
