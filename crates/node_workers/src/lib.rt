//! Worker threads that serve the actors of a run, each those of one node.
#![tactic(auto)]

mod crew;
mod node;
mod pool;
mod worker;

pub use node::{Node, run_nodes};
pub use pool::serve_all;
