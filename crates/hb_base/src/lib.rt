//! What all crates of the ledger speak of: the numbers of a run and their limits, sets of nodes, byte strings, the
//! names of liars, and the world outside as traits (a source of input, a sink of output, a gate that tests may close).
#![tactic(auto)]

pub mod bytes;
pub mod config;
pub mod gate;
pub mod liar_name;
pub mod limits;
pub mod memory;
pub mod node_set;
pub mod outside;

pub use bytes::Bytes;
pub use config::Config;
pub use gate::{Gate, OpenGate};
pub use liar_name::LiarName;
pub use memory::{MemorySink, MemorySource};
pub use node_set::NodeSet;
pub use outside::{Failed, Sink, Source};
