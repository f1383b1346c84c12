//! Why bytes are no scenario: the faults, the places that they name, and the line that tells each.
#![tactic(auto)]

mod fault;
mod line;
mod place;
mod write;

pub use fault::ScriptFault;
pub use line::Line;
pub use place::{KeyName, ListName, Place, Spot};
pub use write::{put_hex, write_fault};
