//! A disk of two halves as a journal sees it: what a read gives, and what a crash at any moment may leave.
#![tactic(auto)]

mod area;
mod disk;
mod halves;
mod memory;
mod met;
mod past;
mod plan;
mod span;
mod undo;

pub use disk::{Disk, DiskFault, Half, Power};
pub use memory::MemoryDisk;
pub use plan::{Leave, Note, Plan, Stop};
