//! The transaction pool of a node (CCS paper, section 4.2: the buffer of transactions that wait): what was submitted and
//! is not settled, in the order in which it came.
#![tactic(auto)]

mod marks;
mod pool;
mod standings;

pub use pool::{Pool, Submitted};
