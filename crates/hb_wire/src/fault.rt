//! Why bytes could not be read.

use std::alloc::AllocError;
use thiserror::Error;

/// Why [`read`](crate::read) or [`read_shared`](crate::read_shared) gave no vote.
#[derive(Debug, Drop, Error, PartialEq, Eq)]
pub enum WireFault {
    /// The bytes spell no vote among so many nodes under this version of the rules. It comes exactly then, and before
    /// any memory is asked for.
    #[error("not a message")]
    NotAMessage,
    /// The bytes spell a vote, and there was no memory for what was to be copied of it, or, under `read_shared`, the bytes have
    /// as many owners as they may.
    #[error("no memory")]
    Memory,
}
