//! Why shards are not rebuilt.

use thiserror::Error;

/// Why shards cannot be rebuilt.
#[derive(Debug, Drop, Error)]
pub enum RsFault {
    /// Fewer shards were given than are needed.
    #[error("{have} shards are given where {need} are needed")]
    TooFew { have: u8, need: u8 },
    /// Two of the shards that are used have different lengths.
    #[error("a shard of {a} bytes and one of {b} bytes are of no one codeword")]
    Lengths { a: u32, b: u32 },
    /// No memory was left.
    #[error("out of memory")]
    Memory,
}
