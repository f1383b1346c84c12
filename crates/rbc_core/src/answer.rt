//! The answer of a check of shards.
use hb_base::Bytes;

/// What the shards of a codeword show.
#[derive(Debug, Drop)]
pub enum Check {
    /// The tree over them has the root. This is the value that they carry.
    Good(Bytes),
    /// The tree over them has another root.
    OtherRoot { found: [u8; 32] },
}
