/// How much of a vote's byte strings is shown.
#[derive(Clone, Copy, Debug, PartialEq, Eq)]
pub enum Detail {
    /// Of a root, a salt or a digest its first four bytes, and of a shard or a value its length.
    Brief,
    /// All bytes.
    Full,
}
