//! The type of what a glance gives.

/// The kind and the epoch of a vote, which are its first two bytes, and the bytes behind them.
#[derive(Clone, Copy, Debug, PartialEq, Eq)]
pub struct Glance<'a> {
    pub kind: u8,
    pub epoch: u8,
    pub rest: &'a [u8],
}
