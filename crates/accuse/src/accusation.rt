//! The type of what is told of a node.

/// Two posts of one actor of a node whose votes contradict each other, by their numbers in the history, from 0 on: the first
/// post of the node that contradicts an earlier one is `second`, and the first of those that it contradicts is `first`.
#[derive(Clone, Copy, Debug, PartialEq, Eq)]
pub struct Accusation {
    pub node: u8,
    pub first: u32,
    pub second: u32,
}
