//! A post that is under way.

/// A post that is under way to a place.
#[derive(Clone, Copy, Debug, PartialEq, Eq)]
pub struct Envelope {
    /// The number of the post.
    pub post: u32,
    /// The index of the place.
    pub place: usize,
}
