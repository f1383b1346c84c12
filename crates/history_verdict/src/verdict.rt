//! The type of what an audit answers.

/// Whether a history is legal, with the number of its posts, or else the number of its first post that may not follow those
/// before it. Posts are numbered from 0 on.
#[derive(Clone, Copy, Debug, PartialEq, Eq)]
pub enum Verdict {
    Legal { posts: u32 },
    Illegal { post: u32 },
}
