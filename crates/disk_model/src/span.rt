//! A range of bytes.

/// The bytes from an offset on, so many.
#[derive(Clone, Copy, Debug, PartialEq, Eq)]
pub struct Span {
    pub at: usize,
    pub len: usize,
}
