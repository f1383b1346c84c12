//! What a value in a turn book stands for.
ghost use Rattle.std.specs.Prelude.{ℕ, List};

/// A value that stands for a list of entries, its history. Both ghost members may forget what callers need not see.
pub trait History {
    /// One entry of the history.
    type Entry;

    /// The entries, in the order in which they were added.
    ghost entries: { Self → List Self.Entry };

    /// The number that an entry names: that of the seat whose turn added it.
    ghost names: { Self.Entry → ℕ };
}
