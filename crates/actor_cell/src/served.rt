//! What a turn of an actor did.

/// What a turn of an actor did.
#[derive(Clone, Copy, Debug, PartialEq, Eq)]
pub enum Served {
    /// Nothing: its mailbox gave no number in this turn, and nothing is held back.
    Idle,
    /// It took one number, and heard its post, threw it away, or ended since there was no memory for it.
    Did,
    /// Nothing: the actor had ended before.
    Ended,
}
