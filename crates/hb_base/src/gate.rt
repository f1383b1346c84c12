//! A gate before each delivery, which a test may close.

/// What a run enters before each delivery. A worker enters it under the lock of whom the delivery is for. It promises
/// nothing: a test may hold a thread there, to make a schedule happen.
pub trait Gate: Sync {
    /// Enters as this actor of this node, and as actor 255 of a node that lies.
    fn enter(&self, node: u8, actor: u8);
}

/// A gate that lets everybody through at once.
#[derive(Clone, Copy, Debug, PartialEq, Eq)]
pub struct OpenGate;

impl Gate for OpenGate {
    fn enter(&self, _node: u8, _actor: u8) {}
}
