//! What the places of a run begin with.

use actor_cell::Passes;

/// What an actor of a correct node, or a node that lies, begins with.
#[derive(Drop)]
pub struct Opening<S> {
    /// Its node.
    pub node: u8,
    /// Its number. That of a node that lies is 255.
    pub actor: u8,
    /// Its seat.
    pub seat: S,
    /// Its mailbox, and its passes to those of the others.
    pub passes: Passes,
}

/// What a node begins with.
#[derive(Drop)]
pub enum NodeOpening<S> {
    /// Its actors, where it is correct.
    Correct(Vec<Opening<S>>),
    /// The whole node, where it lies.
    Lying(Opening<S>),
}
