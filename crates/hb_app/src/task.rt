//! What a call asks to be run.

use crate::command::Text;
use liar_cast::Liar;
use net_script::Script;

/// What is printed of a run.
#[derive(Clone, Copy, Debug, PartialEq, Eq)]
pub enum Wanted {
    /// The text that a word asks for.
    Word(Text),
    /// Whether the ledgers agree, as the run of this number tells it.
    Soaked(u64),
}

/// A run that is asked for.
#[derive(Drop)]
pub struct Task {
    /// What is printed of it.
    pub wanted: Wanted,
    /// Its scenario.
    pub script: Script,
    /// The cast of which its liars are taken, by name.
    pub cast: Vec<Box<dyn Liar>>,
}

/// How far a call comes without threads.
#[derive(Drop)]
pub enum Progress {
    /// It has ended with this status.
    Ended(u8),
    /// It asks for a run by workers, of which nothing is done yet.
    Workers(Task),
}
