//! The driver of one thread: it delivers posts to actors one after another, in a stated order, until nothing is left to do.
#![tactic(auto)]

mod block;
mod coming;
mod directory;
mod ends;
mod envelope;
mod hired;
mod line;
mod place;
mod player;
mod queue;
mod run;
mod sending;

pub use coming::{comes_found, comes_to, reaches_node};
pub use ends::end_of;
pub use envelope::Envelope;
pub use hired::{Hired, Mouth, listen, tell};
pub use line::Line;
pub use place::Place;
pub use player::{Player, fate_of, is_running, may_restart};
pub use run::{Done, run_steps};
