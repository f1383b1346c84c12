//! The whole run of a scenario on one thread: the actors of all correct nodes over their disks, the liars that a cast has for
//! the others, and how the run ends.
#![tactic(auto)]

mod actors;
mod disks;
mod node_core;
mod run;
mod submissions;
mod team;
mod voice;

pub use actors::{NodeActor, desk_of, lane_of};
pub use node_core::NodeCore;
pub use run::run_script;
pub use team::voice_at;
pub use voice::{Voice, hire};
