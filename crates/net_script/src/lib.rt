//! Scenarios: what a run is to do, and how its posts are delivered.
#![tactic(auto)]

mod delivery;
mod script;

pub use delivery::{shape, shape_by};
pub use script::{ActorPlan, LiarAt, Link, Order, Script, Shape, Submit};
