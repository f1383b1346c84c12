//! A plain book in use, and seats of a shared book: two that post once, on one thread and on two; four that post a thousand times
//! each, each on a thread of its own, and a liar's seat beside them.
//!
//! `pair` is a caller that any user might write, and what is proved of it holds for every schedule.
#![tactic(auto)]

mod alone;
mod crowd;
mod expected;
mod pair;
#[cfg(test)]
mod plain;
mod seating;
#[cfg(test)]
mod tests;

pub use crowd::desk_seat;
pub use expected::{five_nodes, proposal};
pub use pair::post_once;
pub use seating::{close_all, take_in};
