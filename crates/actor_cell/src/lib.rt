//! Actors among threads: the mailboxes between them, the passes to these, and what lies under the lock of an actor: a turn takes
//! one number at most.
#![tactic(auto)]

mod arrival;
mod boxes;
mod cell;
mod hearing;
mod held;
mod mail;
mod marks;
mod passes;
mod run_name;
mod sending;
mod served;

pub use arrival::{Arrival, arrival_found, by_lateness};
pub use boxes::Boxes;
pub use cell::Cell;
pub use hearing::{hear, look, recover, start};
pub use held::Held;
pub use mail::Mail;
pub use marks::Marks;
pub use passes::Passes;
pub use run_name::RunName;
pub use sending::send_all;
pub use served::Served;
