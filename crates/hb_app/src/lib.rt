//! The program `hb_ledger` over any input and output: what it is asked for, what it reads, the run, and what it prints.
#![tactic(auto)]

mod alone;
mod auditing;
mod command;
mod printing;
mod reading;
mod running;
mod task;
mod telling;
mod top;

pub use alone::hb_alone;
pub use command::Text;
pub use task::{Progress, Task, Wanted};
pub use telling::NO_MEMORY;
pub use top::hb_main;
