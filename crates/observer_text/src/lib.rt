//! The text of observers: what the run was, the ledger that each observer has taken, and the status.
#![tactic(auto)]

mod fault;
mod ledger;
mod lines;
mod text;

pub use fault::ObserveFault;
pub use text::print_observe;
