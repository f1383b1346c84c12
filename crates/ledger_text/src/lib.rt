//! The text of a run: the nodes, the ledgers of the correct ones, and the status; that of any ledger; and that of a generated
//! run.
#![tactic(auto)]

pub mod laws;
mod ledger;
mod lines;
mod lists;
mod nodes;
mod search;
mod seen;
mod text;

pub use laws::{ledger_laws, soak_laws};
pub use ledger::put_ledger;
pub use lines::{add_count, put_end, put_numbers, put_status};
pub use lists::Ledger;
pub use text::{print_run, print_soak};
