//! The common subsets and the ledgers in histories of whole runs: what holds in each, whatever its liars post.
#![tactic(auto)]

mod batches;
mod closings;
mod common;
mod comparing;
mod firsts;
pub mod laws;
mod ledger_finder;
mod lists;
mod proposed;

pub use batches::batches_ok;
pub use closings::{Closing, count_of};
pub use common::common_epochs;
pub use comparing::comparable;
pub use laws::ledger_laws;
pub use ledger_finder::LedgerFinder;
pub use proposed::unaltered;
