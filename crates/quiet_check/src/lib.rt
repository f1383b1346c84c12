//! Whether a report is quiet: whether nothing is left to do in the run that it reports.
#![tactic(auto)]

mod agreement;
mod broadcast;
mod desks;
mod ends;
mod lanes;
mod place;
mod quiet;
mod receipts;
mod votes;

pub use quiet::is_quiet;
