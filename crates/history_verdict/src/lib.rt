//! Audits: whether the posts of a history are legal, and if not, which is the first that may not follow those before it.
#![tactic(auto)]

mod audit;
mod judge;
mod laws;
mod verdict;

pub use audit::judge_all;
pub use judge::Judge;
pub use laws::verdict_laws;
pub use verdict::Verdict;
