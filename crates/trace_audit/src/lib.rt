//! Audits of texts: a text of a history is read, and its posts are judged one after another.
#![tactic(auto)]

mod auditing;
mod laws;

pub use auditing::audit;
pub use history_verdict::Verdict;
pub use laws::audit_laws;
pub use trace_reader::TraceFault;
