//! What an audit says: the line of its verdict, and the line that tells why a text is not audited.
#![tactic(auto)]

mod refusal;
mod verdict;

pub use refusal::write_refusal;
pub use verdict::print_verdict;
