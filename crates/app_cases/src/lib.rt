//! Calls of the program over memory: what callers are told, what it leaves of its report, and runs with liars and a gate of the
//! tests' own. What the program prints, `tools/scenarios`, `tools/statuses` and `tools/hostile` show.
//!
//! `callers` is as any user might write it, and what is proved of it stands on the contracts of hb_app and trace_audit alone.
//! Tests of runs on threads use the rest that is public: `counting` has a gate, and `false_frame` and `flooding` have liars.
#![tactic(auto)]

#[cfg(test)]
mod auditing;
mod callers;
#[cfg(test)]
mod calls;
mod counting;
#[cfg(test)]
mod entries;
mod false_frame;
mod flooding;
#[cfg(test)]
mod four;
#[cfg(test)]
mod liars;
#[cfg(test)]
mod lies;
#[cfg(test)]
mod quiet;
#[cfg(test)]
mod runs;
#[cfg(test)]
mod streams;

pub use callers::{run_bytes, trace_and_audit};
pub use counting::CountingGate;
pub use false_frame::FalseFrame;
pub use flooding::Flooding;
