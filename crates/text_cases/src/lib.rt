//! Reports made by hand, the statuses of their nodes, their texts, and what observers take from them. Texts of histories, what is
//! read in them, and the verdicts of their audit. `tools/oracles/run` makes texts and answers: its checks run_texts, soak_texts,
//! full_texts, trace_texts, observed_posts, observed_texts and agreeing_observers. Which texts are histories, and what their
//! audits come to, `tools/statuses` shows.
//!
//! `callers` is as any user might write it, and what is proved of it stands on the contracts of ledger_text alone.
#![tactic(auto)]

#[cfg(test)]
mod audits;
mod callers;
#[cfg(test)]
mod full;
#[cfg(test)]
mod observers;
#[cfg(test)]
mod observing;
#[cfg(test)]
mod reading;
#[cfg(test)]
mod reports;
#[cfg(test)]
mod rows;
#[cfg(test)]
mod runs;
#[cfg(test)]
mod soaks;
#[cfg(test)]
mod statuses;
#[cfg(test)]
mod traces;
#[cfg(test)]
mod verdicts;

pub use callers::print_both;
