//! Histories by hand, whose answers are by hand or by an oracle: whether their deliveries and ledgers agree, whom they accuse,
//! the texts of that, and what those say of them that judge votes. What the judge of posts says, `tools/statuses` shows by
//! audits.
//!
//! `callers` is as any user might write it, and what is proved of it stands on the contract of accuse alone.
#![tactic(auto)]

#[cfg(test)]
mod agreements;
#[cfg(test)]
mod broadcasts;
mod callers;
#[cfg(test)]
mod deliveries;
#[cfg(test)]
mod histories;
#[cfg(test)]
mod ledgers;
#[cfg(test)]
mod near_misses;
#[cfg(test)]
mod posts;
#[cfg(test)]
mod texts;
#[cfg(test)]
mod votes;

pub use callers::count_accused;
