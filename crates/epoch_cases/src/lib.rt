//! What a desk proposes first, what comes of one epoch, and what a desk casts over several, in whole runs. Beside it what all
//! actors use, room for votes and numbers, and what a desk alone uses, the pool of transactions.
//!
//! `callers` is as any user might write it, and what is proved of it stands on the contracts of epoch_core alone.
#![tactic(auto)]

mod callers;
#[cfg(test)]
mod cases;
#[cfg(test)]
mod desks;
#[cfg(test)]
mod many;
#[cfg(test)]
mod pools;
#[cfg(test)]
mod room;
#[cfg(test)]
mod subsets;
#[cfg(test)]
mod tests;
#[cfg(test)]
mod texts;

pub use callers::hear_two;
