//! Broadcasts, binary agreements and lanes in small runs. The roots of broadcasts and the votes of agreements and lanes are those
//! of oracles that go by the definitions: `tools/oracles/run broadcast_roots`, `alone`, `fronts`, `lanes`, and four `splits`. The
//! votes of broadcasts are by the numbers of the rules. Beside them histories of which it was worked out by hand whether their
//! agreements agree.
//!
//! `callers` is as any user might write it, and what is proved of it stands on the contracts of aba_core alone.
#![tactic(auto)]

#[cfg(test)]
mod again;
#[cfg(test)]
mod alone;
#[cfg(test)]
mod broadcast_orders;
#[cfg(test)]
mod broadcasts;
mod callers;
#[cfg(test)]
mod calls;
#[cfg(test)]
mod histories;
#[cfg(test)]
mod lanes;
#[cfg(test)]
mod node;
#[cfg(test)]
mod splits;
#[cfg(test)]
mod text;
#[cfg(test)]
mod world;

pub use callers::{begin, first_decision, hear, is_heard};
