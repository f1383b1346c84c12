//! Votes and batches against bytes that were put together by hand from the table of formats. Tables are texts, a row a
//! line. Beside them what votes are made of: bytes, limits and node sets of hb_base, and Merkle trees.
//!
//! `callers` is as any user might write it, and what is proved of it stands on the contracts of hb_wire alone.
#![tactic(auto)]

#[cfg(test)]
mod addresses;
#[cfg(test)]
mod base;
#[cfg(test)]
mod batches;
#[cfg(test)]
mod bounds;
mod callers;
#[cfg(test)]
mod malformed;
#[cfg(test)]
mod post_bytes;
#[cfg(test)]
mod probes;
#[cfg(test)]
mod spellings;
#[cfg(test)]
mod trees;

pub use callers::{deliver, hear, propose, ready, show};
