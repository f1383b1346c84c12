//! Generated runs: what a caller may rely on. The first of them `tools/hostile` runs.
//!
//! `callers` is as any user might write it, and what is proved of it stands on the contract of hb_app alone.
#![tactic(auto)]

mod callers;

pub use callers::soak;
