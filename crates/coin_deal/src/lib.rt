//! The dealt coins: what a trusted dealer draws before a run, so that each common coin of the run's agreements
//! (CCS 2016) is a secret shared among the nodes (Shamir, How to Share a Secret, CACM 1979). The coins come from
//! the key stream of ChaCha20 (RFC 8439), with the seed of the run as its key.
#![tactic(auto)]

mod dealing;
mod dealt;
mod kept;
mod laws;
mod leaves;
mod others;
mod words;

pub use dealing::deal;
pub use dealt::{Deal, DealtShare};
pub use laws::{coin_laws, share_laws, sharing_laws};
pub use leaves::leaf_of;
pub use others::{NodeShare, others_fit};
