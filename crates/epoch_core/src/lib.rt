//! All epochs of a desk (CCS 2016, figures 3 and 4): a state that hears what the node's lanes decide and deliver, closes the
//! epochs in their order, settles their transactions, and says which votes become due.
#![tactic(auto)]

mod closing;
mod epochs;
mod pending;
mod recovery;
mod table;

pub use epochs::{Epochs, order_laws};
