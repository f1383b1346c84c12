//! Observers: they vote nothing, and take each epoch from f + 1 equal closed votes of desks (CCS 2016, section 4).
#![tactic(auto)]

mod agreeing;
mod beside;
mod claims;
pub mod laws;
mod observer;

pub use agreeing::observers_agree;
pub use beside::{observer_beside, observers_beside};
pub use laws::observer_laws;
pub use observer::{Heard, Observer};
