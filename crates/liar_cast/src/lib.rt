//! Liars: what a node may say that keeps no rule of the protocol, and six kinds of liars. No theorem rests on what
//! a liar says; a liar has no power but to post bytes under its own node's name.
#![tactic(auto)]

mod babble;
mod bval_both;
mod echo_split;
mod equivocate;
mod false_share;
mod heard;
mod kind;
mod liar;
mod lies;
mod silent;
mod speech;

pub use babble::Babble;
pub use bval_both::BvalBoth;
pub use echo_split::EchoSplit;
pub use equivocate::Equivocate;
pub use false_share::FalseShare;
pub use kind::{Kind, all_names, cast};
pub use liar::{Liar, LiarSeat};
pub use lies::{Lies, Said};
pub use silent::Silent;
