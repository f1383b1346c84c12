//! Judges the posts of a history one after another: whether a post may follow those before it.
#![tactic(auto)]

mod allowing;
mod buckets;
mod casting;
mod gathering;
mod judge;
mod place;
mod placing;
mod table;

pub use judge::HistoryJudge;
