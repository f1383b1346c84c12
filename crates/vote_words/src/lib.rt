//! The line of a post in words: who sent it where, and the vote that its bytes spell.
#![tactic(auto)]

mod detail;
mod fields;
mod parts;
mod post;
mod vote;

pub use detail::Detail;
pub use post::post_in_words;
