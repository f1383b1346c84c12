//! The program `hb_votes` over any input and output: the text of a history, line by line, with each post in words.
#![tactic(auto)]

mod fault;
mod feed;
mod posts;
mod printing;
mod telling;
mod top;
mod window;

pub use fault::VotesFault;
pub use printing::print_votes;
pub use telling::WRITE_FAILED;
pub use top::{NO_MEMORY, votes_main};
pub use vote_words::Detail;
