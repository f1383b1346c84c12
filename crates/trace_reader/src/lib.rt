//! Texts of histories, as they are printed, are read again: the run that one tells of, and its posts.
#![tactic(auto)]

mod fault;
mod head;
mod hex_line;
mod laws;
mod post;
mod posts;
mod read;
mod trace;
mod words;

pub use fault::TraceFault;
pub use head::config_at;
pub use laws::trace_laws;
pub use post::{end_at, post_at};
pub use read::{LONGEST_TRACE, read_trace};
pub use trace::Trace;
