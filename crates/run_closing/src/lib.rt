//! The end of a run on threads: all seats are taken in by the first seat of the book, the book is closed, and the report is of
//! the run.
//!
//! What comes out of the locks of the threads does not tell whose it is: two actors might be one, and another be missing. The
//! joins tell. A book takes in each seat once, and each is one that it has made; so where as many came back as were made, all are
//! there.
#![tactic(auto)]

mod closing;
mod joining;

pub use closing::closing_laws;
pub use joining::{close_with, join_all};
