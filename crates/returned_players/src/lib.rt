//! What is done with the actors that came back from the threads of a run: they are put in the order of their nodes and numbers,
//! those that missed a post for want of memory end, what is left is delivered, and at last each gives its end and its seat.
#![tactic(auto)]

mod ends;
mod leaving;
mod marking;
mod ordering;
mod seats;

pub use ends::ends_of;
pub use leaving::{Left, finish};
pub use marking::end_noted;
pub use ordering::insert_in_order;
pub use seats::seats_of;
