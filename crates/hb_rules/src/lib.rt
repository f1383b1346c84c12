//! The rules of the protocol: who hears which post, what an actor may cast and what it has to cast, which histories of
//! posts are legal, the books that keep the posts, the actors that cast them, and the report of a run.
#![tactic(auto)]

pub mod actor;
pub mod agreement_slot;
pub mod book;
pub mod claims;
pub mod desk;
pub mod due;
pub mod hearing;
pub mod lanes;
pub mod laws;
pub mod outbox;
pub mod plain_book;
pub mod plain_seat;
pub mod posts;
pub mod report;
pub mod voters;

pub use actor::{Actor, ActorFault};
pub use agreement_slot::AgreementSlot;
pub use book::{Book, BookFault};
pub use claims::{Claim, count_claims};
pub use desk::{has_no_more, has_proposal, is_closed, is_open};
pub use due::Due;
pub use hearing::{Heard, hear};
pub use lanes::{is_correct, posting_lane};
pub use laws::{
    agreement_slot_laws, broadcast_slot_laws, desk_slot_laws, lane_slot_laws, row_laws, slot_laws,
    term_laws,
};
pub use outbox::Outbox;
pub use plain_book::{PlainBook, plain_book_laws};
pub use plain_seat::PlainSeat;
pub use posts::{Posts, spell, spell_for};
pub use report::{End, Fate, Report, running, works};
pub use voters::Voters;
