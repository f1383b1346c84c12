//! Posting the votes of a journal.
ghost use Rattle.std.specs.Prelude.{◌≡◌, ◌⊎◌, ℕ, List, [], ◌∷◌, ◌++◌, length, IsOk, OnOk, OnErr, IsErrOf};
ghost use Rattle.hb_base.specs.Limits.{most_posts};
ghost use Rattle.hb_wire.specs.declared.vote.Vote.{Vote};
ghost use Rattle.hb_rules.specs.Book.{post_of, Watched, Posted};
ghost use Rattle.hb_rules.specs.History.{HasSpelling, IsAllowed};
ghost use Rattle.hb_rules.specs.Same.{firsts};
ghost use Rattle.hb_rules.specs.Terms.{cast_in};
ghost use Rattle.journaled_actor.specs.Going.{SeatGoes};
ghost use Rattle.journaled_actor.specs.Kept.{IsOf, Covers, Turn, CastSome};
ghost use Rattle.journaled_actor.specs.Payload.{AreWritten};

use crate::cores::Core;
use hb_rules::{ActorFault, Book, BookFault, Outbox};
use hb_wire::Vote;

// Posts a vote, and tells its number.
fn post_one<B: Book>(
    vote: &Vote,
    seat: &mut B::Seat,
    book: &mut B,
    out: &mut Outbox,
) -> Result<(), ActorFault>
    requires seat { B.knows book.old seat.old }
    requires spelled { HasSpelling (B.config seat.old) vote.now }
    requires allowed { IsAllowed (B.config seat.old) (B.node seat.old) (B.actor seat.old) (B.seen seat.old) vote.now }
    ensures seat { B.knows book.new seat.new }
    ensures same { (B.config seat.new ≡ B.config seat.old) × (B.node seat.new ≡ B.node seat.old) × (B.actor seat.new ≡ B.actor seat.old) }
    ensures moved { B.moved (B.node seat.old) (B.actor seat.old) book.old book.new }
    ensures ok { OnOk result ((k : ℕ) × Posted (B.config seat.old) (B.node seat.old) (B.actor seat.old)
        (post_of (B.node seat.old) (B.actor seat.old) vote.now) k (B.seen seat.old) (B.seen seat.new) × (out.new ≡ out.old ++ k ∷ [])) }
    ensures err { OnErr result (Watched (B.config seat.old) (B.node seat.old) (B.actor seat.old) (B.seen seat.old) (B.seen seat.new)
        ⊎ ((k : ℕ) × Posted (B.config seat.old) (B.node seat.old) (B.actor seat.old)
        (post_of (B.node seat.old) (B.actor seat.old) vote.now) k (B.seen seat.old) (B.seen seat.new))) }
    ensures full { IsErrOf result ActorFault.Full → Watched (B.config seat.old) (B.node seat.old) (B.actor seat.old) (B.seen seat.old) (B.seen seat.new)
        × (out.new ≡ out.old) × (length (B.seen seat.new) ≡ most_posts) }
    ensures other { IsErrOf result ActorFault.Journal → ⊥ }
{
    match book.post(seat, vote) {
        Ok(number) => match out.push(number) {
            Ok(()) => Ok(()),
            Err(_) => Err(ActorFault::Memory),
        },
        Err(BookFault::Full) => Err(ActorFault::Full),
        Err(BookFault::Memory) => Err(ActorFault::Memory),
    }
}

/// Posts votes that a journal has, in their order, and tells their numbers. `before` are the votes of the journal that come
/// before them: these were cast.
pub(crate) fn post_all<B: Book, C: Core>(
    votes: &[Vote],
    core: &C,
    seat: &mut B::Seat,
    book: &mut B,
    out: &mut Outbox,
) -> Result<(), ActorFault>
    requires seat { B.knows book.old seat.old }
    requires is { IsOf (C.terms core.now) (B.config seat.old) (B.node seat.old) (B.actor seat.old) }
    requires written { AreWritten (C.terms core.now).config votes.now }
    requires turn { (before : List Vote) × Turn (C.terms core.now) (B.seen seat.old) before votes.now }
    ensures seat { SeatGoes B.config B.node B.actor B.seen B.knows B.moved (C.terms core.now)
        seat.old seat.new book.old book.new out.old out.new result }
    ensures covers { (before : List Vote) → Turn (C.terms core.now) (B.seen seat.old) before votes.now
        → Covers (C.terms core.now) (B.seen seat.new) (before ++ votes.now) }
    ensures all { OnOk result ((before : List Vote) → Turn (C.terms core.now) (B.seen seat.old) before votes.now
        → firsts (cast_in (C.terms core.now) (B.seen seat.new)) ≡ before ++ votes.now) }
    ensures cast { CastSome (C.terms core.now) (B.seen seat.old) (B.seen seat.new) votes.now }
    ensures whole { OnOk result (cast_in (C.terms core.now) (B.seen seat.new) ≡ cast_in (C.terms core.now) (B.seen seat.old) ++ votes.now) }
    ensures nothing { votes.now ≡ [] → IsOk result }
    ensures other { IsErrOf result ActorFault.Journal → ⊥ }
{
    for vote in votes {
        post_one(vote, seat, book, out)?;
    }
    Ok(())
}
