//! Beginning from a journal.
ghost use Rattle.std.specs.Prelude.{◌≡◌, ◌≤◌, ◌+◌, ℕ, [], OnOk};
ghost use Rattle.hb_wire.specs.declared.vote.Vote.{Vote};
ghost use Rattle.hb_rules.specs.Actor.{IsFew, AreCastAgain};
ghost use Rattle.hb_rules.specs.Room.{KeepsRoom};
ghost use Rattle.hb_rules.specs.Same.{count};
ghost use Rattle.hb_rules.specs.Terms.{AreLawful, cast_in};
ghost use Rattle.vote_journal.specs.Text.{text_of};
ghost use Rattle.vote_journal.specs.Usable.{disk_of};
ghost use Rattle.journaled_actor.specs.Folding.{IsReady};
ghost use Rattle.journaled_actor.specs.Going.{SeatGoes, DiskGoes};
ghost use Rattle.journaled_actor.specs.Kept.{IsOf, IsSafe, IsAll, IsOpen, CastsNothing};

use crate::casting::cast;
use crate::cores::Core;
use crate::posting::post_all;
use crate::reading::read_back;
use disk_model::Disk;
use hb_rules::{ActorFault, Book, Due, Outbox};
use hb_wire::Vote;
use std::alloc::Global;
use vote_journal::Journal;

// Rebuilds the core from the votes of the journal, which are all cast, and casts what is owed then. Of `due` the room alone
// is used.
fn begin<B: Book, D: Disk, C: Core>(
    alloc: Global,
    votes: &[Vote],
    core: &mut C,
    journal: &mut Journal<D>,
    seat: &mut B::Seat,
    book: &mut B,
    due: &mut Due,
    out: &mut Outbox,
) -> Result<(), ActorFault>
    requires seat { B.knows book.old seat.old }
    requires is { IsOf (C.terms core.old) (B.config seat.old) (B.node seat.old) (B.actor seat.old) }
    requires lawful { AreLawful (C.terms core.old) }
    requires ready { IsReady D.seen D.may_leave journal.old }
    requires all { IsAll (C.terms core.old) (B.seen seat.old) (text_of (D.seen (disk_of journal.old))) votes.now }
    ensures terms { C.terms core.new ≡ C.terms core.old }
    ensures seat { SeatGoes B.config B.node B.actor B.seen B.knows B.moved (C.terms core.old)
        seat.old seat.new book.old book.new out.old out.new result }
    ensures safe { IsSafe (C.terms core.old) (B.seen seat.new) (D.may_leave (disk_of journal.new)) }
    ensures ready { OnOk result (IsReady D.seen D.may_leave journal.new) }
    ensures opened { OnOk result (IsOpen (C.terms core.old) (B.seen seat.new) (text_of (D.seen (disk_of journal.new))) (C.stands core.new) []) }
    ensures once { (vote : Vote) → 1 ≤ count vote (cast_in (C.terms core.old) (B.seen seat.old))
        → count vote (cast_in (C.terms core.old) (B.seen seat.new)) ≡ count vote (cast_in (C.terms core.old) (B.seen seat.old)) }
    ensures few { (most : ℕ) → 1 ≤ most → IsFew (C.terms core.old) (B.seen seat.old) most → IsFew (C.terms core.old) (B.seen seat.new) most }
    ensures nothing { votes.now ≡ [] → (C.terms core.old).owed [] [] ≡ [] → CastsNothing (C.terms core.old) (B.seen seat.old) (B.seen seat.new) result }
    ensures disk { DiskGoes D.supply D.faults D.explains (disk_of journal.old) (disk_of journal.new) result }
    ensures keeps_room { KeepsRoom due.old due.new }
{
    due.clear();
    core.rebuild(alloc, votes, due)?;
    cast(alloc, due.votes(), core, journal, seat, book, out)
}

/// Recovers the journal, posts each of its votes, though it was posted before, and then casts what is owed. Of `due` the
/// room alone is used.
pub(crate) fn take_up<B: Book, D: Disk, C: Core>(
    alloc: Global,
    core: &mut C,
    journal: &mut Journal<D>,
    seat: &mut B::Seat,
    book: &mut B,
    due: &mut Due,
    out: &mut Outbox,
) -> Result<(), ActorFault>
    requires seat { B.knows book.old seat.old }
    requires is { IsOf (C.terms core.old) (B.config seat.old) (B.node seat.old) (B.actor seat.old) }
    requires lawful { AreLawful (C.terms core.old) }
    requires safe { IsSafe (C.terms core.old) (B.seen seat.old) (D.may_leave (disk_of journal.old)) }
    ensures terms { C.terms core.new ≡ C.terms core.old }
    ensures seat { SeatGoes B.config B.node B.actor B.seen B.knows B.moved (C.terms core.old)
        seat.old seat.new book.old book.new out.old out.new result }
    ensures safe { IsSafe (C.terms core.old) (B.seen seat.new) (D.may_leave (disk_of journal.new)) }
    ensures ready { OnOk result (IsReady D.seen D.may_leave journal.new) }
    ensures opened { OnOk result (IsOpen (C.terms core.old) (B.seen seat.new) (text_of (D.seen (disk_of journal.new))) (C.stands core.new) []) }
    ensures again { OnOk result (AreCastAgain (C.terms core.old) (B.seen seat.old) (B.seen seat.new)) }
    ensures few { (most : ℕ) → IsFew (C.terms core.old) (B.seen seat.old) most → IsFew (C.terms core.old) (B.seen seat.new) (most + 1) }

    // Where the journal has no vote and nothing is owed at first, nothing is cast.
    ensures nothing { text_of (D.seen (disk_of journal.old)) ≡ [] → (C.terms core.old).owed [] [] ≡ []
        → CastsNothing (C.terms core.old) (B.seen seat.old) (B.seen seat.new) result }
    ensures disk { DiskGoes D.supply D.faults D.explains (disk_of journal.old) (disk_of journal.new) result }
    ensures keeps_room { KeepsRoom due.old due.new }
{
    let votes = read_back(alloc, core, journal)?;
    post_all(&votes, core, seat, book, out)?;
    begin(alloc, &votes, core, journal, seat, book, due, out)
}
