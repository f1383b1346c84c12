//! Casting votes: first into the journal, and then into the book.
ghost use Rattle.std.specs.Prelude.{◌≡◌, List, [], ◌∷◌, ◌++◌, Ok, OnOk, IsErrOf};
ghost use Rattle.disk_model.specs.Image.{Image};
ghost use Rattle.hb_wire.specs.declared.vote.Vote.{Vote};
ghost use Rattle.hb_rules.specs.Terms.{AreVotes};
ghost use Rattle.vote_journal.specs.Text.{text_of, live_entries, SaysMaybe};
ghost use Rattle.vote_journal.specs.Usable.{disk_of, entries_in_journal};
ghost use Rattle.journaled_actor.specs.Folding.{folded_if_full, entries_after, most_while, IsReady};
ghost use Rattle.journaled_actor.specs.Going.{SeatGoes, DiskGoes};
ghost use Rattle.journaled_actor.specs.Kept.{IsOf, IsSafe, IsAll, CastSome};

use crate::cores::Core;
use crate::payload::write_votes;
use crate::posting::post_all;
use crate::reading::fault_of;
use crate::recording::record;
use disk_model::Disk;
use hb_rules::{ActorFault, Book, Due, Outbox};
use hb_wire::Vote;
use std::alloc::Global;
use vote_journal::{Entry, Journal};

// Keeps the entry of votes. One that the journal can't hold is refused as memory that is wanting.
fn keep<D: Disk>(entry: Entry, journal: &mut Journal<D>) -> Result<(), ActorFault>
    requires ready { IsReady D.seen D.may_leave journal.old }
    ensures ready { OnOk result (IsReady D.seen D.may_leave journal.new) }
    ensures entries { OnOk result (entries_in_journal D.seen journal.new
        ≡ folded_if_full (entries_in_journal D.seen journal.old) ++ entry.payload ∷ []) }
    ensures text { OnOk result (text_of (D.seen (disk_of journal.new)) ≡ text_of (D.seen (disk_of journal.old)) ++ entry.payload) }
    ensures images { (image : Image) → D.may_leave (disk_of journal.new) image
        → SaysMaybe (text_of (D.seen (disk_of journal.old))) entry.payload (most_while (live_entries (D.seen (disk_of journal.old)))) image }
    ensures disk { DiskGoes D.supply D.faults D.explains (disk_of journal.old) (disk_of journal.new) result }
    ensures other { IsErrOf result ActorFault.Full → ⊥ }
{
    if entry.len() > u32::MAX as usize {
        return Err(ActorFault::Memory);
    }
    match record(journal, entry) {
        Ok(()) => Ok(()),
        Err(fault) => Err(fault_of(fault)),
    }
}

/// Casts votes that are owed: writes them into the journal as one entry, and once that is acknowledged posts them, in their
/// order. Where there are none it does nothing, and writes no entry.
pub(crate) fn cast<B: Book, D: Disk, C: Core>(
    alloc: Global,
    due: &[Vote],
    core: &C,
    journal: &mut Journal<D>,
    seat: &mut B::Seat,
    book: &mut B,
    out: &mut Outbox,
) -> Result<(), ActorFault>
    requires seat { B.knows book.old seat.old }
    requires is { IsOf (C.terms core.now) (B.config seat.old) (B.node seat.old) (B.actor seat.old) }
    requires ready { IsReady D.seen D.may_leave journal.old }
    requires opened { (votes : List Vote) × IsAll (C.terms core.now) (B.seen seat.old) (text_of (D.seen (disk_of journal.old))) votes
        × AreVotes (C.terms core.now) (B.seen seat.old) (votes ++ due.now) }
    ensures seat { SeatGoes B.config B.node B.actor B.seen B.knows B.moved (C.terms core.now)
        seat.old seat.new book.old book.new out.old out.new result }
    ensures safe { IsSafe (C.terms core.now) (B.seen seat.new) (D.may_leave (disk_of journal.new)) }
    ensures ready { OnOk result (IsReady D.seen D.may_leave journal.new) }
    ensures all { OnOk result ((votes : List Vote) → IsAll (C.terms core.now) (B.seen seat.old) (text_of (D.seen (disk_of journal.old))) votes
        → AreVotes (C.terms core.now) (B.seen seat.old) (votes ++ due.now)
        → IsAll (C.terms core.now) (B.seen seat.new) (text_of (D.seen (disk_of journal.new))) (votes ++ due.now)) }
    ensures entries { OnOk result (entries_in_journal D.seen journal.new
        ≡ entries_after (entries_in_journal D.seen journal.old) due.now) }
    ensures nothing { due.now ≡ [] → (result ≡ Ok tt) × (journal.new ≡ journal.old) }
    ensures cast { CastSome (C.terms core.now) (B.seen seat.old) (B.seen seat.new) due.now }
    ensures disk { DiskGoes D.supply D.faults D.explains (disk_of journal.old) (disk_of journal.new) result }
{
    if due.is_empty() {
        return Ok(());
    }
    let entry = write_votes(alloc, &core.config(), due)?;
    keep(entry, journal)?;
    post_all(due, core, seat, book, out)
}
