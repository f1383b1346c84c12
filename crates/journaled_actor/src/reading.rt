//! Reading the votes of a journal back.
ghost use Rattle.std.specs.Prelude.{◌≡◌, List, OnOk, IfOk, IsErrOf};
ghost use Rattle.std.specs.List.{concat};
ghost use Rattle.hb_wire.specs.declared.post.Post.{Post};
ghost use Rattle.vote_journal.specs.Text.{text_of};
ghost use Rattle.vote_journal.specs.Usable.{disk_of};
ghost use Rattle.journaled_actor.specs.Faults.{actor_fault};
ghost use Rattle.journaled_actor.specs.Folding.{IsReady};
ghost use Rattle.journaled_actor.specs.Going.{DiskGoes};
ghost use Rattle.journaled_actor.specs.Kept.{IsSafe, Covers};
ghost use Rattle.journaled_actor.specs.Payload.{payload, AreWritten};

use crate::cores::Core;
use crate::payload::read_votes;
use disk_model::Disk;
use hb_base::Bytes;
use hb_rules::ActorFault;
use hb_wire::Vote;
use std::alloc::{AllocError, Global};
use vote_journal::{Journal, JournalFault};

// The entries put together.
fn gather(alloc: Global, entries: &[Bytes]) -> Result<Vec<u8>, AllocError>
    ensures { IfOk result (λ text. text.items ≡ concat entries.now) }
{
    let mut text = Vec::new(alloc);
    for entry in entries {
        text.extend_from_slice(entry.as_slice())?;
    }
    Ok(text)
}

/// Why an actor ended, by its journal's fault.
pub(crate) fn fault_of(fault: JournalFault) -> ActorFault
    ensures { result ≡ actor_fault fault }
{
    match fault {
        JournalFault::Failed | JournalFault::NotAJournal => ActorFault::Journal,
        JournalFault::Memory => ActorFault::Memory,
    }
}

/// Opens a journal, in any state, and gives its votes. Where each image of the disk has all that the actor has cast, these
/// do too.
pub(crate) fn read_back<D: Disk, C: Core>(
    alloc: Global,
    core: &C,
    journal: &mut Journal<D>,
) -> Result<Vec<Vote>, ActorFault>
    requires safe { (seen : List Post) × IsSafe (C.terms core.now) seen (D.may_leave (disk_of journal.old)) }
    ensures safe { (seen : List Post) → IsSafe (C.terms core.now) seen (D.may_leave (disk_of journal.old))
        → IsSafe (C.terms core.now) seen (D.may_leave (disk_of journal.new)) }
    ensures covers { IfOk result (λ votes. (seen : List Post) → IsSafe (C.terms core.now) seen (D.may_leave (disk_of journal.old))
        → Covers (C.terms core.now) seen votes.items) }
    ensures text { IfOk result (λ votes. text_of (D.seen (disk_of journal.new)) ≡ payload votes.items) }
    ensures same { OnOk result (text_of (D.seen (disk_of journal.new)) ≡ text_of (D.seen (disk_of journal.old))) }
    ensures ready { OnOk result (IsReady D.seen D.may_leave journal.new) }
    ensures written { IfOk result (λ votes. AreWritten (C.terms core.now).config votes.items) }
    ensures disk { DiskGoes D.supply D.faults D.explains (disk_of journal.old) (disk_of journal.new) result }
    ensures other { IsErrOf result ActorFault.Full → ⊥ }
{
    let entries = match journal.reopen() {
        Ok(entries) => entries,
        Err(fault) => return Err(fault_of(fault)),
    };
    let text = gather(alloc, &entries)?;
    Ok(read_votes(alloc, &core.config(), &text)?)
}
