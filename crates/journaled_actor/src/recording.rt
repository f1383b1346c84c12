//! Adding an entry to a journal.
ghost use Rattle.std.specs.Prelude.{◌≡◌, ◌<◌, ◌^◌, [], ◌∷◌, ◌++◌, length, OnOk};
ghost use Rattle.vote_journal.specs.Runs.{IsStep};
ghost use Rattle.vote_journal.specs.Text.{text_of, live_entries, SaysOnly, SaysMaybe};
ghost use Rattle.vote_journal.specs.Usable.{IsUsable, disk_of, entries_in_journal};
ghost use Rattle.journaled_actor.specs.Folding.{is_full, folded_if_full, most_while};

use disk_model::Disk;
use vote_journal::{Entry, Journal, JournalFault};

// So many entries a journal has before they are folded.
const MOST_ENTRIES: u32 = 64;

// Whether the entries are folded before another is added.
fn is_full<D: Disk>(journal: &Journal<D>) -> bool
    requires { IsUsable D.seen D.may_leave journal.now }
    ensures { result ≡ is_full (entries_in_journal D.seen journal.now) }
{
    journal.entries() == MOST_ENTRIES && journal.bytes() <= u32::MAX as u64
}

// Folds the entries of a full journal.
fn fold_if_full<D: Disk>(journal: &mut Journal<D>) -> Result<(), JournalFault>
    requires { IsUsable D.seen D.may_leave journal.old }
    ensures usable { OnOk result (IsUsable D.seen D.may_leave journal.new) }
    ensures entries { OnOk result (entries_in_journal D.seen journal.new ≡ folded_if_full (entries_in_journal D.seen journal.old)) }
    ensures text { OnOk result (text_of (D.seen (disk_of journal.new)) ≡ text_of (D.seen (disk_of journal.old))) }
    ensures step { IsStep D.seen D.may_leave D.moment D.left_since D.faults D.supply D.explains (disk_of journal.old) (disk_of journal.new)
        (SaysOnly (text_of (D.seen (disk_of journal.old))) (length (live_entries (D.seen (disk_of journal.old))))) result }
{
    if is_full(journal) {
        journal.fold()
    } else {
        Ok(())
    }
}

/// Adds an entry behind the others, which it folds first where there are 64 of them, of fewer than 2^32 bytes together.
pub(crate) fn record<D: Disk>(journal: &mut Journal<D>, entry: Entry) -> Result<(), JournalFault>
    requires usable { IsUsable D.seen D.may_leave journal.old }
    requires short { length entry.payload < 2 ^ 32 }
    ensures usable { OnOk result (IsUsable D.seen D.may_leave journal.new) }
    ensures entries { OnOk result (entries_in_journal D.seen journal.new
        ≡ folded_if_full (entries_in_journal D.seen journal.old) ++ entry.payload ∷ []) }
    ensures text { OnOk result (text_of (D.seen (disk_of journal.new)) ≡ text_of (D.seen (disk_of journal.old)) ++ entry.payload) }
    ensures step { IsStep D.seen D.may_leave D.moment D.left_since D.faults D.supply D.explains (disk_of journal.old) (disk_of journal.new)
        (SaysMaybe (text_of (D.seen (disk_of journal.old))) entry.payload (most_while (live_entries (D.seen (disk_of journal.old))))) result }
{
    fold_if_full(journal)?;
    journal.append_entry(entry)
}
