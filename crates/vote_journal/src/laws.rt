//! What holds of every row of calls, and of every journal that may be appended to.
ghost use Rattle.std.specs.Prelude.{◌≡◌, ℕ, List};
ghost use Rattle.std.specs.List.{concat};
ghost use Rattle.disk_model.specs.Disk.{LeavesOnly};
ghost use Rattle.disk_model.specs.Image.{Image};
ghost use Rattle.vote_journal.specs.declared.journal.Journal.{Journal};
ghost use Rattle.vote_journal.specs.Text.{IsSound, SaysOnly, SaysMaybe, live_entries, text_of};
ghost use Rattle.vote_journal.specs.Calls.{JournalCall, IsEmpty, Lead};
ghost use Rattle.vote_journal.specs.Usable.{IsUsable, disk_of, entries_in_journal};

use disk_model::Disk;

/// Every disk that these calls make from an empty one is sound at every moment: whichever of `recover`, `append`, `fold`
/// and `switch_on` follow one another, each ended well or failed, a crash at any moment since the disk was empty leaves
/// a sound image, during a call, after one that failed and between two.
pub fn always_sound<D: Disk>()
    ensures { (steps : List (JournalCall × D)) (first last : D) → IsEmpty D.seen D.may_leave first
        → Lead D.seen D.may_leave D.moment D.left_since D.faults D.supply steps first last
        → LeavesOnly D.moment D.left_since first last IsSound }
{}

/// A journal that may be appended to, seen from its disk alone: a read finds a sound disk with the journal's entries, whose
/// text is their payloads put together, and so does whoever reads what a crash leaves.
pub fn usable_laws<D: Disk>()
    ensures sound { (journal : Journal D) → IsUsable D.seen D.may_leave journal → IsSound (D.seen (disk_of journal)) }
    ensures entries { (journal : Journal D) → IsUsable D.seen D.may_leave journal
        → live_entries (D.seen (disk_of journal)) ≡ entries_in_journal D.seen journal }
    ensures text { (journal : Journal D) → IsUsable D.seen D.may_leave journal
        → text_of (D.seen (disk_of journal)) ≡ concat (entries_in_journal D.seen journal) }
    ensures crash { (journal : Journal D) (left : Image) → IsUsable D.seen D.may_leave journal → D.may_leave (disk_of journal) left
        → IsSound left × (live_entries left ≡ entries_in_journal D.seen journal) }
{}

/// A crash at this moment is one of those since an earlier moment: what `recover`, `append` and `fold` say of all images
/// since then, ended well or failed, holds of what is left now.
pub fn crash_laws<D: Disk>()
    ensures only { (old new : D) (text : List ℕ) (most : ℕ) (left : Image) → LeavesOnly D.moment D.left_since old new (SaysOnly text most)
        → D.may_leave new left → SaysOnly text most left }
    ensures maybe { (old new : D) (text payload : List ℕ) (most : ℕ) (left : Image) → LeavesOnly D.moment D.left_since old new (SaysMaybe text payload most)
        → D.may_leave new left → SaysMaybe text payload most left }
{}
