//! A caller of a journal, on any disk. What it promises is proved by the contracts alone.

ghost use Rattle.std.specs.Prelude.{◌≡◌, ◌<◌, ◌^◌, [], ◌∷◌, ◌++◌, length, OnOk};
ghost use Rattle.vote_journal.specs.Usable.{IsUsable, entries_in_journal};

use disk_model::Disk;
use vote_journal::{Journal, JournalFault};

/// Adds two entries, the second where the first is acknowledged.
pub fn append_two<D: Disk>(
    journal: &mut Journal<D>,
    first: &[u8],
    second: &[u8],
) -> Result<(), JournalFault>
    requires usable { IsUsable D.seen D.may_leave journal.old }
    requires first { length first.now < 2 ^ 32 }
    requires second { length second.now < 2 ^ 32 }
    ensures usable { OnOk result (IsUsable D.seen D.may_leave journal.new) }
    ensures added { OnOk result (entries_in_journal D.seen journal.new
        ≡ (entries_in_journal D.seen journal.old ++ first.now ∷ []) ++ second.now ∷ []) }
{
    journal.append(first)?;
    journal.append(second)
}
