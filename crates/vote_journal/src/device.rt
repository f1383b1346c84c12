//! Calls of a disk that are made together.
ghost use Rattle.std.specs.Prelude.{◌≡◌, ◌≤◌, ◌<◌, ◌+◌, ◌^◌, length, take, OnOk, IfErr};
ghost use Rattle.disk_model.specs.Image.{half_of, with_half};
ghost use Rattle.disk_model.specs.Disk.{overwritten, TornWrite, Cut, OnHalf, Only};
ghost use Rattle.vote_journal.specs.Runs.{IsStep};

use crate::JournalFault;
use disk_model::{Disk, Half};

/// Makes durable what is pending.
pub(crate) fn make_durable<D: Disk>(disk: &mut D) -> Result<(), JournalFault>
    ensures seen { D.seen disk.new ≡ D.seen disk.old }
    ensures step { IsStep D.seen D.may_leave D.moment D.left_since D.faults D.supply D.explains disk.old disk.new
        (D.may_leave disk.old) result }
{
    disk.sync()?;
    Ok(())
}

/// Writes over what is durable, and makes it durable.
pub(crate) fn write_through<D: Disk>(
    disk: &mut D,
    half: Half,
    at: u64,
    bytes: &[u8],
) -> Result<(), JournalFault>
    requires fits { at ≤ length (half_of half (D.seen disk.old)) }
    requires durable { Only (D.seen disk.old) (D.may_leave disk.old) }
    ensures written { OnOk result (D.seen disk.new ≡ with_half half (overwritten at bytes.now (half_of half (D.seen disk.old))) (D.seen disk.old)) }
    ensures small { OnOk result (at + length bytes.now < 2 ^ 63) }
    ensures step { IsStep D.seen D.may_leave D.moment D.left_since D.faults D.supply D.explains disk.old disk.new
        (OnHalf half (TornWrite at (length bytes.now)) (D.seen disk.old)) result }
{
    disk.write_at(half, at, bytes)?;
    make_durable(disk)
}

/// Cuts what is durable, and makes that durable.
pub(crate) fn cut_through<D: Disk>(disk: &mut D, half: Half, len: u64) -> Result<(), JournalFault>
    requires fits { len ≤ length (half_of half (D.seen disk.old)) }
    requires durable { Only (D.seen disk.old) (D.may_leave disk.old) }
    ensures cut { OnOk result (D.seen disk.new ≡ with_half half (take len (half_of half (D.seen disk.old))) (D.seen disk.old)) }
    ensures step { IsStep D.seen D.may_leave D.moment D.left_since D.faults D.supply D.explains disk.old disk.new
        (OnHalf half (Cut len) (D.seen disk.old)) result }
{
    disk.cut(half, len)?;
    make_durable(disk)
}
