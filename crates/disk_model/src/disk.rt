//! The contract of a disk, and of one that can lose its power.
ghost use Rattle.std.specs.Prelude.{◌≡◌, ◌≤◌, ◌<◌, ◌+◌, ◌^◌, true, false, List, ℕ, length, take, IfOk, OnOk, OnErr, IsErrOf};
ghost use Rattle.disk_model.specs.declared.disk.DiskFault.TheVariants.{Memory};
ghost use Rattle.disk_model.specs.Image.{Image, half_of, with_half};
ghost use Rattle.disk_model.specs.Disk.{overwritten, Reads, TornWrite, Cut, OnHalf, Follows, Only, Keeps, Elapses};
ghost use Rattle.hb_base.specs.Limits.{most_stops};
ghost use Rattle.hb_base.specs.Outside.{HasCauseOf};
ghost use Rattle.disk_model.specs.Faults.{is_failed};
ghost use Rattle.disk_model.specs.Supply.{Supply, mains, Draws, IsNamed};

use crate::Note;
use std::alloc::AllocError;
use thiserror::Error;

/// One of the two halves of a disk, each a file of its own length.
#[derive(Clone, Copy, Debug, PartialEq, Eq)]
pub enum Half {
    A,
    B,
}

/// Why a disk refused a call.
#[derive(Clone, Copy, Debug, PartialEq, Eq, Error)]
pub enum DiskFault {
    /// The disk failed. It comes only where the disk's count of faults rose in this call.
    #[error("the disk failed")]
    Failed,
    /// No memory was left.
    #[error("no memory was left")]
    Memory,
}

impl From<AllocError> for DiskFault {
    ghost from_gives = { λ _ fault. fault ≡ Memory };

    fn from(_: AllocError) -> Self {
        DiskFault::Memory
    }
}

/// A disk of two halves.
///
/// Between two syncs each range that was written or cut off, and all past the old end, may hold any bytes after a
/// crash, and the length may be any between the least and the greatest since the sync. Other bytes stay. After a sync
/// that succeeded a crash leaves what a read gives. After a call that failed a crash leaves what one during that call
/// may leave, so nothing that might have been left before is lost. The power goes off only at a call that answers `Failed`,
/// and while it is off every call answers so.
pub trait Disk {
    /// The bytes that a read gives.
    ghost seen: { Self → Image };

    /// What a crash at this moment may leave.
    ghost may_leave: { Self → Image → Type 0 };

    /// The moment, as a number that doesn't fall.
    ghost moment: { Self → ℕ };

    /// What a crash at some moment from that one on might have left, during a call or between two.
    ghost left_since: { Self → ℕ → Image → Type 0 };

    /// How often the disk has failed, up to the greatest u64.
    ghost faults: { Self → ℕ };

    /// Its power supply, with its plan of stops and faults. A disk without one says nothing of them.
    ghost supply: { Self → Supply } = { λ _. mains };

    /// What the disk gives as the cause where it has answered `Failed`.
    ghost explains: { Self → Type 0 } = { λ _. Unit {0} };

    /// Reads from an offset of a half into the front of `buf`, as many bytes as there are or as it takes, and answers
    /// how many. An offset past the end gives none.
    fn read(&mut self, half: Half, at: u64, buf: &mut [u8]) -> Result<usize, DiskFault>
        ensures bytes { IfOk result (λ n. Reads (half_of half (seen self.old)) at buf.old buf.new n) }
        ensures seen { seen self.new ≡ seen self.old }
        ensures crash { Keeps (may_leave self.new) (may_leave self.old) }
        ensures kept { Keeps (may_leave self.old) (may_leave self.new) }
        ensures time { Elapses (moment self.old) (moment self.new) (left_since self.old) (left_since self.new) (may_leave self.new) }
        ensures cause { HasCauseOf is_failed (faults self.old) (faults self.new) result }
        ensures explained { IsErrOf result DiskFault.Failed → explains self.new }
        ensures off { (supply self.old).off ≡ true → IsErrOf result DiskFault.Failed }
        ensures power { (IsErrOf result DiskFault.Failed → ⊥) → (supply self.new).off ≡ (supply self.old).off }
        ensures supply { Draws (supply self.old) (supply self.new) };

    /// Writes over the bytes of a half from an offset on, and past its end. Until a sync, a crash may leave any bytes
    /// in the range. A half never reaches 2^63 bytes.
    fn write_at(&mut self, half: Half, at: u64, bytes: &[u8]) -> Result<(), DiskFault>
        requires { at ≤ length (half_of half (seen self.old)) }
        ensures written { OnOk result (seen self.new ≡ with_half half (overwritten at bytes.now (half_of half (seen self.old))) (seen self.old)) }
        ensures small { OnOk result (at + length bytes.now < 2 ^ 63) }
        ensures crash { Follows (OnHalf half (TornWrite at (length bytes.now))) (may_leave self.old) (may_leave self.new) }
        ensures kept { Keeps (may_leave self.old) (may_leave self.new) }
        ensures time { Elapses (moment self.old) (moment self.new) (left_since self.old) (left_since self.new) (may_leave self.new) }
        ensures cause { HasCauseOf is_failed (faults self.old) (faults self.new) result }
        ensures explained { IsErrOf result DiskFault.Failed → explains self.new }
        ensures off { (supply self.old).off ≡ true → IsErrOf result DiskFault.Failed }
        ensures power { (IsErrOf result DiskFault.Failed → ⊥) → (supply self.new).off ≡ (supply self.old).off }
        ensures supply { Draws (supply self.old) (supply self.new) };

    /// Cuts a half to a length.
    fn cut(&mut self, half: Half, len: u64) -> Result<(), DiskFault>
        requires { len ≤ length (half_of half (seen self.old)) }
        ensures cut { OnOk result (seen self.new ≡ with_half half (take len (half_of half (seen self.old))) (seen self.old)) }
        ensures crash { Follows (OnHalf half (Cut len)) (may_leave self.old) (may_leave self.new) }
        ensures kept { Keeps (may_leave self.old) (may_leave self.new) }
        ensures time { Elapses (moment self.old) (moment self.new) (left_since self.old) (left_since self.new) (may_leave self.new) }
        ensures cause { HasCauseOf is_failed (faults self.old) (faults self.new) result }
        ensures explained { IsErrOf result DiskFault.Failed → explains self.new }
        ensures off { (supply self.old).off ≡ true → IsErrOf result DiskFault.Failed }
        ensures power { (IsErrOf result DiskFault.Failed → ⊥) → (supply self.new).off ≡ (supply self.old).off }
        ensures supply { Draws (supply self.old) (supply self.new) };

    /// Makes both halves durable: after it a crash leaves what a read gives. One that fails leaves pending what was.
    fn sync(&mut self) -> Result<(), DiskFault>
        ensures durable { OnOk result (Only (seen self.old) (may_leave self.new)) }
        ensures seen { seen self.new ≡ seen self.old }
        ensures crash { Keeps (may_leave self.new) (may_leave self.old) }
        ensures kept { OnErr result (Keeps (may_leave self.old) (may_leave self.new)) }
        ensures time { Elapses (moment self.old) (moment self.new) (left_since self.old) (left_since self.new) (may_leave self.new) }
        ensures cause { HasCauseOf is_failed (faults self.old) (faults self.new) result }
        ensures explained { IsErrOf result DiskFault.Failed → explains self.new }
        ensures off { (supply self.old).off ≡ true → IsErrOf result DiskFault.Failed }
        ensures power { (IsErrOf result DiskFault.Failed → ⊥) → (supply self.new).off ≡ (supply self.old).off }
        ensures supply { Draws (supply self.old) (supply self.new) };

    /// This moment is one of those since an earlier one.
    ghost counts_now: { (disk : Self) (t : ℕ) (c : Image) → t ≤ moment disk → may_leave disk c → left_since disk t c };

    /// Since this moment there is no other.
    ghost only_now: { (disk : Self) (c : Image) → left_since disk (moment disk) c → may_leave disk c };

    /// A crash may leave what a read gives.
    ghost seen_may_stay: { (disk : Self) → may_leave disk (seen disk) };
}

/// A disk that can lose its power at a call, and be switched on again. Only [`MemoryDisk`](crate::MemoryDisk) is one.
pub trait Power: Disk {
    /// Whether the power is off. While it is, each call answers `Failed`.
    fn is_off(&self) -> bool
        ensures { result ≡ (Self.supply self.now).off };

    /// How many stops of the plan are at calls that are still to come: at most 4, and never more than before.
    fn stops_left(&self) -> u8
        ensures stops { result ≡ (Self.supply self.now).stops }
        ensures few { result ≤ most_stops };

    /// The number of the last numbered call.
    fn note(&self) -> Note
        ensures { result ≡ (Self.supply self.now).calls };

    /// Switches the disk on: it holds one of the images that the crash may leave, with nothing pending. Where no
    /// memory is left it is as before.
    fn switch_on(&mut self) -> Result<(), AllocError>
        requires { (Self.supply self.old).off ≡ true }
        ensures image { OnOk result (Self.may_leave self.old (Self.seen self.new)) }
        ensures durable { OnOk result (Only (Self.seen self.new) (Self.may_leave self.new)) }
        ensures time { Elapses (Self.moment self.old) (Self.moment self.new) (Self.left_since self.old) (Self.left_since self.new) (Self.may_leave self.new) }
        ensures faults { Self.faults self.new ≡ Self.faults self.old }
        ensures supply { OnOk result (Self.supply self.new ≡ record (Self.supply self.old) { off = false }) }
        ensures refused { OnErr result (self.new ≡ self.old) };

    /// Where a call has answered `Failed` the disk is off, or its plan names that call.
    ghost named: { (disk : Self) → Self.explains disk → IsNamed (Self.supply disk) };
}
