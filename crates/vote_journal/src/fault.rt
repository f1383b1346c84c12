//! Why a journal refused a call.
ghost use Rattle.std.specs.Prelude.{◌≡◌};
ghost use Rattle.vote_journal.specs.declared.fault.JournalFault.TheVariants.{Memory};
ghost use Rattle.vote_journal.specs.Faults.{journal_fault};

use disk_model::DiskFault;
use std::alloc::{AllocError, AllocFailed};
use thiserror::Error;

/// Why a journal refused a call.
#[derive(Clone, Copy, Debug, PartialEq, Eq, Error)]
pub enum JournalFault {
    /// The disk failed. It comes only where the disk's count of faults rose in this call.
    #[error("the disk failed")]
    Failed,
    /// A half holds more than 9 bytes and doesn't begin with the magic.
    #[error("the disk holds no journal")]
    NotAJournal,
    /// No memory was left, for the journal or for the disk.
    #[error("no memory was left")]
    Memory,
}

impl From<DiskFault> for JournalFault {
    ghost from_gives = { λ fault e. e ≡ journal_fault fault };

    fn from(fault: DiskFault) -> Self {
        match fault {
            DiskFault::Failed => JournalFault::Failed,
            DiskFault::Memory => JournalFault::Memory,
        }
    }
}

impl From<AllocError> for JournalFault {
    ghost from_gives = { λ _ e. e ≡ Memory };

    fn from(_: AllocError) -> Self {
        JournalFault::Memory
    }
}

impl<T: Drop> From<AllocFailed<T>> for JournalFault {
    ghost from_gives = { λ _ e. e ≡ Memory };

    fn from(_: AllocFailed<T>) -> Self {
        JournalFault::Memory
    }
}
