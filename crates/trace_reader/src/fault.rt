ghost use Rattle.std.specs.Prelude.{◌≡◌};

use std::alloc::AllocError;

/// Why a source gave no trace.
#[derive(Clone, Copy, Debug, PartialEq, Eq)]
pub enum TraceFault {
    /// The source failed.
    ReadFault,
    /// There are more than `LONGEST_TRACE` bytes.
    TooLong,
    /// The bytes are no text of a history. The first line, counted from 1, that breaks the form; a line that is missing
    /// counts as the one behind the last.
    NotATrace { line: u32 },
    /// No memory was found.
    Memory,
}

impl From<AllocError> for TraceFault {
    ghost use Rattle.trace_reader.specs.declared.fault.TraceFault.TheVariants.{Memory};

    ghost from_gives = { λ _ fault. fault ≡ Memory };

    fn from(_: AllocError) -> TraceFault {
        TraceFault::Memory
    }
}
