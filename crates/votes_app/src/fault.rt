use std::alloc::AllocError;

/// Why a history was not printed in words to its end.
#[derive(Clone, Copy, Debug, PartialEq, Eq)]
pub enum VotesFault {
    /// The source failed.
    ReadFault,
    /// There are more than 67,108,864 bytes.
    TooLong,
    /// The bytes are no text of a history. The first line, counted from 1, that breaks the form; a line that is missing counts as
    /// the one behind the last.
    NotATrace { line: u32 },
    /// No memory was found.
    Memory,
    /// The sink failed.
    WriteFault,
}

impl From<AllocError> for VotesFault {
    ghost use Rattle.std.specs.Prelude.{◌≡◌};
    ghost use Rattle.votes_app.specs.declared.fault.VotesFault.TheVariants.{Memory};

    ghost from_gives = { λ _ fault. fault ≡ Memory };

    fn from(_: AllocError) -> VotesFault {
        VotesFault::Memory
    }
}
