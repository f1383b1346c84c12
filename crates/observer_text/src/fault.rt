//! Why the text of observers was not printed whole.

ghost use Rattle.std.specs.Prelude.{◌≡◌};
ghost use Rattle.observer_text.specs.declared.fault.ObserveFault.TheVariants as faults;

use hb_base::Failed;
use std::alloc::AllocError;
use thiserror::Error;

/// Why the text of observers was not printed whole.
#[derive(Clone, Copy, Debug, PartialEq, Eq, Error)]
pub enum ObserveFault {
    /// A put failed. A front of the text was written.
    #[error("the sink failed")]
    Sink,
    /// No memory was left for the observers. Nothing was written.
    #[error("out of memory")]
    Memory,
}

impl From<Failed> for ObserveFault {
    ghost from_gives = { λ _ fault. fault ≡ faults.Sink };

    fn from(_: Failed) -> ObserveFault {
        ObserveFault::Sink
    }
}

impl From<AllocError> for ObserveFault {
    ghost from_gives = { λ _ fault. fault ≡ faults.Memory };

    fn from(_: AllocError) -> ObserveFault {
        ObserveFault::Memory
    }
}
