ghost use Rattle.std.specs.Prelude.{◌≡◌};

use crate::place::{ListName, Place};
use hb_base::{Bytes, LiarName};
use std::alloc::{AllocError, AllocFailed};

/// Why bytes are no scenario: the first of the faults, in the order in which a scenario is checked. Texts of the input
/// are kept as they stand behind JSON's escapes.
#[derive(Debug, Drop)]
pub enum ScriptFault {
    /// There are more than 1,048,576 bytes.
    TooLong,
    /// The bytes are not one JSON value (RFC 8259) in UTF-8.
    NotJson,
    /// There is a value of another kind than the place takes: not an object, a list or a text.
    WrongKind {
        place: Place,
    },
    /// A key is not there.
    Missing {
        place: Place,
    },
    /// A key is there that no entry of this list has: the least such key, in byte order.
    Unknown {
        list: ListName,
        index: u32,
        key: Bytes,
    },
    /// No whole number from 0 to 2^64 - 1 that is written without a sign, a fraction and an exponent.
    NotNumber {
        place: Place,
    },
    /// A number that the place doesn't take, a list of too many entries, or the fifth stop or fault of an actor.
    OutOfRange {
        place: Place,
        value: u64,
    },
    /// No more than three times as many nodes as may be faulty.
    TooFewNodes {
        n: u8,
        f: u8,
    },
    /// More liars are named than nodes may be faulty.
    TooManyLiars {
        named: u64,
        f: u8,
    },
    /// A node lies twice.
    LiarTwice {
        node: u8,
    },
    /// More liars have this name than the cast has.
    NoSuchLiar {
        name: LiarName,
    },
    /// A text that is not hex of an even number of digits.
    BadHex {
        place: Place,
    },
    /// Hex of no bytes, or of more than 256.
    BadLength {
        place: Place,
        length: u64,
    },
    /// A text that is none of the words that the place takes.
    BadWord {
        place: Place,
        word: Bytes,
    },
    /// No memory was found.
    Memory,
}

impl From<AllocError> for ScriptFault {
    ghost use Rattle.script_fault.specs.declared.fault.ScriptFault.TheVariants.{Memory};

    ghost from_gives = { λ _ fault. fault ≡ Memory };

    fn from(_: AllocError) -> ScriptFault {
        ScriptFault::Memory
    }
}

impl<T: Drop> From<AllocFailed<T>> for ScriptFault {
    ghost use Rattle.script_fault.specs.declared.fault.ScriptFault.TheVariants.{Memory};

    ghost from_gives = { λ _ fault. fault ≡ Memory };

    fn from(_: AllocFailed<T>) -> ScriptFault {
        ScriptFault::Memory
    }
}
