//! What is to happen to a disk in memory.
ghost use Rattle.std.specs.Prelude.{◌≡◌, ℕ};

use std::marker::Model;

/// What a stop leaves of the writes since the last sync, once the disk is switched on.
#[derive(Clone, Copy, Debug, PartialEq, Eq)]
pub enum Leave {
    /// None of them.
    Old,
    /// All of them.
    New,
    /// All of them, but each byte at an odd offset of a range that was written is 0x5A.
    Torn,
}

/// A loss of power at the device call of this number, counted from 1.
#[derive(Clone, Copy, Debug, PartialEq, Eq)]
pub struct Stop {
    pub call: u32,
    pub leave: Leave,
}

/// The stops of a disk in memory, and the numbers of the calls that fail and leave it on.
#[derive(Debug, Drop)]
pub struct Plan {
    pub stops: Vec<Stop>,
    pub faults: Vec<u32>,
}

/// How far a disk has come: the number of its last numbered call. Only a disk makes one.
#[derive(Clone, Copy, Debug)]
pub struct Note {
    calls: u32,
}

impl Model for Note {
    ghost Value = { ℕ };

    ghost view = { λ note. note.calls };

    ghost inverse = { λ calls. record { calls = calls } };
}

impl Note {
    pub(crate) fn at(calls: u32) -> Note
        ensures { result ≡ calls }
    {
        Note { calls }
    }

    /// The number of the last numbered call, 0 before the first. It stays at the greatest u32 once there.
    pub fn calls(&self) -> u32
        ensures { result ≡ self.now }
    {
        self.calls
    }
}
