//! The liar that supports both bits.

ghost use Rattle.std.specs.Prelude.{◌≡◌, codes};

use crate::heard::{Cue, Heard, Round};
use crate::liar::{Liar, LiarSeat};
use crate::lies::Lies;
use crate::speech::{Hushed, tell_vote};
use hb_base::LiarName;
use hb_wire::{Post, Vote};
use std::alloc::Global;

/// Answers the first BVAL of each lane, epoch and round: BVAL of 0 and of 1, and AUX of 0 and of 1, to all (the votes
/// of a binary agreement, PODC 2014, figure 2).
#[derive(Drop)]
pub struct BvalBoth {
    heard: Heard,
}

impl BvalBoth {
    /// One that has heard nothing yet.
    pub fn new() -> BvalBoth {
        BvalBoth {
            heard: Heard::nothing(Cue::Bval),
        }
    }
}

fn support_both(alloc: Global, me: &LiarSeat, lies: &mut Lies, at: Round) -> Result<(), Hushed> {
    let n = me.config.n();
    let version = me.config.version();
    let epoch = at.epoch;
    let round = at.number;
    for bit in [false, true] {
        let bval = Vote::Bval { epoch, round, bit };
        tell_vote(alloc, n, version, lies, at.lane, &bval)?;
    }
    for bit in [false, true] {
        let aux = Vote::Aux { epoch, round, bit };
        tell_vote(alloc, n, version, lies, at.lane, &aux)?;
    }
    Ok(())
}

impl Liar for BvalBoth {
    ghost called = { λ _. codes "bval_both" };

    fn name(&self) -> LiarName {
        LiarName::of("bval_both").unwrap()
    }

    fn start(&mut self, _alloc: Global, _me: &LiarSeat, lies: &mut Lies)
        ensures { lies.new ≡ lies.old }
    {}

    fn hear(&mut self, alloc: Global, me: &LiarSeat, post: &Post, lies: &mut Lies) {
        if let Ok(round) = self.heard.first(me, post) {
            let _ = support_both(alloc, me, lies, round);
        }
    }
}
