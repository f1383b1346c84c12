//! The liar that hands out a share of no coin.

ghost use Rattle.std.specs.Prelude.{◌≡◌, codes};

use crate::heard::{Cue, Heard, Round};
use crate::liar::{Liar, LiarSeat};
use crate::lies::Lies;
use crate::speech::{Hushed, tell_vote};
use hb_base::LiarName;
use hb_wire::{Post, Vote};
use merkle_branch::{Branch, MAX_HEIGHT, height};
use std::alloc::Global;

/// Answers the first COIN of each lane, epoch and round: a COIN with the share 0, and a salt and a branch of zero
/// bytes, to all.
#[derive(Drop)]
pub struct FalseShare {
    heard: Heard,
}

impl FalseShare {
    /// One that has heard nothing yet.
    pub fn new() -> FalseShare {
        FalseShare {
            heard: Heard::nothing(Cue::Coin),
        }
    }
}

fn hand_out(alloc: Global, me: &LiarSeat, lies: &mut Lies, at: Round) -> Result<(), Hushed> {
    let n = me.config.n();
    let version = me.config.version();
    let coin = Vote::Coin {
        epoch: at.epoch,
        round: at.number,
        share: 0,
        salt: [0; 16],
        branch: Branch {
            len: height(n),
            digests: [[0; 32]; MAX_HEIGHT],
        },
    };
    tell_vote(alloc, n, version, lies, at.lane, &coin)
}

impl Liar for FalseShare {
    ghost called = { λ _. codes "false_share" };

    fn name(&self) -> LiarName {
        LiarName::of("false_share").unwrap()
    }

    fn start(&mut self, _alloc: Global, _me: &LiarSeat, lies: &mut Lies)
        ensures { lies.new ≡ lies.old }
    {}

    fn hear(&mut self, alloc: Global, me: &LiarSeat, post: &Post, lies: &mut Lies) {
        if let Ok(round) = self.heard.first(me, post) {
            let _ = hand_out(alloc, me, lies, round);
        }
    }
}
