//! Which rounds of the agreements a liar has heard of.

ghost use Rattle.std.specs.Prelude.{◌<◌};
ghost use Rattle.hb_base.specs.Limits.{most_nodes, most_epochs, most_rounds};

use crate::liar::LiarSeat;
use crate::speech::{Hushed, heard_vote};
use hb_wire::{Post, VoteView};

// One round of the agreement of one lane in one epoch.
#[derive(Clone, Copy)]
pub(crate) struct Round {
    pub(crate) lane: u8,
    pub(crate) epoch: u8,
    pub(crate) number: u8,
    ghost in_lane: { lane < most_nodes },
    ghost early: { epoch < most_epochs },
    ghost low: { number < most_rounds },
}

// The votes of a round of which the first is answered.
#[derive(Clone, Copy)]
pub(crate) enum Cue {
    Bval,
    Coin,
}

impl Cue {
    // The round of a post that is such a vote.
    fn round_of(self, me: &LiarSeat, post: &Post) -> Result<Round, Hushed> {
        let (lane, vote) = heard_vote(me, post)?;
        match self {
            Cue::Bval => match vote {
                VoteView::Bval { epoch, round, .. } => Ok(Round {
                    lane,
                    epoch,
                    number: round,
                }),
                _ => Err(Hushed),
            },
            Cue::Coin => match vote {
                VoteView::Coin { epoch, round, .. } => Ok(Round {
                    lane,
                    epoch,
                    number: round,
                }),
                _ => Err(Hushed),
            },
        }
    }
}

// For each lane and epoch the rounds of which such a vote was heard, the bit 2^r for round r.
#[derive(Drop)]
pub(crate) struct Heard {
    cue: Cue,
    rounds: [[u32; 32]; 16],
}

impl Heard {
    pub(crate) fn nothing(cue: Cue) -> Heard {
        Heard {
            cue,
            rounds: [[0; 32]; 16],
        }
    }

    // The round of a post that is the first such vote of it, which is marked as heard.
    pub(crate) fn first(&mut self, me: &LiarSeat, post: &Post) -> Result<Round, Hushed> {
        let round = self.cue.round_of(me, post)?;
        let rounds = &mut self.rounds[round.lane as usize][round.epoch as usize];
        let mark: u32 = 1 << round.number;
        if *rounds & mark != 0 {
            return Err(Hushed);
        }
        *rounds |= mark;
        Ok(round)
    }
}
