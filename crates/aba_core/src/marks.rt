ghost use Rattle.std.specs.Prelude.{◌≡◌, ◌||◌};
ghost use Rattle.aba_core.specs.Marks.{no_marks, with_vote, with_pick, any_pick_in};

use crate::bits::Bits;
use hb_wire::{Vals, Vote};

// Which votes a lane has cast in a round.
#[derive(Clone, Copy, Debug, PartialEq, Eq)]
pub(crate) struct Marks {
    pub(crate) ests: Bits,
    pub(crate) bvals: Bits,
    pub(crate) aux: bool,
    pub(crate) conf: bool,
    pub(crate) picks: Bits,
    pub(crate) pick_both: bool,
    pub(crate) coin: bool,
}

impl Marks {
    pub(crate) fn none() -> Marks
        ensures { result ≡ no_marks }
    {
        Marks {
            ests: Bits::none(),
            bvals: Bits::none(),
            aux: false,
            conf: false,
            picks: Bits::none(),
            pick_both: false,
            coin: false,
        }
    }

    // Marks a vote of the round.
    pub(crate) fn add(&mut self, vote: &Vote)
        ensures { self.new ≡ with_vote self.old vote.now }
    {
        match vote {
            Vote::Est { bit, .. } => self.ests.add(*bit),
            Vote::Bval { bit, .. } => self.bvals.add(*bit),
            Vote::Aux { .. } => self.aux = true,
            Vote::Conf { .. } => self.conf = true,
            Vote::Pick { vals, .. } => self.add_pick(*vals),
            Vote::Coin { .. } => self.coin = true,
            _ => {}
        }
    }

    fn add_pick(&mut self, vals: Vals)
        ensures { self.new ≡ with_pick self.old vals }
    {
        match vals {
            Vals::Zero => self.picks.add(false),
            Vals::One => self.picks.add(true),
            Vals::Both => self.pick_both = true,
        }
    }

    // Whether some set of bits was picked.
    pub(crate) fn any_pick(&self) -> bool
        ensures { result ≡ any_pick_in self.now }
    {
        self.picks.any() || self.pick_both
    }
}
