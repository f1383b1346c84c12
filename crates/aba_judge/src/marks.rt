//! Which votes a lane has cast.
ghost use Rattle.std.specs.Prelude.{◌≡◌};
ghost use Rattle.hb_rules.specs.Marks.{bears, has};
ghost use Rattle.aba_judge.specs.Names.{mark_of};

use hb_wire::{Vals, Vote};

// What a lane can have cast in an epoch.
#[derive(Clone, Copy)]
pub(crate) enum Cast {
    Delivery,
    Est { round: u8, bit: bool },
    AnyEst { round: u8 },
    Bval { round: u8, bit: bool },
    AnyAux { round: u8 },
    AnyConf { round: u8 },
    Pick { round: u8, vals: Vals },
    AnyPick { round: u8 },
    AnyCoin { round: u8 },
    AnyDecision,
}

// Whether a vote is such a one.
fn bears(epoch: u8, cast: Cast, vote: &Vote) -> bool
    ensures { result ≡ bears epoch (mark_of cast) vote.now }
{
    match cast {
        Cast::Delivery => matches!(vote, Vote::Delivered { epoch: e, .. } if *e == epoch),
        Cast::Est { round, bit } => {
            matches!(vote, Vote::Est { epoch: e, round: r, bit: b } if *e == epoch && (*r == round && *b == bit))
        }
        Cast::AnyEst { round } => {
            matches!(vote, Vote::Est { epoch: e, round: r, .. } if *e == epoch && *r == round)
        }
        Cast::Bval { round, bit } => {
            matches!(vote, Vote::Bval { epoch: e, round: r, bit: b } if *e == epoch && (*r == round && *b == bit))
        }
        Cast::AnyAux { round } => {
            matches!(vote, Vote::Aux { epoch: e, round: r, .. } if *e == epoch && *r == round)
        }
        Cast::AnyConf { round } => {
            matches!(vote, Vote::Conf { epoch: e, round: r, .. } if *e == epoch && *r == round)
        }
        Cast::Pick { round, vals } => {
            matches!(vote, Vote::Pick { epoch: e, round: r, vals: v } if *e == epoch && (*r == round && *v == vals))
        }
        Cast::AnyPick { round } => {
            matches!(vote, Vote::Pick { epoch: e, round: r, .. } if *e == epoch && *r == round)
        }
        Cast::AnyCoin { round } => {
            matches!(vote, Vote::Coin { epoch: e, round: r, .. } if *e == epoch && *r == round)
        }
        Cast::AnyDecision => matches!(vote, Vote::Decided { epoch: e, .. } if *e == epoch),
    }
}

// Whether the lane has cast such a vote in the epoch.
pub(crate) fn has(epoch: u8, cast: Cast, own: &[Vote]) -> bool
    ensures { result ≡ has epoch (mark_of cast) own.now }
{
    own.iter().any(|vote| bears(epoch, cast, vote))
}
