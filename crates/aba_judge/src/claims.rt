//! How many nodes make a claim.
ghost use Rattle.std.specs.Prelude.{◌≡◌, ◌≤◌};
ghost use Rattle.hb_base.specs.Limits.{most_nodes};
ghost use Rattle.hb_rules.specs.Claims.{is_no_more};
ghost use Rattle.hb_rules.specs.Hearing.{heard_by};
ghost use Rattle.hb_rules.specs.Marks.{makes, has_bit, single, support};
ghost use Rattle.aba_judge.specs.Names.{claim_of};

use hb_rules::{Claim, Heard, count_claims};
use hb_wire::{Vals, Vote};

// What a node can claim in a round: that it supports a bit, that it has accepted it, or any bit, that it is left with this bit
// alone, with any set, or with a set that has the bit.
#[derive(Clone, Copy)]
pub(crate) enum Said {
    Bvals { round: u8, bit: bool },
    Auxes { round: u8, bit: bool },
    AnyAuxes { round: u8 },
    Confs { round: u8, bit: bool },
    AnyConfs { round: u8 },
    ConfsWith { round: u8, bit: bool },
}

// A claim of an epoch.
#[derive(Clone, Copy)]
struct InEpoch {
    epoch: u8,
    said: Said,
}

// The set with this bit alone.
pub(crate) fn single(bit: bool) -> Vals
    ensures { result ≡ single bit }
{
    if bit { Vals::One } else { Vals::Zero }
}

fn has_bit(bit: bool, vals: Vals) -> bool
    ensures { result ≡ has_bit bit vals }
{
    match vals {
        Vals::Zero => !bit,
        Vals::One => bit,
        Vals::Both => true,
    }
}

// Whether a vote makes a claim.
fn makes(epoch: u8, said: Said, vote: &Vote) -> bool
    ensures { result ≡ makes epoch (claim_of said) vote.now }
{
    match said {
        Said::Bvals { round, bit } => {
            matches!(vote, Vote::Bval { epoch: e, round: r, bit: b } if *e == epoch && (*r == round && *b == bit))
        }
        Said::Auxes { round, bit } => {
            matches!(vote, Vote::Aux { epoch: e, round: r, bit: b } if *e == epoch && (*r == round && *b == bit))
        }
        Said::AnyAuxes { round } => {
            matches!(vote, Vote::Aux { epoch: e, round: r, .. } if *e == epoch && *r == round)
        }
        Said::Confs { round, bit } => {
            matches!(vote, Vote::Conf { epoch: e, round: r, vals } if *e == epoch && (*r == round && *vals == single(bit)))
        }
        Said::AnyConfs { round } => {
            matches!(vote, Vote::Conf { epoch: e, round: r, .. } if *e == epoch && *r == round)
        }
        Said::ConfsWith { round, bit } => {
            matches!(vote, Vote::Conf { epoch: e, round: r, vals } if *e == epoch && (*r == round && has_bit(bit, *vals)))
        }
    }
}

impl Claim for InEpoch {
    ghost makes = { λ claim m vote. makes claim.epoch (claim_of claim.said) vote };

    fn is_made(&self, _node: u8, vote: &Vote) -> bool {
        makes(self.epoch, self.said, vote)
    }
}

// From how many of n nodes a claim was heard.
pub(crate) fn support(n: u8, epoch: u8, said: Said, heard: &[Heard]) -> u8
    requires { n ≤ most_nodes }
    ensures { result ≡ support n epoch (claim_of said) heard.now }
{
    let claim = InEpoch { epoch, said };
    count_claims(n, &claim, heard)
}

// Whether the own desk wants no more lanes.
pub(crate) fn wants_no_more(node: u8, epoch: u8, heard: &[Heard]) -> bool
    ensures { result ≡ heard_by heard.now node (is_no_more epoch) }
{
    heard.iter().any(|said| {
        said.from == node && matches!(said.vote(), Vote::NoMore { epoch: e } if *e == epoch)
    })
}
