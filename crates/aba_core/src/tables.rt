ghost use Rattle.std.specs.Prelude.{◌≡◌, ℕ, ◌<◌, ◌==◌, ◌&&◌, ◌||◌};
ghost use Rattle.hb_base.specs.NodeSet.{is_in};
ghost use Rattle.hb_base.specs.Limits.{most_nodes};
ghost use Rattle.hb_rules.specs.Marks.{Claim};
ghost use Rattle.hb_wire.specs.declared.vote.Vals.{Vals};
ghost use Rattle.aba_core.specs.Tables.{no_tables, voters_in, claims, claims_set};

use crate::voters::BitVoters;
use hb_rules::Voters;
use hb_wire::{Vals, Vote};

// What nodes claim in a round, and who claims it.
#[derive(Debug, Drop)]
pub(crate) struct Tables {
    // That they support a bit.
    pub(crate) bvals: BitVoters,

    // That they have accepted it, and who has accepted any.
    pub(crate) auxes: BitVoters,
    pub(crate) any_auxes: Voters,

    // That they are left with it alone, with any set, and with a set that has the bit.
    pub(crate) confs: BitVoters,
    pub(crate) any_confs: Voters,
    pub(crate) confs_with: BitVoters,
}

impl Tables {
    pub(crate) fn none() -> Tables
        ensures { result ≡ no_tables }
    {
        Tables {
            bvals: BitVoters::none(),
            auxes: BitVoters::none(),
            any_auxes: Voters::none(),
            confs: BitVoters::none(),
            any_confs: Voters::none(),
            confs_with: BitVoters::none(),
        }
    }

    // Takes in a vote of the round that a node has cast.
    pub(crate) fn hear(&mut self, from: u8, vote: &Vote)
        requires { from < most_nodes }
        ensures { (claim : Claim) (node : ℕ) → is_in (voters_in self.new claim) node
            ≡ ((claims claim vote.now && (node == from)) || is_in (voters_in self.old claim) node) }
    {
        match vote {
            Vote::Bval { bit, .. } => self.bvals.add(*bit, from),
            Vote::Aux { bit, .. } => {
                self.auxes.add(*bit, from);
                self.any_auxes.add(from);
            }
            Vote::Conf { vals, .. } => self.hear_set(from, *vals),
            _ => {}
        }
    }

    // A node is left with this set.
    fn hear_set(&mut self, from: u8, vals: Vals)
        requires { from < most_nodes }
        ensures { (claim : Claim) (node : ℕ) → is_in (voters_in self.new claim) node
            ≡ ((claims_set claim vals && (node == from)) || is_in (voters_in self.old claim) node) }
    {
        self.any_confs.add(from);
        match vals {
            Vals::Zero => {
                self.confs.add(false, from);
                self.confs_with.add(false, from);
            }
            Vals::One => {
                self.confs.add(true, from);
                self.confs_with.add(true, from);
            }
            Vals::Both => {
                self.confs_with.add(false, from);
                self.confs_with.add(true, from);
            }
        }
    }
}
