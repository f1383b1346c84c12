ghost use Rattle.std.specs.Prelude.{◌≡◌, ◌↔◌, true};
ghost use Rattle.aba_core.specs.Levels.{bits_with, levels_of};
ghost use Rattle.aba_core.specs.Tables.{count_in};

use crate::bits::Bits;
use crate::tables::Tables;
use crate::voters::BitVoters;
use hb_base::Config;

// Which counts of a round are at the thresholds that the rows ask for. A hearing that changes none makes nothing due.
#[derive(Clone, Copy, Debug, PartialEq, Eq)]
pub(crate) struct Levels {
    // f + 1 nodes, and 2f + 1, support the bit.
    pub(crate) backed: Bits,
    pub(crate) supported: Bits,

    // Some node, and n - f nodes, have accepted the bit, and n - f nodes any.
    pub(crate) accepted: Bits,
    pub(crate) gathered: Bits,
    pub(crate) any_gathered: bool,

    // n - f nodes are left with the bit alone, and n - f with any set; some node is left with the bit.
    pub(crate) confirmed: Bits,
    pub(crate) any_confirmed: bool,
    pub(crate) left: Bits,
}

impl Levels {
    // The levels of what was heard.
    pub(crate) fn of(config: &Config, tables: &Tables) -> Levels
        ensures { result ≡ levels_of config.now (count_in tables.now) 0 }
    {
        let f = config.f();
        let quorum = config.n() - f;
        Levels {
            backed: reach(&tables.bvals, f + 1),
            supported: reach(&tables.bvals, 2 * f + 1),
            accepted: reach(&tables.auxes, 1),
            gathered: reach(&tables.auxes, quorum),
            any_gathered: tables.any_auxes.count() >= quorum,
            confirmed: reach(&tables.confs, quorum),
            any_confirmed: tables.any_confs.count() >= quorum,
            left: reach(&tables.confs_with, 1),
        }
    }

    // Whether they are these.
    pub(crate) fn are(&self, other: &Levels) -> bool
        ensures { (result ≡ true) ↔ (self.now ≡ other.now) }
    {
        let by_bvals = self.backed.are(other.backed) && self.supported.are(other.supported);
        let by_auxes = self.accepted.are(other.accepted) && self.gathered.are(other.gathered);
        let by_confs = self.confirmed.are(other.confirmed) && self.left.are(other.left);
        by_bvals
            && by_auxes
            && by_confs
            && self.any_gathered == other.any_gathered
            && self.any_confirmed == other.any_confirmed
    }
}

// The bits that so many nodes claim.
fn reach(voters: &BitVoters, enough: u8) -> Bits
    ensures { result ≡ bits_with voters.now enough }
{
    Bits {
        zero: voters.zero.count() >= enough,
        one: voters.one.count() >= enough,
    }
}
