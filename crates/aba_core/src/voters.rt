ghost use Rattle.std.specs.Prelude.{◌≡◌, ℕ, ◌<◌, ◌==◌, ◌&&◌, ◌||◌, Bool};
ghost use Rattle.hb_base.specs.NodeSet.{is_in};
ghost use Rattle.hb_base.specs.Limits.{most_nodes};
ghost use Rattle.hb_rules.specs.Claims.{same_bit};
ghost use Rattle.aba_core.specs.Bits.{voters_of, no_bit_voters};

use hb_rules::Voters;

// Nodes that make a claim of either bit.
#[derive(Debug, Drop)]
pub(crate) struct BitVoters {
    pub(crate) zero: Voters,
    pub(crate) one: Voters,
}

impl BitVoters {
    pub(crate) fn none() -> BitVoters
        ensures { result ≡ no_bit_voters }
    {
        BitVoters {
            zero: Voters::none(),
            one: Voters::none(),
        }
    }

    // Adds a node that makes the claim of this bit.
    pub(crate) fn add(&mut self, bit: bool, node: u8)
        requires { node < most_nodes }
        ensures { (other : Bool) (a : ℕ) → is_in (voters_of self.new other) a
            ≡ ((same_bit bit other && (a == node)) || is_in (voters_of self.old other) a) }
    {
        if bit {
            self.one.add(node);
        } else {
            self.zero.add(node);
        }
    }
}
