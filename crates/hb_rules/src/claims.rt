//! From how many nodes a claim was heard.
ghost use Rattle.std.specs.Prelude.{◌≡◌, ℕ, ◌≤◌, Bool};
ghost use Rattle.hb_base.specs.Counting.{count_nodes};
ghost use Rattle.hb_base.specs.Limits.{most_nodes};
ghost use Rattle.hb_wire.specs.declared.vote.Vote.{Vote};
ghost use Rattle.hb_rules.specs.Hearing.{heard_by};

use crate::hearing::Heard;
use crate::voters::Voters;
use hb_wire::Vote;

/// Something that votes may claim, which may hang on the node that cast the vote.
pub trait Claim {
    /// Whether a vote of a node makes it.
    ghost makes: { Self → ℕ → Vote → Bool };

    /// Whether a vote of this node makes it.
    fn is_made(&self, node: u8, vote: &Vote) -> bool
        ensures { result ≡ makes self.now node vote.now };
}

/// From how many of n nodes a claim was heard. A node counts once, however often it makes the claim. It takes no memory, and
/// time linear in the number of the hearings.
pub fn count_claims<C: Claim>(n: u8, claim: &C, heard: &[Heard]) -> u8
    requires { n ≤ most_nodes }
    ensures { result ≡ count_nodes n (λ a. heard_by heard.now a (C.makes claim.now a)) }
{
    let mut voters = Voters::none();
    for said in heard {
        let counts = said.from < n && claim.is_made(said.from, said.vote());
        if counts {
            voters.add(said.from);
        }
    }
    voters.count()
}
