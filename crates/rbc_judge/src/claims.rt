//! Claims for a root, and how many nodes make them.
ghost use Rattle.std.specs.Prelude.{◌≡◌, ℕ, ◌≤◌, Bool};
ghost use Rattle.hb_base.specs.Limits.{most_nodes};
ghost use Rattle.hb_wire.specs.declared.vote.Vote.{Vote};
ghost use Rattle.hb_rules.specs.Claims.{is_ready};
ghost use Rattle.hb_rules.specs.Code.{echo_count, ready_count};
ghost use Rattle.hb_rules.specs.Hearing.{heard_by};
ghost use Rattle.rbc_judge.specs.Checked.{AreChecked};
ghost use Rattle.rbc_judge.specs.Shown.{shows};

use hb_rules::{Claim, Heard, count_claims};
use hb_wire::Vote;

// That a node is ready for a root.
#[derive(Clone, Copy)]
struct IsReady {
    epoch: u8,
    root: [u8; 32],
}

impl Claim for IsReady {
    ghost makes = { λ claim m vote. is_ready claim.epoch claim.root vote };

    fn is_made(&self, _node: u8, vote: &Vote) -> bool {
        match vote {
            Vote::Ready { epoch, root } => *epoch == self.epoch && *root == self.root,
            _ => false,
        }
    }
}

// That a node shows its shard under a root, by a branch that was checked.
#[derive(Clone, Copy)]
struct Shows {
    epoch: u8,
    root: [u8; 32],
}

impl Claim for Shows {
    ghost makes = { λ claim m vote. shows claim.epoch claim.root vote };

    fn is_made(&self, _node: u8, vote: &Vote) -> bool {
        match vote {
            Vote::Echo { epoch, root, .. } => *epoch == self.epoch && *root == self.root,
            _ => false,
        }
    }
}

// From how many of n nodes a Ready for the root was heard.
pub(crate) fn count_readies(n: u8, epoch: u8, root: &[u8; 32], heard: &[Heard]) -> u8
    requires { n ≤ most_nodes }
    ensures { result ≡ ready_count n epoch root.now (heard_by heard.now) }
{
    let claim = IsReady { epoch, root: *root };
    count_claims(n, &claim, heard)
}

// From how many of n nodes a valid Echo for the root was heard.
pub(crate) fn count_echoes(n: u8, epoch: u8, root: &[u8; 32], heard: &[Heard]) -> u8
    requires few { n ≤ most_nodes }
    requires checked { AreChecked n heard.now }
    ensures { result ≡ echo_count n epoch root.now (heard_by heard.now) }
{
    let claim = Shows { epoch, root: *root };
    count_claims(n, &claim, heard)
}
