//! What the votes of a desk say of an epoch.
ghost use Rattle.std.specs.Prelude.{◌≡◌};
ghost use Rattle.std.specs.List.{list_any};
ghost use Rattle.hb_rules.specs.Claims.{is_any_proposal, is_no_more, is_any_closing};
ghost use Rattle.hb_rules.specs.Desk.{is_open};

use hb_wire::Vote;

/// Whether one of the votes proposes for an epoch.
pub fn has_proposal(epoch: u8, own: &[Vote]) -> bool
    ensures { result ≡ list_any (is_any_proposal epoch) own.now }
{
    own.iter().any(|vote| matches!(vote, Vote::Propose { epoch: other, .. } if *other == epoch))
}

/// Whether one of the votes wants no more lanes in an epoch.
pub fn has_no_more(epoch: u8, own: &[Vote]) -> bool
    ensures { result ≡ list_any (is_no_more epoch) own.now }
{
    own.iter().any(|vote| matches!(vote, Vote::NoMore { epoch: other } if *other == epoch))
}

/// Whether one of the votes closes an epoch.
pub fn is_closed(epoch: u8, own: &[Vote]) -> bool
    ensures { result ≡ list_any (is_any_closing epoch) own.now }
{
    own.iter().any(|vote| matches!(vote, Vote::Closed { epoch: other, .. } if *other == epoch))
}

/// Whether an epoch is open by the votes of a desk: it is the first, or the one before is closed.
pub fn is_open(epoch: u8, own: &[Vote]) -> bool
    ensures { result ≡ is_open epoch own.now }
{
    epoch == 0 || is_closed(epoch - 1, own)
}
