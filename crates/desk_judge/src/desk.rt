//! The votes of a desk.
ghost use Rattle.std.specs.Prelude.{◌≡◌, ◌-◌, ◌&&◌, ◌↔◌, not, nat_le, nat_lt, true, false, IsTrue};
ghost use Rattle.std.specs.List.{list_any};
ghost use Rattle.hb_wire.specs.declared.vote.Vote.TheVariants.{Propose, NoMore, Closed};
ghost use Rattle.hb_rules.specs.Claims.{is_decision, is_any_proposal, is_no_more, is_any_closing};
ghost use Rattle.hb_rules.specs.Desk.{is_open, MayAtDesk};
ghost use Rattle.hb_rules.specs.Hearing.{heard_by, count_shown};

use crate::accepted::is_accepted;
use crate::heard::count_accepted;
use hb_base::Config;
use hb_rules::{Heard, has_no_more, has_proposal, is_closed, is_open};
use hb_wire::{Item, Vote};

/// Whether a desk may cast this vote, by the votes that it has cast and those that it has heard (CCS 2016, figures 3 and 4):
/// one proposal for each open epoch of the run, with any value; that it wants no more lanes, once n - f have decided 1; and
/// the list with which it closes an open epoch. Votes of other epochs may be among those that it has cast and heard. It takes
/// no memory, and time linear in the length of the list and in the number of the votes, these times the number of lanes.
pub fn may_at_desk(config: &Config, own: &[Vote], heard: &[Heard], vote: &Vote) -> bool
    ensures { IsTrue result ↔ MayAtDesk config.now own.now heard.now vote.now }
{
    match vote {
        Vote::Propose { epoch, .. } => may_propose(config, *epoch, own),
        Vote::NoMore { epoch } => may_want_no_more(config, *epoch, own, heard),
        Vote::Closed { epoch, list } => may_close(config, *epoch, own, heard, list.as_slice()),
        _ => false,
    }
}

fn may_propose(config: &Config, epoch: u8, own: &[Vote]) -> bool
    ensures { result ≡ (nat_lt epoch config.now.epochs && (is_open epoch own.now && not (list_any (is_any_proposal epoch) own.now))) }
{
    epoch < config.epochs() && is_open(epoch, own) && !has_proposal(epoch, own)
}

fn may_want_no_more(config: &Config, epoch: u8, own: &[Vote], heard: &[Heard]) -> bool
    ensures { result ≡ (nat_le (config.now.n - config.now.f) (count_shown config.now.n (heard_by heard.now) (is_decision epoch true))
        && not (list_any (is_no_more epoch) own.now)) }
{
    let n = config.n();
    let f = config.f();
    prove!(f < n);
    n - f <= count_accepted(n, epoch, heard) && !has_no_more(epoch, own)
}

fn may_close(config: &Config, epoch: u8, own: &[Vote], heard: &[Heard], list: &[Item]) -> bool
    ensures { IsTrue result ↔ MayAtDesk config.now own.now heard.now (Closed epoch list.now) }
{
    let is_due = is_unclosed(epoch, own);
    if !is_due {
        return false;
    }
    is_accepted(config.n(), epoch, heard, list)
}

// Whether an epoch is open, and not closed yet.
fn is_unclosed(epoch: u8, own: &[Vote]) -> bool
    ensures { result ≡ (is_open epoch own.now && not (list_any (is_any_closing epoch) own.now)) }
{
    is_open(epoch, own) && !is_closed(epoch, own)
}
