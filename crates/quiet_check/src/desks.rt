ghost use Rattle.std.specs.Prelude.{◌≡◌, ℕ, ◌-◌, ◌<◌, ◌↔◌, true, IsTrue, List, is_some};
ghost use Rattle.hb_base.specs.Counting.{count_nodes};
ghost use Rattle.hb_rules.specs.Claims.{decided, is_bit, is_any_delivery};
ghost use Rattle.hb_rules.specs.Desk.{is_open};
ghost use Rattle.hb_rules.specs.DeskRows.{claimed_by, decision_of, accepted_below};
ghost use Rattle.hb_rules.specs.Hearing.{heard_by};
ghost use Rattle.hb_rules.specs.Owing.{desk_slots};
ghost use Rattle.hb_rules.specs.Slots.{IsIdle};
ghost use Rattle.quiet_check.specs.Desks.{is_known, owes_proposal, owes_no_more, owes_closing, owes_in};

use hb_base::Config;
use hb_rules::{Heard, has_no_more, has_proposal, is_closed, is_open};
use hb_wire::Vote;

// Whether a desk owes nothing, by the votes that it has cast and those that it has heard, of all epochs, whatever was
// submitted at its node: whether it owes a proposal does not hang on the value. A desk hears two votes of each lane in an
// epoch, and these again after a restart, so they are gone through for each lane and epoch. It takes no memory.
pub(crate) fn is_desk_idle(config: &Config, own: &[Vote], heard: &[Heard]) -> bool
    ensures { (submitted : List (List ℕ)) → IsTrue result ↔ IsIdle (desk_slots config.now submitted) own.now heard.now }
{
    for epoch in 0..config.epochs() {
        let owes = owes_in(config, epoch, own, heard);
        if owes {
            return false;
        }
    }
    true
}

// Whether a desk owes a vote in an epoch.
fn owes_in(config: &Config, epoch: u8, own: &[Vote], heard: &[Heard]) -> bool
    ensures { result ≡ owes_in config.now epoch own.now heard.now }
{
    owes_proposal(epoch, own)
        || owes_no_more(config, epoch, own, heard)
        || owes_closing(config, epoch, own, heard)
}

fn owes_proposal(epoch: u8, own: &[Vote]) -> bool
    ensures { result ≡ owes_proposal epoch own.now }
{
    !has_proposal(epoch, own) && is_open(epoch, own)
}

fn owes_no_more(config: &Config, epoch: u8, own: &[Vote], heard: &[Heard]) -> bool
    ensures { result ≡ owes_no_more config.now epoch own.now heard.now }
{
    let n = config.n();
    let f = config.f();
    prove!(f < n);
    !has_no_more(epoch, own) && n - f <= count_accepted(n, epoch, heard)
}

fn owes_closing(config: &Config, epoch: u8, own: &[Vote], heard: &[Heard]) -> bool
    ensures { result ≡ owes_closing config.now epoch own.now heard.now }
{
    !is_closed(epoch, own) && is_open(epoch, own) && are_known(config.n(), epoch, heard)
}

// The bit that this vote says the lane has decided.
fn decided_by(epoch: u8, lane: u8, said: &Heard) -> Option<bool>
    ensures { result ≡ claimed_by lane (decided epoch) said.now }
{
    if said.from != lane {
        return None;
    }
    match said.vote() {
        Vote::Decided { epoch: other, bit } if *other == epoch => Some(*bit),
        _ => None,
    }
}

// The first decision that was heard of a lane.
fn decision_of(epoch: u8, lane: u8, heard: &[Heard]) -> Option<bool>
    ensures { result ≡ decision_of epoch heard.now lane }
{
    for said in heard {
        let decision = decided_by(epoch, lane, said);
        if decision.is_some() {
            return decision;
        }
    }
    None
}

// Whether a delivery was heard of a lane.
fn has_delivered(epoch: u8, lane: u8, heard: &[Heard]) -> bool
    ensures { result ≡ heard_by heard.now lane (is_any_delivery epoch) }
{
    heard.iter().any(|said| said.from == lane && is_delivery(epoch, said.vote()))
}

fn is_delivery(epoch: u8, vote: &Vote) -> bool
    ensures { result ≡ is_any_delivery epoch vote.now }
{
    matches!(vote, Vote::Delivered { epoch: other, .. } if *other == epoch)
}

// How many of the lanes below n have decided 1.
fn count_accepted(n: u8, epoch: u8, heard: &[Heard]) -> u8
    ensures { result ≡ count_nodes n (λ j. is_bit true (decision_of epoch heard.now j)) }
{
    let mut count = 0u8;
    for lane in 0..n {
        if matches!(decision_of(epoch, lane, heard), Some(true)) {
            count += 1;
        }
    }
    count
}

// Whether it is known what a lane comes to.
fn is_known(epoch: u8, lane: u8, heard: &[Heard]) -> bool
    ensures { result ≡ is_known epoch heard.now lane }
{
    match decision_of(epoch, lane, heard) {
        Some(true) => has_delivered(epoch, lane, heard),
        Some(false) => true,
        None => false,
    }
}

// Whether it is known what each of the lanes below n comes to.
fn are_known(n: u8, epoch: u8, heard: &[Heard]) -> bool
    ensures { result ≡ is_some (accepted_below epoch heard.now n) }
{
    for lane in 0..n {
        let known = is_known(epoch, lane, heard);
        if !known {
            return false;
        }
    }
    true
}
