//! What a desk has heard of the lanes of its node.
ghost use Rattle.std.specs.Prelude.{◌≡◌, true};
ghost use Rattle.hb_rules.specs.Claims.{is_decision, is_delivery};
ghost use Rattle.hb_rules.specs.Hearing.{heard_by, count_shown};

use hb_rules::Heard;
use hb_wire::Vote;

fn is_decision(epoch: u8, bit: bool, vote: &Vote) -> bool
    ensures { result ≡ is_decision epoch bit vote.now }
{
    match vote {
        Vote::Decided {
            epoch: other,
            bit: decided,
        } => *other == epoch && *decided == bit,
        _ => false,
    }
}

fn is_delivery(epoch: u8, value: &[u8], vote: &Vote) -> bool
    ensures { result ≡ is_delivery epoch value.now vote.now }
{
    match vote {
        Vote::Delivered {
            epoch: other,
            value: delivered,
        } => *other == epoch && value == delivered.as_slice(),
        _ => false,
    }
}

// Whether a lane has decided this bit.
pub(crate) fn has_decided(epoch: u8, lane: u8, bit: bool, heard: &[Heard]) -> bool
    ensures { result ≡ heard_by heard.now lane (is_decision epoch bit) }
{
    heard.iter().any(|said| said.from == lane && is_decision(epoch, bit, said.vote()))
}

// Whether a lane has delivered this value.
pub(crate) fn has_delivered(epoch: u8, lane: u8, value: &[u8], heard: &[Heard]) -> bool
    ensures { result ≡ heard_by heard.now lane (is_delivery epoch value.now) }
{
    heard.iter().any(|said| said.from == lane && is_delivery(epoch, value, said.vote()))
}

// How many of the lanes below n have decided 1.
pub(crate) fn count_accepted(n: u8, epoch: u8, heard: &[Heard]) -> u8
    ensures { result ≡ count_shown n (heard_by heard.now) (is_decision epoch true) }
{
    let mut count = 0u8;
    for lane in 0..n {
        if has_decided(epoch, lane, true, heard) {
            count += 1;
        }
    }
    count
}
