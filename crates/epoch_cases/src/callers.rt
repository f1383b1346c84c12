//! A caller of a desk's epochs. What it promises is proved by the contracts alone.

ghost use Rattle.std.specs.Prelude.{◌<◌, OnOk};
ghost use Rattle.hb_rules.specs.Hearing.{hearing};
ghost use Rattle.epoch_core.specs.Epochs.{has_started};
ghost use Rattle.epoch_cases.specs.Heard.{HearsTwo};

use epoch_core::Epochs;
use hb_rules::Due;
use hb_wire::Vote;
use std::alloc::{AllocError, Global};

/// Hears two votes of a lane, the second where the first was heard, and adds the votes that they make due.
#[tactic(auto, using(crate::proofs::Heard::hears_two))]
pub fn hear_two(
    alloc: Global,
    desk: &mut Epochs,
    lane: u8,
    first: &Vote,
    second: &Vote,
    due: &mut Due,
) -> Result<(), AllocError>
    requires lane { lane < desk.old.config.n }
    requires started { has_started desk.old }
    ensures started { OnOk result (has_started desk.new) }
    ensures heard { OnOk result (HearsTwo desk.old desk.new (hearing lane first.now) (hearing lane second.now) due.old.votes due.new.votes) }
{
    desk.hear(alloc, lane, first, due)?;
    desk.hear(alloc, lane, second, due)
}
