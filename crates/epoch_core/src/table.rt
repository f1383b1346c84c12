ghost use Rattle.std.specs.Prelude.{◌≡◌, ℕ, ◌<◌, ◌≤◌, IfOk, OnErr};
ghost use Rattle.std.specs.Option.{option_map};
ghost use Rattle.hb_base.specs.Numbers.{Numbers};
ghost use Rattle.hb_wire.specs.declared.vote.Vote.TheVariants.{Closed};
ghost use Rattle.hb_rules.specs.Hearing.{hearing};
ghost use Rattle.acs_core.specs.Shown.{accepted_of};
ghost use Rattle.acs_core.specs.Subset.{node_epoch_of, fresh};
ghost use Rattle.epoch_core.specs.Tables.{acs_of, HearsOne};

use acs_core::Acs;
use hb_base::Config;
use hb_rules::Due;
use hb_wire::Vote;
use std::alloc::{AllocError, Global};

// What a desk has of an epoch: its common subset, from the first vote on that is heard of the epoch.
#[derive(Debug, Drop)]
pub(crate) enum Table {
    // Nothing was heard. Whether NoMore of the epoch is cast.
    Unheard(bool),
    Heard(Acs),
}

impl Table {
    // Hears a vote of a lane. Whether NoMore becomes due. Want of memory changes nothing.
    pub(crate) fn hear(
        &mut self,
        alloc: Global,
        config: &Config,
        node: u8,
        epoch: u8,
        lane: u8,
        vote: &Vote,
    ) -> Result<bool, AllocError>
        requires node_epoch { node_epoch_of (acs_of config.now node epoch self.old) ≡ record { config = config.now; node = node; epoch = epoch } }
        requires lane { lane < config.now.n }
        ensures ok { IfOk result (λ is_due.
            HearsOne (acs_of config.now node epoch self.old) (acs_of config.now node epoch self.new) (hearing lane vote.now) is_due) }
        ensures err { OnErr result (self.new ≡ self.old) }
    {
        match self {
            Table::Heard(acs) => hear_at(alloc, acs, lane, vote),
            Table::Unheard(is_no_more_cast) => {
                let mut acs = untouched(alloc, config, node, epoch, *is_no_more_cast)?;
                let is_due = hear_at(alloc, &mut acs, lane, vote)?;
                *self = Table::Heard(acs);
                Ok(is_due)
            }
        }
    }

    // The vote that closes the epoch, once its common subset is complete.
    pub(crate) fn closed(&self) -> Result<Option<Vote>, AllocError>
        ensures { IfOk result (λ vote. (c : Numbers) (i e : ℕ) → 1 ≤ c.n
            → node_epoch_of (acs_of c i e self.now) ≡ record { config = c; node = i; epoch = e }
            → vote ≡ option_map (Closed e) (accepted_of (acs_of c i e self.now).lanes c.n)) }
    {
        match self {
            Table::Heard(acs) => acs.closed(),
            Table::Unheard(_) => Ok(None),
        }
    }
}

// Hears a vote of a lane in its epoch. Whether NoMore becomes due.
fn hear_at(alloc: Global, acs: &mut Acs, lane: u8, vote: &Vote) -> Result<bool, AllocError>
    requires { lane < (node_epoch_of acs.old).config.n }
    ensures ok { IfOk result (λ is_due. HearsOne acs.old acs.new (hearing lane vote.now) is_due) }
    ensures err { OnErr result (acs.new ≡ acs.old) }
{
    let mut due = Due::new(alloc);
    acs.hear(lane, vote, &mut due)?;
    Ok(!due.votes().is_empty())
}

// The common subset of an epoch of which nothing was heard.
fn untouched(
    alloc: Global,
    config: &Config,
    node: u8,
    epoch: u8,
    is_no_more_cast: bool,
) -> Result<Acs, AllocError>
    ensures { IfOk result (λ acs. acs ≡ fresh config.now node epoch is_no_more_cast) }
{
    if is_no_more_cast {
        Acs::rebuild(alloc, config, node, epoch, &[Vote::NoMore { epoch }])
    } else {
        Acs::rebuild(alloc, config, node, epoch, &[])
    }
}
