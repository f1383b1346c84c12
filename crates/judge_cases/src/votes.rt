//! Votes that are read of their bytes, for the tables of what may be cast.
ghost use Rattle.std.specs.Prelude.{IfOk};
ghost use Rattle.hb_rules.specs.History.{HasSpelling};

use hb_base::Config;
use hb_wire::{Vote, read};
use std::alloc::Global;
use std::test::Fail;

/// The vote of these bytes.
pub(crate) fn vote_of(alloc: Global, config: &Config, bytes: &[u8]) -> Result<Vote, Fail>
    ensures { IfOk result (λ vote. HasSpelling config.now vote) }
{
    match read(alloc, config.n(), config.version(), bytes) {
        Ok(vote) => Ok(vote),
        Err(_) => Err("no vote".into()),
    }
}
