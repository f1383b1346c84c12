//! The lists of a scenario.
ghost use Rattle.std.specs.Prelude.{◌≡◌, ◌≤◌, IfOk};
ghost use Rattle.serde_json.specs.View.{view};
ghost use Rattle.script_reader.specs.Fault.{Gives};
ghost use Rattle.script_reader.specs.Bounds.{AreListed};
ghost use Rattle.script_reader.specs.Reading.{listed, lists_at};

use crate::liars::liars_at;
use crate::links::links_at;
use crate::stops::{CallAt, StopAt, faults_at, stops_at};
use crate::submits::submits_at;
use hb_base::LiarName;
use net_script::{LiarAt, Link, Submit};
use script_fault::ScriptFault;
use serde_json::Value;
use std::alloc::Global;

// The lists of a scenario, as they were read.
#[derive(Drop)]
pub(crate) struct Lists {
    pub(crate) submit: Vec<Submit>,
    pub(crate) liars: Vec<LiarAt>,
    pub(crate) links: Vec<Link>,
    pub(crate) stops: Vec<StopAt>,
    pub(crate) faults: Vec<CallAt>,
}

#[tactic(auto, unfolding(crate::specs::Reading::lists_at))]
pub(crate) fn lists_at(
    alloc: Global,
    value: &Value,
    n: u8,
    f: u8,
    cast: &[LiarName],
) -> Result<Lists, ScriptFault>
    requires { 1 ≤ n }
    ensures gives { Gives listed result (lists_at n f cast.now (view value.now)) }
    ensures sound { IfOk result (AreListed n f) }
{
    let submit = submits_at(alloc, value, n)?;
    let liars = liars_at(alloc, value, n, f, cast)?;
    let links = links_at(alloc, value, n)?;
    let stops = stops_at(alloc, value, n)?;
    let faults = faults_at(alloc, value, n)?;
    Ok(Lists {
        submit,
        liars,
        links,
        stops,
        faults,
    })
}
