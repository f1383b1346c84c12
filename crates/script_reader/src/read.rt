//! A scenario from bytes.
ghost use Rattle.std.specs.Prelude.{◌≡◌, ◌≤◌, ◌<◌, ◌*◌, ℕ, true, IfOk, ok_or};
ghost use Rattle.serde_json.specs.View.{view};
ghost use Rattle.hb_base.specs.NodeSet.{is_in};
ghost use Rattle.hb_base.specs.Numbers.{numbers};
ghost use Rattle.script_fault.specs.declared.fault.ScriptFault.TheVariants.{NotJson};
ghost use Rattle.script_reader.specs.Fault.{Gives};
ghost use Rattle.net_script.specs.Scenario.{told};
ghost use Rattle.net_script.specs.Sound.{IsScenario};
ghost use Rattle.script_reader.specs.Bounds.{HasAtMost, AreBounded, AreListed};
ghost use Rattle.script_reader.specs.Reading.{listed, scenario, scenario_at, json_of, scenario_of};

use crate::lists::{Lists, lists_at};
use crate::plans::{nodes_of, plans_of};
use crate::top::{Head, Sizes, head_at};
use hb_base::limits::LONGEST_SCENARIO;
use hb_base::{Config, LiarName, NodeSet};
use net_script::Script;
use script_fault::ScriptFault;
use serde_json::Value;
use std::alloc::Global;

/// Reads a scenario: at most 1,048,576 bytes in UTF-8 that are one JSON object (RFC 8259), whose liars are boxes of a
/// cast with these names. The answer is the scenario that the bytes spell, or the first of their faults, or `Memory`.
#[tactic(auto, unfolding(crate::specs::Reading::scenario_of))]
pub fn read_script(alloc: Global, bytes: &[u8], cast: &[LiarName]) -> Result<Script, ScriptFault>
    ensures gives { Gives told result (scenario_of bytes.now cast.now) }
    ensures sound { IfOk result (λ script. IsScenario (told script)) }
{
    if bytes.len() > LONGEST_SCENARIO {
        return Err(ScriptFault::TooLong);
    }
    let value = json_of(alloc, bytes)?;
    script_at(alloc, &value, cast)
}

#[tactic(auto, using(crate::proofs::Texts::json_of_text, crate::proofs::Texts::json_of_no_text))]
fn json_of(alloc: Global, bytes: &[u8]) -> Result<Value, ScriptFault>
    ensures { Gives view result (ok_or (json_of bytes.now) NotJson) }
{
    let Ok(text) = str::from_utf8(bytes) else {
        return Err(ScriptFault::NotJson);
    };
    match Value::from_str(alloc, text) {
        Ok(value) => Ok(value),
        Err(error) if error.is_memory() => Err(ScriptFault::Memory),
        Err(_) => Err(ScriptFault::NotJson),
    }
}

#[tactic(auto, unfolding(crate::specs::Reading::scenario_at))]
fn script_at(alloc: Global, value: &Value, cast: &[LiarName]) -> Result<Script, ScriptFault>
    ensures gives { Gives told result (scenario_at cast.now (view value.now)) }
    ensures sound { IfOk result (λ script. IsScenario (told script)) }
{
    let head = head_at(alloc, value)?;
    let lists = lists_at(alloc, value, head.sizes.nodes, head.sizes.faulty, cast)?;
    script_of(alloc, head, lists)
}

// The script of what was read.
#[tactic(auto, unfolding(crate::specs::Reading::scenario))]
fn script_of(alloc: Global, head: Head, lists: Lists) -> Result<Script, ScriptFault>
    requires bounded { AreBounded head.sizes }
    requires enough { 3 * head.sizes.faulty < head.sizes.nodes }
    requires listed { AreListed head.sizes.nodes head.sizes.faulty lists }
    ensures gives { Gives told result (Ok (scenario head (listed lists))) }
    ensures sound { IfOk result (λ script. IsScenario (told script)) }
{
    let sizes = head.sizes;
    let nodes = nodes_of(sizes.nodes, lists.liars.as_slice());
    let plans = plans_of(alloc, sizes.nodes, &nodes, &lists)?;
    Ok(Script {
        config: config_of(sizes, nodes),
        workers: sizes.workers,
        order: head.order,
        submit: lists.submit,
        liars: lists.liars,
        links: lists.links,
        plans,
    })
}

fn config_of(sizes: Sizes, liars: NodeSet) -> Config
    requires bounded { AreBounded sizes }
    requires enough { 3 * sizes.faulty < sizes.nodes }
    requires known { (node : ℕ) → is_in liars node ≡ true → node < sizes.nodes }
    requires few { HasAtMost sizes.faulty liars }
    ensures { result ≡ numbers sizes.nodes sizes.faulty sizes.epochs sizes.rounds sizes.batch sizes.seed sizes.version liars }
{
    Config::new(
        sizes.nodes,
        sizes.faulty,
        sizes.epochs,
        sizes.rounds,
        sizes.batch,
        sizes.seed,
        sizes.version,
        liars,
    )
    .unwrap()
}
