//! A whole run.
ghost use Rattle.std.specs.Prelude.{◌≡◌, IfOk};
ghost use Rattle.net_script.specs.Scenario.{told};
ghost use Rattle.net_script.specs.Sound.{IsScenario};
ghost use Rattle.ledger_run.specs.Run.{IsRunOf};

use crate::team::places_of;
use crate::voice::Voice;
use hb_base::Gate;
use hb_rules::{PlainBook, Report};
use net_script::Script;
use std::alloc::{AllocError, Global};
use step_driver::{Done, run_steps};

/// Runs a scenario on one thread until nothing is left to do: each actor of each correct node over a disk of its own in
/// memory, and at each node that lies the voice of the script's liar there. The voices are those of the script's liars, in
/// their order; where one is missing the liar says nothing. Before each delivery the gate is entered. The status of the report
/// is for the caller to set. Err is want of memory for what the run stands on; an actor that finds none ends with that fate.
pub fn run_script<G: Gate>(
    alloc: Global,
    script: Script,
    voices: Vec<Voice>,
    gate: &G,
) -> Result<Report, AllocError>
    requires scenario { IsScenario (told script) }
    ensures ran { IfOk result (IsRunOf script) }
{
    // what this call ensures says that the numbers of the run are sound
    let _sound = script.config.liars();
    let mut book = PlainBook::new(alloc, &script.config);
    let places = places_of(alloc, &script, voices, &mut book)?;
    let Done { history, ends } = run_steps(alloc, &script, places, book, gate)?;
    Ok(Report {
        config: script.config,
        script,
        history,
        ends,
        status: 255,
    })
}
