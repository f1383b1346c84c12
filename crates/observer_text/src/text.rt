//! The whole text.

ghost use Rattle.std.specs.Prelude.{◌≡◌};
ghost use Rattle.std.specs.List.{flat_map, range_with_len};
ghost use Rattle.script_fault.specs.Line.{Writes};
ghost use Rattle.observer.specs.Beside.{observed_beside, AreBeside};
ghost use Rattle.observer.specs.Standing.{ledger_of};
ghost use Rattle.observer_text.specs.Text.{observer_text, beside_text, observe_text, Prints};

use crate::fault::ObserveFault;
use crate::ledger::ObservedLedger;
use crate::lines::put_epochs;
use hb_base::{Failed, Sink};
use hb_rules::Report;
use ledger_text::{put_ledger, put_numbers, put_status};
use observer::{Observer, observers_beside};
use std::alloc::Global;

/// Prints the text of the observers of a run, one beside each node (CCS 2016, section 4), each line by one put: `observe nodes N
/// faulty F version V epochs E` of the report's config; for each node `observer I epochs C`, C being how many epochs the ledger
/// has that the observer has taken, and the lines of that ledger as in the text of a run; and `end S` with the report's status.
/// All observers are made before the first put.
pub fn print_observe<O: Sink>(
    alloc: Global,
    report: &Report,
    out: &mut O,
) -> Result<(), ObserveFault>
    ensures { Prints (O.held out.old) (O.held out.new) (O.faults out.old) (O.faults out.new) result (observe_text report.now) }
{
    let observers = observers_beside(alloc, report)?;
    put_text(alloc, report, observers.as_slice(), out)?;
    Ok(())
}

// Puts the text of these observers, which are those of the run.
#[tactic(auto, using(script_fault::proofs::Writing::writes_then, script_fault::proofs::Writing::writes_front), unfolding(crate::specs::Text::observe_text))]
fn put_text<O: Sink>(
    alloc: Global,
    report: &Report,
    observers: &[Observer],
    out: &mut O,
) -> Result<(), Failed>
    requires { AreBeside report.now report.now.config.n observers.now }
    ensures { Writes (O.held out.old) (O.held out.new) (O.faults out.old) (O.faults out.new) result (observe_text report.now) }
{
    put_numbers("observe", &report.config, out)?;
    put_observers(alloc, report, observers, out)?;
    put_status(report.status, out)
}

// Puts the observers in the order of their nodes.
fn put_observers<O: Sink>(
    alloc: Global,
    report: &Report,
    observers: &[Observer],
    out: &mut O,
) -> Result<(), Failed>
    requires { AreBeside report.now report.now.config.n observers.now }
    ensures { Writes (O.held out.old) (O.held out.new) (O.faults out.old) (O.faults out.new) result
        (flat_map (beside_text report.now) (range_with_len 0 report.now.config.n)) }
{
    for node in 0..report.config.n() {
        put_observer(alloc, node, &observers[node as usize], out)?;
    }
    Ok(())
}

// Puts the observer beside a node, with its ledger.
#[tactic(auto, using(script_fault::proofs::Writing::writes_then, script_fault::proofs::Writing::writes_front), unfolding(crate::specs::Text::observer_text))]
fn put_observer<O: Sink>(
    alloc: Global,
    node: u8,
    observer: &Observer,
    out: &mut O,
) -> Result<(), Failed>
    ensures { Writes (O.held out.old) (O.held out.new) (O.faults out.old) (O.faults out.new) result
        (observer_text node (ledger_of observer.now)) }
{
    put_epochs(node, observer.epochs(), out)?;
    put_ledger(alloc, &ObservedLedger { observer }, out)
}
