//! The whole texts.

ghost use Rattle.std.specs.Prelude.{◌≡◌};
ghost use Rattle.script_fault.specs.Line.{Writes};
ghost use Rattle.ledger_text.specs.Text.{run_text, soak_text};

use crate::lines::{put_answer, put_numbers, put_soak, put_status};
use crate::nodes::put_nodes;
use acs_world::{batches_ok, comparable, unaltered};
use hb_base::{Failed, Sink};
use hb_rules::Report;
use std::alloc::Global;

/// Prints the text of a run, each line by one put: what the run was, each node with its ledger, and the status. Want of memory
/// makes it slower and changes nothing. After an error a front of the text was written, and the sink's count of faults rose.
#[tactic(auto, using(script_fault::proofs::Writing::writes_then, script_fault::proofs::Writing::writes_front), unfolding(crate::specs::Text::run_text))]
pub fn print_run<O: Sink>(alloc: Global, report: &Report, out: &mut O) -> Result<(), Failed>
    ensures { Writes (O.held out.old) (O.held out.new) (O.faults out.old) (O.faults out.new) result (run_text report.now) }
{
    put_numbers("run", &report.config, out)?;
    put_nodes(alloc, report, out)?;
    put_status(report.status, out)
}

/// Prints the text of a run of this number, each line by one put: what the run was, whether the ledgers are comparable, have
/// batches enough and are unaltered, and the status. It takes no memory. After an error a front of the text was written, and
/// the sink's count of faults rose.
#[tactic(auto, using(script_fault::proofs::Writing::writes_then, script_fault::proofs::Writing::writes_front), unfolding(crate::specs::Text::soak_text))]
pub fn print_soak<O: Sink>(number: u64, report: &Report, out: &mut O) -> Result<(), Failed>
    ensures { Writes (O.held out.old) (O.held out.new) (O.faults out.old) (O.faults out.new) result (soak_text number report.now) }
{
    put_soak(number, &report.config, report.script.workers, out)?;
    put_answer("comparable", comparable(report), out)?;
    put_answer("batches", batches_ok(report), out)?;
    put_answer("unaltered", unaltered(report), out)?;
    put_status(report.status, out)
}
