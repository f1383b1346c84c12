//! A caller of the texts, as a program is that prints both of a run. What it promises is proved by the contracts alone.

ghost use Rattle.std.specs.Prelude.{◌++◌};
ghost use Rattle.script_fault.specs.Line.{Writes};
ghost use Rattle.ledger_text.specs.Text.{run_text, soak_text};

use hb_base::{Failed, Sink};
use hb_rules::Report;
use ledger_text::{print_run, print_soak};
use std::alloc::Global;

/// Prints the text of a run, and behind it that of the generated run of this number. After an error a front of the two was
/// written.
#[tactic(auto, using(script_fault::proofs::Writing::writes_front))]
pub fn print_both<O: Sink>(
    alloc: Global,
    number: u64,
    report: &Report,
    out: &mut O,
) -> Result<(), Failed>
    ensures { Writes (O.held out.old) (O.held out.new) (O.faults out.old) (O.faults out.new) result (run_text report.now ++ soak_text number report.now) }
{
    print_run(alloc, report, out)?;
    print_soak(number, report, out)
}
