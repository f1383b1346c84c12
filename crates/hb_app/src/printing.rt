//! The texts of a run.

ghost use Rattle.std.specs.Prelude.{◌≡◌, ◌<◌, ◌^◌, length};
ghost use Rattle.hb_app.specs.declared.printing.PrintFault.TheVariants as faults;
ghost use Rattle.hb_app.specs.declared.task.Wanted.TheVariants.{Word};
ghost use Rattle.hb_app.specs.Printed.{Prints};
ghost use Rattle.hb_app.specs.Streams.{sink_view};

use crate::command::Text;
use crate::task::Wanted;
use accuse::accuse;
use accuse_text::print_accuse;
use hb_base::{Failed, Sink};
use hb_rules::Report;
use ledger_text::{print_run, print_soak};
use observer_text::{ObserveFault, print_observe};
use std::alloc::{AllocError, Global};
use trace_text::print_trace;

/// Why a text was not printed whole.
#[derive(Clone, Copy, Debug, PartialEq, Eq)]
pub enum PrintFault {
    /// A put failed. A front of the text was written.
    Sink,
    /// No memory was left for the text. Nothing was written.
    Memory,
}

impl From<Failed> for PrintFault {
    ghost from_gives = { λ _ e. e ≡ faults.Sink };

    fn from(_: Failed) -> Self {
        PrintFault::Sink
    }
}

impl From<AllocError> for PrintFault {
    ghost from_gives = { λ _ e. e ≡ faults.Memory };

    fn from(_: AllocError) -> Self {
        PrintFault::Memory
    }
}

/// Prints what is wanted of a run.
pub fn print<O: Sink>(
    alloc: Global,
    wanted: Wanted,
    report: &Report,
    out: &mut O,
) -> Result<(), PrintFault>
    requires { length report.now.history.items < 2 ^ 32 }
    ensures { Prints wanted report.now (sink_view O.held O.faults out.old) (sink_view O.held O.faults out.new) result }
{
    match wanted {
        Wanted::Word(text) => print_text(alloc, text, report, out),
        Wanted::Soaked(number) => Ok(print_soak(number, report, out)?),
    }
}

// Prints a text of a run.
fn print_text<O: Sink>(
    alloc: Global,
    text: Text,
    report: &Report,
    out: &mut O,
) -> Result<(), PrintFault>
    requires { length report.now.history.items < 2 ^ 32 }
    ensures { Prints (Word text) report.now (sink_view O.held O.faults out.old) (sink_view O.held O.faults out.new) result }
{
    match text {
        Text::Ledgers => Ok(print_run(alloc, report, out)?),
        Text::Trace => Ok(print_trace(report, out)?),
        Text::Observed => match print_observe(alloc, report, out) {
            Ok(()) => Ok(()),
            Err(ObserveFault::Sink) => Err(PrintFault::Sink),
            Err(ObserveFault::Memory) => Err(PrintFault::Memory),
        },
        Text::Accused => {
            let found = accuse(alloc, &report.config, report.history.as_slice())?;
            Ok(print_accuse(report, found.as_slice(), out)?)
        }
    }
}
