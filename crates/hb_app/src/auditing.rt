//! What is told of the text of a history, and the statuses that go with it.

ghost use Rattle.std.specs.Prelude.{◌≡◌, Ok};
ghost use Rattle.hb_app.specs.Audited.{EndsAudit, verdict_status};
ghost use Rattle.hb_app.specs.Streams.{PutsOr7, sink_view};
ghost use Rattle.verdict_text.specs.Text.{refusal_line};

use crate::telling::{NO_MEMORY, READ_FAILED, WRITE_FAILED, hint, tell};
use hb_base::Sink;
use history_verdict::Verdict;
use trace_reader::TraceFault;
use verdict_text::{print_verdict, write_refusal};

/// Prints a verdict, or tells why there is none, and answers the status.
pub fn tell_audit<O: Sink, E: Sink>(
    answer: Result<Verdict, TraceFault>,
    out: &mut O,
    err: &mut E,
) -> u8
    ensures { EndsAudit answer (sink_view O.held O.faults out.old) (sink_view O.held O.faults out.new)
        (sink_view E.held E.faults err.old) (sink_view E.held E.faults err.new) result }
{
    match answer {
        Ok(verdict) => tell_verdict(verdict, out, err),
        Err(TraceFault::ReadFault) => tell(READ_FAILED, 6, err),
        Err(TraceFault::Memory) => hint(NO_MEMORY, 9, err),
        Err(TraceFault::TooLong) => tell_refusal(TraceFault::TooLong, err),
        Err(TraceFault::NotATrace { line }) => tell_refusal(TraceFault::NotATrace { line }, err),
    }
}

// Prints a verdict and answers its status, or 7 if that fails.
fn tell_verdict<O: Sink, E: Sink>(verdict: Verdict, out: &mut O, err: &mut E) -> u8
    ensures { EndsAudit (Ok verdict) (sink_view O.held O.faults out.old) (sink_view O.held O.faults out.new)
        (sink_view E.held E.faults err.old) (sink_view E.held E.faults err.new) result }
{
    match print_verdict(verdict, out) {
        Ok(()) => status_of(verdict),
        Err(_) => hint(WRITE_FAILED, 7, err),
    }
}

fn status_of(verdict: Verdict) -> u8
    ensures { result ≡ verdict_status verdict }
{
    match verdict {
        Verdict::Legal { .. } => 0,
        Verdict::Illegal { .. } => 8,
    }
}

// Tells why there is no trace and answers 3, or 7 if that fails.
fn tell_refusal<E: Sink>(fault: TraceFault, err: &mut E) -> u8
    ensures { PutsOr7 (sink_view E.held E.faults err.old) (sink_view E.held E.faults err.new) (refusal_line fault) 3 result }
{
    match write_refusal(fault, err) {
        Ok(()) => 3,
        Err(_) => 7,
    }
}
