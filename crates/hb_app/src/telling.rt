//! The lines that are told on the error sink, and the statuses that go with them.

ghost use Rattle.std.specs.Prelude.{◌≡◌};
ghost use Rattle.script_fault.specs.Line.{fault_line};
ghost use Rattle.hb_app.specs.Ends.{AnswersRun, EndsUnread};
ghost use Rattle.hb_app.specs.Streams.{PutsOrFails, PutsOr7, sink_view};

use crate::reading::Unread;
use hb_base::Sink;
use script_fault::{ScriptFault, write_fault};

/// What `hb_ledger` says of words that it doesn't know.
pub const USAGE: &[u8; 55] = b"usage: hb_ledger run|soak N|trace|audit|observe|accuse\n";

/// What it says where the input can't be read.
pub const READ_FAILED: &[u8; 12] = b"read failed\n";

/// What it says where the output can't be written.
pub const WRITE_FAILED: &[u8; 13] = b"write failed\n";

/// What `hb_ledger` says for want of memory, on its error sink.
pub const NO_MEMORY: &[u8; 10] = b"no memory\n";

/// Tells why there is no scenario, and answers the status.
pub fn tell_unread<E: Sink>(unread: &Unread, err: &mut E) -> u8
    ensures { EndsUnread unread.now (sink_view E.held E.faults err.old) (sink_view E.held E.faults err.new) result }
{
    match unread {
        Unread::Refused(fault) => tell_fault(fault, err),
        Unread::ReadFailed => tell(READ_FAILED, 6, err),
        Unread::Memory => hint(NO_MEMORY, 9, err),
    }
}

/// Tells a line and answers a status, or 7 if that fails.
pub fn tell<E: Sink>(line: &[u8], status: u8, err: &mut E) -> u8
    ensures { PutsOr7 (sink_view E.held E.faults err.old) (sink_view E.held E.faults err.new) line.now status result }
{
    match err.put(line) {
        Ok(()) => status,
        Err(_) => 7,
    }
}

// Tells a fault of the input and answers 3, or 7 if that fails.
fn tell_fault<E: Sink>(fault: &ScriptFault, err: &mut E) -> u8
    ensures { PutsOr7 (sink_view E.held E.faults err.old) (sink_view E.held E.faults err.new) (fault_line fault.now) 3 result }
{
    match write_fault(fault, err) {
        Ok(()) => 3,
        Err(_) => 7,
    }
}

/// Answers a run's status, and tells that there was no memory if that is what it says.
pub fn answer<E: Sink>(run: u8, err: &mut E) -> u8
    ensures { AnswersRun run (sink_view E.held E.faults err.old) (sink_view E.held E.faults err.new) result }
{
    if run == 9 {
        hint(NO_MEMORY, 9, err)
    } else {
        run
    }
}

/// Tells a line if that works, and answers a status.
#[tactic(auto, using(crate::proofs::Puts::puts_or_fails))]
pub fn hint<E: Sink>(line: &[u8], status: u8, err: &mut E) -> u8
    ensures status { result ≡ status }
    ensures line { PutsOrFails (sink_view E.held E.faults err.old) (sink_view E.held E.faults err.new) line.now }
{
    let _told = err.put(line);
    status
}
