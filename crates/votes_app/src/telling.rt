//! The lines that are told on the error sink, and the statuses that go with them.

ghost use Rattle.std.specs.Prelude.{◌≡◌};
ghost use Rattle.trace_reader.specs.declared.fault.TraceFault.{TraceFault};
ghost use Rattle.verdict_text.specs.Text.{refusal_line};
ghost use Rattle.votes_app.specs.Answers.{Tells};
ghost use Rattle.votes_app.specs.Streams.{PutsOrFails, PutsOr7, sink_view};

use crate::fault::VotesFault;
use hb_base::Sink;
use trace_reader::TraceFault;
use verdict_text::write_refusal;

/// What `hb_votes` says of words that it doesn't know.
pub const USAGE: &[u8; 25] = b"usage: hb_votes [--full]\n";

/// What it says where the input can't be read.
pub const READ_FAILED: &[u8; 12] = b"read failed\n";

/// What a program may say where the output can't be written. `votes_main` does not.
pub const WRITE_FAILED: &[u8; 13] = b"write failed\n";

/// What `hb_votes` says for want of memory, on its error sink.
pub const NO_MEMORY: &[u8; 10] = b"no memory\n";

/// Tells what a call came to, and answers the status.
pub fn tell_answer<E: Sink>(answer: Result<(), VotesFault>, err: &mut E) -> u8
    ensures { Tells answer (sink_view E.held E.faults err.old) (sink_view E.held E.faults err.new) result }
{
    match answer {
        Ok(()) => 0,
        Err(VotesFault::ReadFault) => tell(READ_FAILED, 6, err),
        Err(VotesFault::TooLong) => tell_refusal(TraceFault::TooLong, err),
        Err(VotesFault::NotATrace { line }) => tell_refusal(TraceFault::NotATrace { line }, err),
        Err(VotesFault::Memory) => hint(NO_MEMORY, 9, err),
        Err(VotesFault::WriteFault) => 7,
    }
}

/// Tells a line and answers a status, or 7 if that fails.
pub fn tell<E: Sink>(line: &[u8], status: u8, err: &mut E) -> u8
    ensures { PutsOr7 (sink_view E.held E.faults err.old) (sink_view E.held E.faults err.new) line.now status result }
{
    match err.put(line) {
        Ok(()) => status,
        Err(_) => 7,
    }
}

// Tells why there is no history and answers 3, or 7 if that fails.
fn tell_refusal<E: Sink>(fault: TraceFault, err: &mut E) -> u8
    ensures { PutsOr7 (sink_view E.held E.faults err.old) (sink_view E.held E.faults err.new) (refusal_line fault) 3 result }
{
    match write_refusal(fault, err) {
        Ok(()) => 3,
        Err(_) => 7,
    }
}

// Tells a line if that works, and answers a status.
#[tactic(auto, using(crate::proofs::Puts::puts_or_fails))]
fn hint<E: Sink>(line: &[u8], status: u8, err: &mut E) -> u8
    ensures status { result ≡ status }
    ensures line { PutsOrFails (sink_view E.held E.faults err.old) (sink_view E.held E.faults err.new) line.now }
{
    let _told = err.put(line);
    status
}
