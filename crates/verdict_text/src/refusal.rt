//! The line that tells why a text is not audited.

ghost use Rattle.std.specs.Prelude.{◌≡◌, ◌≤◌, ◌++◌, length};
ghost use Rattle.script_fault.specs.Line.{Writes};
ghost use Rattle.verdict_text.specs.Text.{refusal_words, refusal_line};

use hb_base::{Failed, Sink};
use ledger_text::add_count;
use script_fault::Line;
use trace_reader::TraceFault;

/// Writes the line that tells why there is no trace to audit, by one put: `refused`, the number of the refusal, its name and the
/// line that breaks the form. It takes no memory. After an error a front of the line was written, and the sink's count of faults
/// rose.
#[tactic(auto, unfolding(crate::specs::Text::refusal_line))]
pub fn write_refusal<O: Sink>(fault: TraceFault, out: &mut O) -> Result<(), Failed>
    ensures { Writes (O.held out.old) (O.held out.new) (O.faults out.old) (O.faults out.new) result (refusal_line fault) }
{
    let mut line = Line::new();
    add_words(&mut line, fault);
    line.text("\n");
    out.put(line.as_slice())
}

// Appends the words of a refusal.
#[tactic(auto, unfolding(crate::specs::Text::refusal_words))]
fn add_words(line: &mut Line, fault: TraceFault)
    requires { length line.old ≡ 0 }
    ensures value { line.new ≡ line.old ++ refusal_words fault }
    ensures room { length line.new ≤ 100 }
{
    match fault {
        TraceFault::ReadFault => line.text("read failed"),
        TraceFault::TooLong => line.text("refused 21 TooLongTrace"),
        TraceFault::NotATrace { line: number } => {
            add_count(line, "refused 20 NotATrace line=", u64::from(number))
        }
        TraceFault::Memory => line.text("no memory"),
    }
}
