//! The line of a verdict.

ghost use Rattle.script_fault.specs.Line.{Writes};
ghost use Rattle.verdict_text.specs.Text.{verdict_line};

use hb_base::{Failed, Sink};
use history_verdict::Verdict;
use ledger_text::add_count;
use script_fault::Line;

/// Prints a verdict by one put: `legal P` with the number of posts, or `illegal K` with the number of the first post that may not
/// follow those before it, counted from 0. It takes no memory. After an error a front of the line was written, and the sink's
/// count of faults rose.
#[tactic(auto, unfolding(crate::specs::Text::verdict_line))]
pub fn print_verdict<O: Sink>(verdict: Verdict, out: &mut O) -> Result<(), Failed>
    ensures { Writes (O.held out.old) (O.held out.new) (O.faults out.old) (O.faults out.new) result (verdict_line verdict) }
{
    let (word, number) = match verdict {
        Verdict::Legal { posts } => ("legal ", posts),
        Verdict::Illegal { post } => ("illegal ", post),
    };
    let mut line = Line::new();
    add_count(&mut line, word, u64::from(number));
    line.text("\n");
    out.put(line.as_slice())
}
