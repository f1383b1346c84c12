//! The whole text.

ghost use Rattle.script_fault.specs.Line.{Writes};
ghost use Rattle.trace_text.specs.Text.{posts_text, trace_text};

use crate::lines::{put_numbers, put_post};
use hb_base::{Failed, Sink};
use hb_rules::Report;
use hb_wire::Post;
use ledger_text::put_end;

/// Prints the text of a report's history: the numbers of its run, each post in order, and how many there are. A long line may
/// take several puts. It takes no memory. After an error a front of the text was written, and the sink's count of faults rose.
#[tactic(auto, using(script_fault::proofs::Writing::writes_then, script_fault::proofs::Writing::writes_front), unfolding(crate::specs::Text::trace_text))]
pub fn print_trace<O: Sink>(report: &Report, out: &mut O) -> Result<(), Failed>
    ensures { Writes (O.held out.old) (O.held out.new) (O.faults out.old) (O.faults out.new) result (trace_text report.now) }
{
    let posts = report.history.as_slice();
    put_numbers(&report.config, out)?;
    put_posts(posts, out)?;
    put_end(posts.len() as u64, out)
}

// Puts the lines of posts, numbered from 0 on.
fn put_posts<O: Sink>(posts: &[Post], out: &mut O) -> Result<(), Failed>
    ensures { Writes (O.held out.old) (O.held out.new) (O.faults out.old) (O.faults out.new) result (posts_text 0 posts.now) }
{
    for k in 0..posts.len() {
        put_post(k as u64, &posts[k], out)?;
    }
    Ok(())
}
