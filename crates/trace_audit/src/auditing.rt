//! The audit of a text out of a source.

ghost use Rattle.std.specs.Prelude.{◌≡◌, ℕ, ◌+◌, ◌≤◌, List, length, Some, IfOk};
ghost use Rattle.hb_base.specs.Limits.{most_posts};
ghost use Rattle.hb_base.specs.Numbers.{Numbers};
ghost use Rattle.hb_wire.specs.declared.post.Post.{Post};
ghost use Rattle.input_reader.specs.Streams.{TakesAtMost, source_view};
ghost use Rattle.history_verdict.specs.Verdicts.{IsVerdict};
ghost use Rattle.trace_reader.specs.Trace.{longest_trace, IsTrace};
ghost use Rattle.trace_audit.specs.Audits.{Audits, IsRightOn};

use hb_base::Source;
use history_verdict::{Verdict, judge_all, verdict_laws};
use post_judge::HistoryJudge;
use std::alloc::{AllocError, Global};
use trace_reader::{Trace, TraceFault, read_trace};

/// Reads the text of a history to its end, and says whether the history is legal, or else which is its first post that may not
/// follow those before it. The whole text is read before the first post is judged. It takes one byte more than `LONGEST_TRACE` at
/// most, and leaves the rest unread. Errors are those of `read_trace`, in the same order, and `Memory` also where there is none
/// to judge the posts. Where a source tells that it has the text of a run and posts, short enough to be read, the answer is on
/// them.
pub fn audit<S: Source>(alloc: Global, source: &mut S) -> Result<Verdict, TraceFault>
    ensures audited { Audits (source_view S.left S.faults source.old) (source_view S.left S.faults source.new) result }
    ensures right { (input : List ℕ) (c : Numbers) (posts : List Post) → S.left source.old ≡ Some input → length input ≤ longest_trace
        → IsTrace input c posts → IsRightOn c posts result }
    ensures taken { TakesAtMost (longest_trace + 1) (source_view S.left S.faults source.old) (source_view S.left S.faults source.new) }
{
    // what this call ensures are the laws of verdicts
    verdict_laws();
    let trace = read_trace(alloc, source)?;
    Ok(verdict_on(alloc, &trace)?)
}

// The verdict on what a text tells.
fn verdict_on(alloc: Global, trace: &Trace) -> Result<Verdict, AllocError>
    requires short { length trace.now.posts.items ≤ most_posts }
    ensures { IfOk result (IsVerdict trace.now.config trace.now.posts.items) }
{
    let mut judge = HistoryJudge::new(alloc, &trace.config)?;
    judge_all(&mut judge, trace.posts.as_slice())
}
