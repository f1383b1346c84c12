//! Laws of audits.

ghost use Rattle.std.specs.Prelude.{◌≡◌, ℕ, ◌≤◌, List, Some, Result, All, length};
ghost use Rattle.hb_base.specs.Numbers.{Numbers};
ghost use Rattle.hb_wire.specs.declared.post.Post.{Post};
ghost use Rattle.hb_rules.specs.declared.report.Report.{Report};
ghost use Rattle.hb_rules.specs.History.{IsLegal};
ghost use Rattle.hb_rules.specs.Strings.{NoCollision};
ghost use Rattle.input_reader.specs.Streams.{SourceView};
ghost use Rattle.history_verdict.specs.declared.verdict.Verdict.{Verdict};
ghost use Rattle.history_verdict.specs.Verdicts.{IsVerdict};
ghost use Rattle.trace_text.specs.Text.{trace_text};
ghost use Rattle.trace_reader.specs.declared.fault.TraceFault.{TraceFault};
ghost use Rattle.trace_reader.specs.Trace.{longest_trace, IsConfig, IsPost, IsTrace};
ghost use Rattle.trace_audit.specs.Audits.{HasVerdict, Audits, FindsLegal};

use history_verdict::verdict_laws;

/// The verdict on a text is that on the run and the posts that it is the text of, and on no others. What is printed of a report
/// whose history is legal is found legal, with the number of its posts, if it is short enough to be read and no two hashed
/// strings share a digest: an audit of it ends otherwise only for want of memory, or since a take failed.
pub fn audit_laws()
    ensures one { (bytes : List ℕ) (c : Numbers) (posts : List Post) (verdict : Verdict) → IsTrace bytes c posts → HasVerdict bytes verdict
        → IsVerdict c posts verdict }
    ensures printed { (report : Report) (old new : SourceView) (answer : Result Verdict TraceFault)
        → IsConfig report.config → All IsPost report.history.items → length (trace_text report) ≤ longest_trace
        → IsLegal report.config report.history.items → NoCollision report.config report.history.items
        → old.left ≡ Some (trace_text report) → Audits old new answer → FindsLegal (length report.history.items) answer }
{
    // what this call ensures are the laws of verdicts
    verdict_laws();
}
