//! Laws of the texts of histories.

ghost use Rattle.std.specs.Prelude.{◌≡◌, ℕ, List, All};
ghost use Rattle.hb_base.specs.Numbers.{Numbers};
ghost use Rattle.hb_wire.specs.declared.post.Post.{Post};
ghost use Rattle.hb_rules.specs.declared.report.Report.{Report};
ghost use Rattle.trace_text.specs.Text.{trace_text};
ghost use Rattle.trace_reader.specs.Trace.{IsConfig, IsPost, IsTrace, BreaksAt};

/// What is printed of a report, if its numbers and posts are such as a text holds, is the text of its run and its posts. A text
/// is that of one run and one list of posts. Of other bytes one line is the first that breaks the form.
pub fn trace_laws()
    ensures printed { (report : Report) → IsConfig report.config → All IsPost report.history.items → IsTrace (trace_text report) report.config report.history.items }
    ensures one { (bytes : List ℕ) (c d : Numbers) (posts others : List Post) → IsTrace bytes c posts → IsTrace bytes d others → (c ≡ d) × (posts ≡ others) }
    ensures line { (bytes : List ℕ) (a b : ℕ) → BreaksAt bytes a → BreaksAt bytes b → a ≡ b }
{}
