//! A law of verdicts. The function does nothing: what it ensures is the law.

ghost use Rattle.std.specs.Prelude.{◌≡◌, List, ◌++◌, length};
ghost use Rattle.hb_base.specs.Numbers.{Numbers};
ghost use Rattle.hb_wire.specs.declared.post.Post.{Post};
ghost use Rattle.hb_rules.specs.History.{IsLegal};
ghost use Rattle.hb_rules.specs.Strings.{NoCollision};
ghost use Rattle.history_verdict.specs.Verdicts.{IsVerdict};
ghost use Rattle.history_verdict.specs.declared.verdict.Verdict.{Verdict};
ghost use Rattle.history_verdict.specs.declared.verdict.Verdict.TheVariants.{Legal};

/// Where no two hashed strings share a digest, the verdict on a legal history is that it is: so it is exactly there, since
/// no other history has it. There a history has one verdict. What is so of a history is so of its beginnings.
pub fn verdict_laws()
    ensures legal { (c : Numbers) (history : List Post) (verdict : Verdict) → NoCollision c history → IsVerdict c history verdict → IsLegal c history
        → verdict ≡ Legal (length history) }
    ensures one { (c : Numbers) (history : List Post) (verdict other : Verdict) → NoCollision c history → IsVerdict c history verdict
        → IsVerdict c history other → verdict ≡ other }
    ensures beginnings { (c : Numbers) (history more : List Post) → NoCollision c (history ++ more) → NoCollision c history }
{}
