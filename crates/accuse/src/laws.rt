//! A law of accusations. The function does nothing: what it ensures is the law.

ghost use Rattle.std.specs.Prelude.{◌≡◌, true, List, Contains};
ghost use Rattle.hb_base.specs.NodeSet.{is_in};
ghost use Rattle.hb_base.specs.Numbers.{Numbers, AreSound};
ghost use Rattle.hb_rules.specs.History.{IsLegal};
ghost use Rattle.hb_wire.specs.declared.post.Post.{Post};
ghost use Rattle.accuse.specs.declared.accusation.Accusation.{Accusation};
ghost use Rattle.accuse.specs.Accused.{accused};

/// In a legal history only liars are accused, whatever strings share a digest.
pub fn accuse_laws()
    ensures { (c : Numbers) (history : List Post) → AreSound c → IsLegal c history → (a : Accusation) → Contains (accused c history) a
        → is_in c.liars a.node ≡ true }
{}
