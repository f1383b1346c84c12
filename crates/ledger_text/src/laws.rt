//! What the texts say: of the ledger that is printed, and of the tests of a generated run.

ghost use Rattle.std.specs.Prelude.{◌≡◌, ◌↔◌, ℕ, List, IsTrue, map};
ghost use Rattle.hb_base.specs.Numbers.{Numbers};
ghost use Rattle.hb_wire.specs.declared.post.Post.{Post};
ghost use Rattle.hb_rules.specs.Ledger.{ledger, AreComparable, BatchesAreEnough, AreUnaltered};
ghost use Rattle.acs_world.specs.Closures.{closures};
ghost use Rattle.acs_world.specs.Prefixes.{all_alike};
ghost use Rattle.ledger_text.specs.Text.{all_enough, all_unaltered};

/// The lists that the text of a run has of a correct node are those of the node's ledger.
pub fn ledger_laws()
    ensures { (c : Numbers) (posts : List Post) (i : ℕ) → map (λ closure. closure.1) (closures c posts i) ≡ ledger c posts i }
{}

/// The text of a generated run has a yes exactly where of any two correct nodes' ledgers one begins with the other, where each
/// list of a correct node's ledger has batches enough, and where what it has of a correct node is what that node's desk
/// proposed.
pub fn soak_laws()
    ensures comparable { (c : Numbers) (posts : List Post) → IsTrue (all_alike c posts) ↔ AreComparable c posts }
    ensures batches { (c : Numbers) (posts : List Post) → IsTrue (all_enough c posts) ↔ BatchesAreEnough c posts }
    ensures unaltered { (c : Numbers) (posts : List Post) → IsTrue (all_unaltered c posts) ↔ AreUnaltered c posts }
{}
