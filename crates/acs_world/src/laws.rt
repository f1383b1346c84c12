//! Laws of the common subset and of the ledger (CCS 2016, section 4). They hold in each legal history of a run in which at
//! most f of n > 3f nodes lie, whatever the liars post, under both versions of the rules. The function does nothing: what it
//! ensures are the laws.

ghost use Rattle.std.specs.Prelude.{List};
ghost use Rattle.hb_base.specs.Numbers.{Numbers, AreSound};
ghost use Rattle.hb_wire.specs.declared.post.Post.{Post};
ghost use Rattle.hb_rules.specs.History.{IsLegal};
ghost use Rattle.hb_rules.specs.Ledger.{AreComparable, BatchesAreEnough, AreUnaltered};
ghost use Rattle.hb_rules.specs.Strings.{NoCollision};
ghost use Rattle.acs_world.specs.Agreed.{ClosingsAgree, ClosingsFollow};
ghost use Rattle.acs_world.specs.Backing.{ClosingsAreBacked};

/// Where a correct desk has closed an epoch, all its node's lanes have decided there, exactly those in the list on 1, and these
/// have delivered the values in it; and it has closed the epoch before.
/// Where no two hashed strings share a digest, correct desks close an epoch with one list, of any two correct nodes' ledgers
/// one begins with the other, each of their lists has the batches of n - f nodes at least, and what it has of a correct
/// node is what that node's desk proposed.
pub fn ledger_laws()
    ensures backed { (c : Numbers) (history : List Post) → IsLegal c history → ClosingsAreBacked c history }
    ensures follow { (c : Numbers) (history : List Post) → IsLegal c history → ClosingsFollow c history }
    ensures agreement { (c : Numbers) (history : List Post) → AreSound c → IsLegal c history → NoCollision c history → ClosingsAgree c history }
    ensures comparable { (c : Numbers) (history : List Post) → AreSound c → IsLegal c history → NoCollision c history → AreComparable c history }
    ensures batches { (c : Numbers) (history : List Post) → AreSound c → IsLegal c history → NoCollision c history → BatchesAreEnough c history }
    ensures unaltered { (c : Numbers) (history : List Post) → AreSound c → IsLegal c history → NoCollision c history → AreUnaltered c history }
{}
