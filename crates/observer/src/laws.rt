//! Laws of observers (CCS 2016, section 4). They hold for each legal history of a run in which at most f of n > 3f nodes lie,
//! whatever the liars post, under both versions of the rules, where no two hashed strings share a digest. The function does
//! nothing: what it ensures are the laws.

ghost use Rattle.std.specs.Prelude.{◌≡◌, ℕ, ◌<◌, List, length};
ghost use Rattle.hb_base.specs.Numbers.{Numbers, AreSound};
ghost use Rattle.hb_wire.specs.declared.post.Post.{Post};
ghost use Rattle.hb_rules.specs.History.{IsLegal};
ghost use Rattle.hb_rules.specs.Strings.{NoCollision};
ghost use Rattle.observer.specs.Agreeing.{AreTwoOfOne, AreOf, AgreesWithNodes, HasClosers};
ghost use Rattle.observer.specs.Observed.{observed};
ghost use Rattle.observer.specs.Standing.{ObserverView, HasHeard, ledger_of};

/// Whatever posts of the history an observer hears, in any order and with repeats: of its ledger and that of any correct node
/// one begins with the other, and so it is of any two observers' ledgers; each list that it has taken has the batches of n - f
/// nodes at least. Where it has heard of f + 1 correct nodes in each epoch up to e that they closed the epoch, its ledger has
/// more than e lists.
///
/// The ledger of an observer is what is taken from the posts that it has heard.
pub fn observer_laws()
    ensures nodes { (c : Numbers) (history heard : List Post) → AreSound c → IsLegal c history → NoCollision c history → AreOf history heard
        → AgreesWithNodes c history (observed c heard) }
    ensures observers { (c : Numbers) (history heard others : List Post) → AreSound c → IsLegal c history → NoCollision c history → AreOf history heard
        → AreOf history others → AreTwoOfOne (observed c heard) (observed c others) }
    ensures complete { (c : Numbers) (history heard : List Post) (e : ℕ) → AreSound c → IsLegal c history → NoCollision c history → AreOf history heard
        → HasClosers c heard e → e < length (observed c heard) }
    ensures ledger { (o : ObserverView) (heard : List Post) → HasHeard o heard → ledger_of o ≡ observed o.config heard }
{}
