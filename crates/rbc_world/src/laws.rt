//! Laws of the reliable broadcast (Bracha, Asynchronous Byzantine Agreement Protocols, 1987; with shards and branches as in
//! CCS 2016, section 4.2). They hold in each legal history of a run in which at most f of n > 3f nodes lie, whatever the
//! liars post. Each function does nothing: what it ensures are the laws.

ghost use Rattle.std.specs.Prelude.{ℕ, List, Contains};
ghost use Rattle.hb_base.specs.Numbers.{Numbers, AreSound};
ghost use Rattle.hb_wire.specs.declared.vote.Vote.TheVariants.{Ready, Delivered};
ghost use Rattle.hb_wire.specs.declared.post.Post.{Post};
ghost use Rattle.hb_rules.specs.Hearing.{own_in, said_in};
ghost use Rattle.hb_rules.specs.Code.{HasQuorum};
ghost use Rattle.hb_rules.specs.History.{IsLegal};
ghost use Rattle.hb_rules.specs.Ledger.{IsCorrect};
ghost use Rattle.hb_rules.specs.Strings.{NoCollision};
ghost use Rattle.rbc_world.specs.Agreed.{ReadiesAgree, DeliveriesAgree, DeliveriesAreProposed, ProposalsAgree};
ghost use Rattle.rbc_world.specs.Backing.{RootsAreBound, SaidRootsAreBound, IsHashedOrSaid, NoCollisionAmong, IsBacked};

/// Agreement and validity. In one lane and epoch correct nodes are ready for one root. Where no two hashed strings share a
/// digest, they deliver one value, and in the lane of a correct node that which its desk proposed for the epoch, which is
/// one.
pub fn broadcast_laws()
    ensures readies { (c : Numbers) (history : List Post) → AreSound c → IsLegal c history → ReadiesAgree c history }
    ensures agreement { (c : Numbers) (history : List Post) → AreSound c → IsLegal c history → NoCollision c history → DeliveriesAgree c history }
    ensures validity { (c : Numbers) (history : List Post) → AreSound c → IsLegal c history → NoCollision c history → DeliveriesAreProposed c history }
    ensures proposals { (c : Numbers) (history : List Post) → IsLegal c history → ProposalsAgree c history }
{}

/// What stands behind a root and a value. For a root that a correct node is ready for, n - f nodes have posted valid Echoes,
/// and some k of them rebuild to it. Where more than f nodes have posted Ready for a root in a lane, it is the root of one
/// codeword; any k valid Echoes for it that this lane of a correct node has heard rebuild to this codeword and to no other.
/// Where the strings of all Echoes that were said have digests of their own too, so do any k valid Echoes that were said
/// there. What a correct node delivers was rebuilt, in a lane, from valid Echoes under the root that each correct node's Ready
/// there names.
pub fn root_laws()
    ensures ready { (c : Numbers) (history : List Post) (j e i : ℕ) (root : List ℕ) → AreSound c → IsLegal c history → IsCorrect c i
        → Contains (own_in c i j history) (Ready e root) → HasQuorum c e root (said_in c j history) }
    ensures codeword { (c : Numbers) (history : List Post) → AreSound c → IsLegal c history → NoCollision c history → RootsAreBound c history }
    ensures said { (c : Numbers) (history : List Post) → AreSound c → IsLegal c history → NoCollisionAmong (IsHashedOrSaid c history)
        → SaidRootsAreBound c history }
    ensures delivery { (c : Numbers) (history : List Post) (j e i : ℕ) (value : List ℕ) → AreSound c → IsLegal c history → IsCorrect c i
        → Contains (own_in c i j history) (Delivered e value) → IsBacked c history j e value }
{}
