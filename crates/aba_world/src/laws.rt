//! Laws of the binary agreement (Mostéfaoui, Moumen and Raynal, PODC 2014; where the rules are of version 2, with a phase in
//! which nodes confirm what they are left with). They hold in each legal history of a run in which at most f of n > 3f nodes
//! lie, whatever the liars post, in both versions. Each function does nothing: what it ensures are the laws.

ghost use Rattle.std.specs.Prelude.{List};
ghost use Rattle.hb_base.specs.Numbers.{Numbers, AreSound};
ghost use Rattle.hb_wire.specs.declared.post.Post.{Post};
ghost use Rattle.hb_rules.specs.History.{IsLegal};
ghost use Rattle.hb_rules.specs.Strings.{NoCollision};
ghost use Rattle.aba_world.specs.Agreed.{DecisionsAgree, DecisionsAreBegun};
ghost use Rattle.aba_world.specs.Backing.{BeginningsAreBacked, DecisionsAreSettled, BitsAreEstimates, VotesAreSupported, PicksAgree, CoinsAreDealt, VotesAreProper};

/// Agreement and validity. What a correct node decides in a lane and epoch, some correct node there has as its estimate of
/// round 0: 1 where it has delivered, 0 where its own desk wants no more lanes. Where no two hashed strings share a digest,
/// correct nodes decide one bit. It was settled in some round, and after that round no correct node estimates or
/// supports another.
pub fn agreement_laws()
    ensures agreement { (c : Numbers) (history : List Post) → AreSound c → IsLegal c history → NoCollision c history → DecisionsAgree c history }
    ensures validity { (c : Numbers) (history : List Post) → AreSound c → IsLegal c history → DecisionsAreBegun c history }
    ensures beginnings { (c : Numbers) (history : List Post) → IsLegal c history → BeginningsAreBacked c history }
    ensures settled { (c : Numbers) (history : List Post) → AreSound c → IsLegal c history → NoCollision c history → DecisionsAreSettled c history }
{}

/// What holds in one round. A bit that more than f nodes support is the estimate of a correct node. Each bit that a correct
/// node accepts or is left with has 2f + 1 supporters, and correct nodes that are left with one bit alone are left with the
/// same. It casts votes for rounds that the run has, and its shares of coins are the dealt ones. Where no two hashed strings
/// share a digest, it hears no other coin than the dealt one.
pub fn round_laws()
    ensures estimates { (c : Numbers) (history : List Post) → AreSound c → IsLegal c history → BitsAreEstimates c history }
    ensures supported { (c : Numbers) (history : List Post) → IsLegal c history → VotesAreSupported c history }
    ensures picks { (c : Numbers) (history : List Post) → AreSound c → IsLegal c history → PicksAgree c history }
    ensures proper { (c : Numbers) (history : List Post) → IsLegal c history → VotesAreProper c history }
    ensures coins { (c : Numbers) (history : List Post) → AreSound c → IsLegal c history → NoCollision c history → CoinsAreDealt c history }
{}
