//! Laws of shares and coins. The functions do nothing: what they ensure are the laws.

ghost use Rattle.std.specs.Prelude.{◌≡◌, ℕ, ◌<◌, ◌≤◌, ◌↔◌, ◌⊎◌, Bool, true, List, ◌++◌, length, All, Any};
ghost use Rattle.hb_base.specs.Limits.{most_nodes};
ghost use Rattle.hb_base.specs.Numbers.{Numbers};
ghost use Rattle.merkle_branch.specs.Digests.{leaf_digests};
ghost use Rattle.merkle_branch.specs.Branches.{Collision, branch_of};
ghost use Rattle.coin_deal.specs.Deal.{coin_leaves, dealt_coin, salt, share};
ghost use Rattle.coin_deal.specs.Heard.{HeardShare, heard_share, IsGood, is_good, IsGoodShare, AreGood, HasForm, IsChoice, IsCoinOf, coin_through, coin_strings, checked_strings, Collides};
ghost use Rattle.coin_deal.specs.Sharing.{AreOfDistinctNodes, HasShares};
ghost use Rattle.coin_deal.specs.declared.others.NodeShare.{NodeShare};

/// The shares of f nodes rule out no secret: for each one there is exactly one polynomial of a degree of at most
/// f that has it and these shares (Shamir, How to Share a Secret, CACM 1979).
pub fn sharing_laws()
    ensures { (f : ℕ) (shares : List NodeShare) (secret : ℕ) → length shares ≡ f → AreOfDistinctNodes shares → All (λ a. a.share < 256) shares
        → secret < 256 → (cs : List ℕ) × HasShares f shares secret cs × ((other : List ℕ) → HasShares f shares secret other → other ≡ cs) }
{}

/// The test of a share and the relation say the same, and the dealt share of each node is good and has the form that
/// a vote asks for.
pub fn share_laws()
    ensures test { (root : List ℕ) (n : ℕ) (a : HeardShare) → (is_good root n a ≡ true) ↔ IsGood root n a }
    ensures good { (c : Numbers) (e j r m : ℕ) → c.n ≤ most_nodes → m < c.n
        → IsGoodShare c e j r m (share c e j r m) (salt c e j r m) (branch_of (leaf_digests (coin_leaves c e j r)) m) }
    ensures form { (c : Numbers) (e j r m : ℕ) → c.n ≤ most_nodes → m < c.n
        → HasForm c.n (heard_share m (share c e j r m) (salt c e j r m) (branch_of (leaf_digests (coin_leaves c e j r)) m)) }
{}

/// A dealt coin is one for all: f + 1 good shares of different nodes give the dealt coin, whichever they are, by each
/// polynomial of a degree of at most f through them, unless two different strings, one that is hashed for the coin's
/// tree and one that is hashed to check a share, have one digest.
pub fn coin_laws()
    ensures dealt { (c : Numbers) (e j r : ℕ) (shares : List HeardShare) → c.n ≤ most_nodes → IsChoice c e j r shares
        → (coin_through shares ≡ dealt_coin c e j r) ⊎ Any (Collides c e j r) shares }
    ensures one { (c : Numbers) (e j r : ℕ) (first second : List HeardShare) → c.n ≤ most_nodes → IsChoice c e j r first → IsChoice c e j r second
        → (coin_through first ≡ coin_through second) ⊎ Any (λ a. Collision (coin_strings c e j r) (checked_strings a)) (first ++ second) }
    ensures only { (root : List ℕ) (n : ℕ) (shares : List HeardShare) (coin : Bool) → n ≤ most_nodes → AreGood root n shares
        → IsCoinOf shares coin → coin ≡ coin_through shares }
{}
