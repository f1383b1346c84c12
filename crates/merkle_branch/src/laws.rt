//! Laws of trees and branches. The functions do nothing: what they ensure are the laws.

ghost use Rattle.std.specs.Prelude.{◌≡◌, ℕ, ◌<◌, ◌≤◌, ◌↔◌, ◌⊎◌, List, [], length, slice_index_or, true, Contains};
ghost use Rattle.merkle_branch.specs.Digests.{leaf_digests, tree_root, tree_strings};
ghost use Rattle.merkle_branch.specs.declared.Branch.{Branch};
ghost use Rattle.merkle_branch.specs.Branches.{IsBranch, IsPath, Collision, is_branch, branch_of, folded_strings};

/// What branches are: the test and the relation say the same, and the branch of each leaf in a tree of up to 16
/// leaves has the form of one, leads to the root, which has 32 bytes, and folds no string that is not the tree's.
pub fn branch_laws()
    ensures test { (root : List ℕ) (n m : ℕ) (leaf : List ℕ) (branch : Branch) → (is_branch root n m leaf branch ≡ true) ↔ IsBranch root n m leaf branch }
    ensures root { (leaves : List (List ℕ)) → length (tree_root leaves) ≡ 32 }
    ensures path { (leaves : List (List ℕ)) (m : ℕ) → IsPath (length leaves) (branch_of (leaf_digests leaves) m) }
    ensures valid { (leaves : List (List ℕ)) (m : ℕ) → length leaves ≤ 16 → m < length leaves
        → IsBranch (tree_root leaves) (length leaves) m (slice_index_or leaves m []) (branch_of (leaf_digests leaves) m) }
    ensures strings { (leaves : List (List ℕ)) (m : ℕ) (string : List ℕ) → length leaves ≤ 16 → m < length leaves
        → Contains (folded_strings m (slice_index_or leaves m []) (branch_of (leaf_digests leaves) m)) string → Contains (tree_strings leaves) string }
{}

/// Two branches of one root and index prove one leaf, unless among the strings that are hashed to
/// check them there are two different ones with one digest.
pub fn branches_bind()
    ensures { (root : List ℕ) (n m : ℕ) (first second : List ℕ) (b c : Branch) → IsBranch root n m first b → IsBranch root n m second c
        → (first ≡ second) ⊎ Collision (folded_strings m first b) (folded_strings m second c) }
{}

/// Two trees of one root over equally many leaves, 16 at most, have equal leaves, and a branch of a tree's root proves
/// the tree's leaf, unless among the strings that are hashed for both there are two different ones with one digest.
pub fn trees_bind()
    ensures leaves { (first second : List (List ℕ)) → length first ≡ length second → length first ≤ 16 → tree_root first ≡ tree_root second
        → (first ≡ second) ⊎ Collision (tree_strings first) (tree_strings second) }
    ensures leaf { (leaves : List (List ℕ)) (m : ℕ) (leaf : List ℕ) (branch : Branch) → length leaves ≤ 16 → m < length leaves
        → IsBranch (tree_root leaves) (length leaves) m leaf branch
        → (slice_index_or leaves m [] ≡ leaf) ⊎ Collision (tree_strings leaves) (folded_strings m leaf branch) }
{}
