//! The checked shares of one common coin. A share counts where its Merkle branch leads to the published root, and f + 1
//! of them give the coin (Rabin, Randomized Byzantine Generals, FOCS 1983; Shamir, How to Share a Secret, CACM 1979).
#![tactic(auto)]

ghost use Rattle.std.specs.Prelude.{◌≡◌, ◌≢◌, ℕ, ◌+◌, ◌*◌, ◌<◌, ◌≤◌, ◌==◌, ◌↔◌, ◌⊎◌, true, false, List, [], ◌∷◌, length, IfSome, All, Any, None};
ghost use Rattle.std.specs.List.{list_any};
ghost use Rattle.hb_base.specs.Limits.{most_nodes};
ghost use Rattle.hb_base.specs.Numbers.{Numbers};
ghost use Rattle.gf_field.specs.Polynomial.{polynomial_at, AreDistinct, Interpolates, AreWeightsAt, sum_of_products};
ghost use Rattle.coin_deal.specs.Deal.{coin_of, dealt_coin};
ghost use Rattle.coin_deal.specs.Heard.{heard_share, has_share_of, IsGood, AreGood, IsGoodShare, points, values, polynomial_through, coin_through, IsCoinOf, Collides};
ghost use Rattle.coin_share.specs.Shares.{with_share, with_offered, added_of, deciding, IsOfCoin};

use coin_deal::leaf_of;
use gf_field::interpolate_at;
use hb_base::limits::{MOST_FAULTY, MOST_NODES};
use merkle_branch::{Branch, MAX_HEIGHT, is_branch};
use std::marker::Model;
use std::snapshot::Snapshot;

// The most shares that are kept, one of each node, and the most that make a coin, f + 1.
const MOST_SHARES: usize = MOST_NODES as usize;

const MOST_DECIDING: usize = MOST_FAULTY as usize + 1;

/// What becomes of a share that is offered.
#[derive(Clone, Copy, Debug, PartialEq, Eq)]
pub enum Offer {
    /// It is good, and was added.
    Added,
    /// A share of this node was added before.
    Known,
    /// With its salt and its branch it does not lead to the published root.
    Wrong,
}

/// The shares of one coin that were added. Clauses see a `SharesView`; salts and branches take no memory here.
#[derive(Drop)]
pub struct Shares {
    n: u8,
    f: u8,
    root: [u8; 32],

    // How many were added. Entries from there on mean nothing.
    count: u8,
    kept: [KeptShare; MOST_SHARES],
}

impl Model for Shares {
    ghost use Rattle.std.specs.Prelude.{length};
    ghost use Rattle.coin_share.specs.Shares.{SharesView, view_of, AreKept};

    ghost Value = { SharesView };

    ghost view = { λ s. view_of s.n s.f s.root s.count s.kept };

    ghost invariant = { λ s. AreKept (view_of s.n s.f s.root s.count s.kept) s.count (length s.kept) };
}

// A share that was added. The salt and the branch are for clauses alone, and take no memory.
#[derive(Drop)]
struct KeptShare {
    node: u8,
    share: u8,
    salt: Snapshot<[u8; 16]>,
    branch: Snapshot<Branch>,
}

impl Shares {
    /// No share yet of the coin with this published root, among n nodes of which at most f lie.
    pub fn new(n: u8, f: u8, root: [u8; 32]) -> Shares
        requires few { n ≤ most_nodes }
        requires enough { 3 * f < n }
        ensures { result ≡ record { n = n; f = f; root = root; added = [] } }
    {
        Shares {
            n,
            f,
            root,
            count: 0,
            kept: std::array::from_fn(|_| no_share()),
        }
    }

    /// Offers the share of node m. The first that holds is answered: `Known` where a share of m was added,
    /// `Wrong` where the branch does not lead from the share and its salt to the published root, else `Added`.
    /// Only `Added` changes the value.
    pub fn offer(&mut self, m: u8, share: u8, salt: &[u8; 16], branch: &Branch) -> Offer
        requires { m < self.old.n }
        ensures known { (result ≡ Offer.Known) ↔ (has_share_of self.old.added m ≡ true) }
        ensures wrong { (result ≡ Offer.Wrong)
            ↔ ((has_share_of self.old.added m ≡ false) × (IsGood self.old.root self.old.n (heard_share m share salt.now branch.now) → ⊥)) }
        ensures added { (result ≡ Offer.Added)
            ↔ ((has_share_of self.old.added m ≡ false) × IsGood self.old.root self.old.n (heard_share m share salt.now branch.now)) }
        ensures exact { self.new ≡ with_offered self.old (heard_share m share salt.now branch.now) }
        ensures adds { result ≡ Offer.Added → self.new ≡ with_share self.old (heard_share m share salt.now branch.now) }
        ensures same { result ≢ Offer.Added → self.new ≡ self.old }
        ensures stays { (self.new.n ≡ self.old.n) × (self.new.f ≡ self.old.f) × (self.new.root ≡ self.old.root) }
        ensures good { AreGood self.new.root self.new.n self.new.added }

        // At the published root of a dealt coin a good share in the sense of the deal is good, and no other.
        ensures dealt { (c : Numbers) (e j r : ℕ) → IsOfCoin self.old c e j r → has_share_of self.old.added m ≡ false
            → (result ≡ Offer.Added) ↔ IsGoodShare c e j r m share salt.now branch.now }
    {
        if self.has_share_of(m) {
            return Offer::Known;
        }
        let leaf = leaf_of(share, salt);
        if !is_branch(&self.root, self.n, m, &leaf, branch) {
            return Offer::Wrong;
        }
        self.keep(m, share, salt, branch);
        Offer::Added
    }

    /// Adds the share of node m, unless one of m was added before. The share was found to be good before, and its branch is not
    /// checked again.
    pub fn add_checked(&mut self, m: u8, share: u8, salt: &[u8; 16], branch: &Branch)
        requires { IsGood self.old.root self.old.n (heard_share m share salt.now branch.now) }
        ensures { self.new ≡ with_offered self.old (heard_share m share salt.now branch.now) }
    {
        let is_first = !self.has_share_of(m);
        if is_first {
            self.keep(m, share, salt, branch);
        }
    }

    /// The coin, once f + 1 shares were added, and `None` before: the low bit of the value at 0 of the one
    /// polynomial of degree at most f through the first f + 1 shares added.
    pub fn coin(&self) -> Option<bool>
        ensures few { (result ≡ None) ↔ (length self.now.added ≤ self.now.f) }
        ensures value { IfSome result (λ coin. coin ≡ coin_through (deciding self.now)) }
        ensures polynomial { IfSome result (λ coin. IsCoinOf (deciding self.now) coin) }

        // It is the sum of the shares, each times its weight.
        ensures weighted { (weights : List ℕ) → length weights ≡ self.now.f + 1 → AreWeightsAt 0 (points (deciding self.now)) weights
            → IfSome result (λ coin. coin ≡ coin_of (sum_of_products weights (values (deciding self.now)))) }

        // It is the coin that was dealt, or among the strings hashed to check one of the shares are two with one digest.
        ensures dealt { (c : Numbers) (e j r : ℕ) → IsOfCoin self.now c e j r
            → IfSome result (λ coin. (coin ≡ dealt_coin c e j r) ⊎ Any (Collides c e j r) (deciding self.now)) }
    {
        if self.count <= self.f {
            return None;
        }
        let needed = self.f as usize + 1;
        Some(secret(&self.kept[..needed]) % 2 == 1)
    }

    // Adds a good share of a node that has none yet.
    fn keep(&mut self, m: u8, share: u8, salt: &[u8; 16], branch: &Branch)
        requires first { has_share_of self.old.added m ≡ false }
        requires good { IsGood self.old.root self.old.n (heard_share m share salt.now branch.now) }
        ensures { self.new ≡ with_share self.old (heard_share m share salt.now branch.now) }
    {
        self.kept[self.count as usize] = KeptShare {
            node: m,
            share,
            salt: Snapshot::of(salt),
            branch: Snapshot::of(branch),
        };
        self.count += 1;
    }

    // Whether a share of this node was added.
    fn has_share_of(&self, m: u8) -> bool
        ensures { result ≡ has_share_of self.now.added m }
    {
        has_node(&self.kept[..self.count as usize], m)
    }
}

// Whether one of these shares is of this node.
fn has_node(kept: &[KeptShare], m: u8) -> bool
    ensures { result ≡ list_any (λ k. k.node == m) kept.now }
{
    kept.iter().any(|share| share.node == m)
}

// The value at 0 of the polynomial through these shares.
fn secret(shares: &[KeptShare]) -> u8
    requires few { length shares.now ≤ MOST_DECIDING }
    requires nodes { All (λ k. k.node < most_nodes) shares.now }
    requires distinct { AreDistinct (points (added_of shares.now)) }
    ensures through { Interpolates (points (added_of shares.now)) (values (added_of shares.now)) (polynomial_through (added_of shares.now)) }
    ensures value { result ≡ polynomial_at (polynomial_through (added_of shares.now)) 0 }
{
    let mut points = [0; MOST_DECIDING];
    let mut values = [0; MOST_DECIDING];
    for (i, share) in shares.iter().enumerate() {
        points[i] = share.node + 1;
        values[i] = share.share;
    }
    interpolate_at(&points[..shares.len()], &values[..shares.len()], 0)
}

// What stands where no share was added.
fn no_share() -> KeptShare {
    KeptShare {
        node: 0,
        share: 0,
        salt: Snapshot::of(&[0; 16]),
        branch: Snapshot::of(&Branch {
            len: 0,
            digests: [[0; 32]; MAX_HEIGHT],
        }),
    }
}
