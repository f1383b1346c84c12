//! What a deal gives: roots, and the shares of the nodes.

ghost use Rattle.std.specs.Prelude.{◌≡◌, ◌+◌, ◌*◌, ◌<◌, ◌≤◌, ◌↔◌, true, IfSome, length};
ghost use Rattle.hb_base.specs.Limits.{most_nodes};
ghost use Rattle.hb_base.specs.Numbers.{Numbers};
ghost use Rattle.merkle_branch.specs.Digests.{leaf_digests};
ghost use Rattle.merkle_branch.specs.Branches.{branch_of};
ghost use Rattle.coin_deal.specs.Deal.{coefficients as dealt_coefficients, salt as dealt_salt, share as dealt_share, coin_leaves, coin_root, dealt_coin};
ghost use Rattle.coin_deal.specs.Heard.{heard_share, IsGoodShare, HasForm};
ghost use Rattle.coin_deal.specs.Holding.{coin_number, coin_count, coin_salts};

use crate::kept::CoinTree;
use crate::leaves::{leaves_of, share_at};
use gf_field::eval;
use hb_base::Config;
use merkle_branch::{Branch, Leaves, Tree};
use once_cell::race::OnceBox;
use std::alloc::{AllocError, Global};
use std::marker::Model;

/// All coins of a run, by epoch, then lane, then round. A contract sees the numbers of the run.
#[derive(Drop)]
pub struct Deal {
    // The allocator of the trees, which are built later.
    pub(crate) alloc: Global,
    pub(crate) config: Config,

    // The coins lie one behind the other: f + 1 coefficients, n salts and a cell for one tree each.
    pub(crate) coefficients: Vec<u8>,
    pub(crate) salts: Vec<[u8; 16]>,
    pub(crate) trees: Vec<OnceBox<CoinTree>>,
}

impl Model for Deal {
    ghost use Rattle.std.specs.Prelude.{length};
    ghost use Rattle.hb_base.specs.Numbers.{Numbers};
    ghost use Rattle.coin_deal.specs.Holding.{HoldsAllCoins};

    ghost Value = { Numbers };

    ghost view = { λ d. d.config };

    ghost invariant = { λ d. HoldsAllCoins d.config d.coefficients.items d.salts.items (length d.trees.items) };
}

/// The share of a node, and the salt and the branch that prove it against the coin's root.
#[derive(Clone, Copy, Debug, PartialEq, Eq)]
pub struct DealtShare {
    pub share: u8,
    pub salt: [u8; 16],
    pub branch: Branch,
}

impl Deal {
    /// The root of the tree over the shares of the coin of an epoch, a lane and a round.
    pub fn root_of(&self, e: u8, j: u8, r: u8) -> [u8; 32]
        requires epoch { e < self.now.epochs }
        requires lane { j < self.now.n }
        requires round { r < self.now.rounds }
        ensures { result ≡ coin_root self.now e j r }
    {
        match self.kept_tree(e, j, r) {
            Some(tree) => tree.root(),
            None => self.leaves_of(e, j, r).root(),
        }
    }

    /// The coin of an epoch, a lane and a round: the lowest bit of the secret.
    pub fn coin_of(&self, e: u8, j: u8, r: u8) -> bool
        requires epoch { e < self.now.epochs }
        requires lane { j < self.now.n }
        requires round { r < self.now.rounds }
        ensures { result ≡ dealt_coin self.now e j r }
    {
        eval(self.coefficients_of(e, j, r), 0) % 2 == 1
    }

    /// The share of node m of the coin of an epoch, a lane and a round. The branch leads from it to the root. It is read from
    /// the coin's tree, which the deal builds when it is first asked for, and keeps; where no memory is left for a tree, it is
    /// worked out without one.
    pub fn dealt_to(&self, e: u8, j: u8, r: u8, m: u8) -> DealtShare
        requires epoch { e < self.now.epochs }
        requires lane { j < self.now.n }
        requires round { r < self.now.rounds }
        requires node { m < self.now.n }
        ensures share { result.share ≡ dealt_share self.now e j r m }
        ensures salt { result.salt ≡ dealt_salt self.now e j r m }
        ensures branch { result.branch ≡ branch_of (leaf_digests (coin_leaves self.now e j r)) m }
        ensures good { IsGoodShare self.now e j r m result.share result.salt result.branch }
        ensures form { HasForm self.now.n (heard_share m result.share result.salt result.branch) }
    {
        let coefficients = self.coefficients_of(e, j, r);
        let salts = self.salts_of(e, j, r);
        DealtShare {
            share: share_at(coefficients, m),
            salt: salts[m as usize],
            branch: self.branch_from(e, j, r, m),
        }
    }

    /// Whether these are the share, the salt and the branch that `dealt_to` gives to node m. They are good then. Nothing is
    /// hashed but the coin's tree, once; where no memory is left for the tree, each call hashes its leaves. A correct node shows
    /// no others.
    pub fn is_dealt(
        &self,
        e: u8,
        j: u8,
        r: u8,
        m: u8,
        share: u8,
        salt: &[u8; 16],
        branch: &Branch,
    ) -> bool
        requires epoch { e < self.now.epochs }
        requires lane { j < self.now.n }
        requires round { r < self.now.rounds }
        requires node { m < self.now.n }
        ensures exact { (result ≡ true) ↔ ((share ≡ dealt_share self.now e j r m) × (salt.now ≡ dealt_salt self.now e j r m)
            × (branch.now ≡ branch_of (leaf_digests (coin_leaves self.now e j r)) m)) }
        ensures good { result ≡ true → IsGoodShare self.now e j r m share salt.now branch.now }
    {
        let dealt = self.dealt_to(e, j, r, m);
        let same_share = dealt.share == share;
        let same_salt = dealt.salt == *salt;
        let same_branch = dealt.branch == *branch;
        same_share & same_salt & same_branch
    }

    // The branch of the leaf of node m, over the leaves where no tree is kept.
    fn branch_from(&self, e: u8, j: u8, r: u8, m: u8) -> Branch
        requires epoch { e < self.now.epochs }
        requires lane { j < self.now.n }
        requires round { r < self.now.rounds }
        requires node { m < self.now.n }
        ensures { result ≡ branch_of (leaf_digests (coin_leaves self.now e j r)) m }
    {
        match self.kept_tree(e, j, r) {
            Some(tree) => tree.branch(m),
            None => self.leaves_of(e, j, r).branch(m),
        }
    }

    // The coefficients of one coin.
    fn coefficients_of(&self, e: u8, j: u8, r: u8) -> &[u8]
        requires epoch { e < self.now.epochs }
        requires lane { j < self.now.n }
        requires round { r < self.now.rounds }
        ensures { result.now ≡ dealt_coefficients self.now e j r }
    {
        let width = self.config.f() as usize + 1;
        let start = self.number_of(e, j, r) * width;
        &self.coefficients[start..start + width]
    }

    // The salts of one coin.
    fn salts_of(&self, e: u8, j: u8, r: u8) -> &[[u8; 16]]
        requires epoch { e < self.now.epochs }
        requires lane { j < self.now.n }
        requires round { r < self.now.rounds }
        ensures exact { result.now ≡ coin_salts self.now e j r }
        ensures count { length result.now ≡ self.now.n }
        ensures few { self.now.n ≤ most_nodes }
    {
        let n = self.config.n() as usize;
        let start = self.number_of(e, j, r) * n;
        &self.salts[start..start + n]
    }

    // The leaves of one coin's tree.
    fn leaves_of(&self, e: u8, j: u8, r: u8) -> Leaves
        requires epoch { e < self.now.epochs }
        requires lane { j < self.now.n }
        requires round { r < self.now.rounds }
        ensures leaves { result ≡ leaf_digests (coin_leaves self.now e j r) }
        ensures count { length result ≡ self.now.n }
        ensures some { 0 < length result }
    {
        leaves_of(self.coefficients_of(e, j, r), self.salts_of(e, j, r))
    }

    // The tree of one coin, which is built when it is first asked for, and kept. None where no memory is left for it. None too
    // where another coin's tree is kept there, which never happens: no clause says what a cell holds.
    fn kept_tree(&self, e: u8, j: u8, r: u8) -> Option<&Tree>
        requires epoch { e < self.now.epochs }
        requires lane { j < self.now.n }
        requires round { r < self.now.rounds }
        ensures { IfSome result (λ tree. tree.now ≡ leaf_digests (coin_leaves self.now e j r)) }
    {
        let cell = &self.trees[self.number_of(e, j, r)];
        match cell.get_or_try_init(move || self.new_tree(e, j, r)) {
            Ok(kept) => kept.of(&self.config, e, j, r),
            Err(_) => None,
        }
    }

    // The tree of one coin, to be kept.
    fn new_tree(&self, e: u8, j: u8, r: u8) -> Result<Box<CoinTree>, AllocError>
        requires epoch { e < self.now.epochs }
        requires lane { j < self.now.n }
        requires round { r < self.now.rounds }
    {
        let tree = Tree::build(self.alloc, &self.leaves_of(e, j, r))?;
        let kept = CoinTree::new(&self.config, e, j, r, tree);
        Ok(Box::new(self.alloc, kept)?)
    }

    // How many coins stand before this one.
    fn number_of(&self, e: u8, j: u8, r: u8) -> usize
        requires epoch { e < self.now.epochs }
        requires lane { j < self.now.n }
        requires round { r < self.now.rounds }
        ensures exact { result ≡ coin_number self.now e j r }
        ensures within { result < coin_count self.now }
    {
        let n = self.config.n() as usize;
        let rounds = self.config.rounds() as usize;
        (e as usize * n + j as usize) * rounds + r as usize
    }
}
