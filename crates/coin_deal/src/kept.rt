//! A coin's tree with the place of its coin.

ghost use Rattle.std.specs.Prelude.{◌≡◌, IfSome};
ghost use Rattle.merkle_branch.specs.Digests.{leaf_digests};
ghost use Rattle.coin_deal.specs.Deal.{coin_leaves};

use hb_base::Config;
use merkle_branch::Tree;

/// The tree of the coin of a run, an epoch, a lane and a round. It says which coin that is, since no clause says what the
/// cell holds that it lies in.
#[derive(Drop)]
pub(crate) struct CoinTree {
    config: Config,
    epoch: u8,
    lane: u8,
    round: u8,
    tree: Tree,
    ghost is_of_coin: { tree ≡ leaf_digests (coin_leaves config epoch lane round) },
}

impl CoinTree {
    /// This tree, as that of this coin.
    pub(crate) fn new(config: &Config, epoch: u8, lane: u8, round: u8, tree: Tree) -> CoinTree
        requires { tree ≡ leaf_digests (coin_leaves config.now epoch lane round) }
    {
        CoinTree {
            config: *config,
            epoch,
            lane,
            round,
            tree,
        }
    }

    /// The tree, if it is that of this coin.
    pub(crate) fn of(&self, config: &Config, epoch: u8, lane: u8, round: u8) -> Option<&Tree>
        ensures { IfSome result (λ tree. tree.now ≡ leaf_digests (coin_leaves config.now epoch lane round)) }
    {
        if self.epoch == epoch
            && self.lane == lane
            && self.round == round
            && self.config == *config
        {
            Some(&self.tree)
        } else {
            None
        }
    }
}
