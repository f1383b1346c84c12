//! The leaves of a coin's tree.

ghost use Rattle.std.specs.Prelude.{◌≡◌, ◌+◌, ◌<◌, ◌≤◌, ◌∷◌, length};
ghost use Rattle.hb_base.specs.Limits.{most_nodes};
ghost use Rattle.gf_field.specs.Polynomial.{polynomial_at};
ghost use Rattle.merkle_branch.specs.Digests.{leaf_digests};
ghost use Rattle.coin_deal.specs.Holding.{leaves_with};

use gf_field::eval;
use merkle_branch::Leaves;

/// The share of node m: the value at m + 1.
pub(crate) fn share_at(coefficients: &[u8], m: u8) -> u8
    requires { m < most_nodes }
    ensures { result ≡ polynomial_at coefficients.now (m + 1) }
{
    eval(coefficients, m + 1)
}

/// The leaves of all nodes, one for each salt.
pub(crate) fn leaves_of(coefficients: &[u8], salts: &[[u8; 16]]) -> Leaves
    requires { length salts.now ≤ most_nodes }
    ensures { result ≡ leaf_digests (leaves_with coefficients.now salts.now) }
{
    let mut leaves = Leaves::new();
    for m in 0..salts.len() {
        leaves.add(&leaf_of(share_at(coefficients, m as u8), &salts[m]));
    }
    leaves
}

/// The leaf of a node: its share, and its salt behind it.
pub fn leaf_of(share: u8, salt: &[u8; 16]) -> [u8; 17]
    ensures { result ≡ share ∷ salt.now }
{
    let mut leaf = [share; 17];
    leaf[1..].copy_from_slice(salt);
    leaf
}
