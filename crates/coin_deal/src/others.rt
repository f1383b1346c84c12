//! What f shares leave open.

ghost use Rattle.std.specs.Prelude.{◌≡◌, ◌≢◌, ℕ, ◌+◌, ◌<◌, ◌≤◌, List, length, IfOk, slice_index};
ghost use Rattle.hb_base.specs.Limits.{most_faulty};
ghost use Rattle.gf_field.specs.Field.{field_sum, field_product};
ghost use Rattle.coin_deal.specs.Sharing.{AreOfDistinctNodes, HasShares};

use gf_field::{add, interpolate_at, inv, mul};
use std::alloc::{AllocError, Global};

/// A node, and a share for it.
#[derive(Clone, Copy, Debug, PartialEq, Eq)]
pub struct NodeShare {
    pub node: u8,
    pub share: u8,
}

/// The f + 1 coefficients, the lowest first, of the only polynomial of a degree of at most f that has these f
/// shares and this secret: the value at m + 1 is the share of node m, and that at 0 is the secret. Since there is
/// one for every secret, f shares alone rule out no secret (Shamir, How to Share a Secret, CACM 1979).
pub fn others_fit(
    alloc: Global,
    f: u8,
    shares: &[NodeShare],
    secret: u8,
) -> Result<Vec<u8>, AllocError>
    requires few { f ≤ most_faulty }
    requires count { length shares.now ≡ f }
    requires apart { AreOfDistinctNodes shares.now }
    ensures has { IfOk result (λ cs. HasShares f shares.now secret cs.items) }
    ensures only { IfOk result (λ cs. (other : List ℕ) → HasShares f shares.now secret other → other ≡ cs.items) }
    ensures every_secret { IfOk result (λ _. (s : ℕ) → s < 256 → (cs : List ℕ) × HasShares f shares.now s cs) }
{
    let mut points = Vec::with_capacity(alloc, shares.len())?;
    let mut values = Vec::with_capacity(alloc, shares.len())?;
    for known in shares {
        points.push(known.node + 1)?;
        values.push(known.share)?;
    }
    let mut coefficients = Vec::with_capacity(alloc, shares.len() + 1)?;
    coefficients.push(secret)?;
    let mut lowest = secret;
    for _ in 0..f {
        take_lowest(&mut values, &points, lowest);
        lowest = interpolate_at(&points, &values, 0);
        coefficients.push(lowest)?;
    }
    Ok(coefficients)
}

/// From the values of a polynomial at the points to those of the polynomial that is left if its lowest
/// coefficient is taken away and the rest divided by x.
fn take_lowest(values: &mut [u8], points: &[u8], lowest: u8)
    requires same_length { length values.old ≡ length points.now }
    requires some { (i : ℕ) → i < length points.now → 0 < slice_index points.now i }
    ensures bytes { (i : ℕ) → i < length points.now → slice_index values.new i < 256 }
    ensures divided { (i : ℕ) → i < length points.now
        → field_product (slice_index points.now i) (slice_index values.new i) ≡ field_sum (slice_index values.old i) lowest }
{
    for i in 0..values.len() {
        values[i] = mul(add(values[i], lowest), inv(points[i]));
    }
}
