//! From some shards of a codeword to all of them.

ghost use Rattle.std.specs.Prelude.{◌≡◌, ◌≢◌, ℕ, ◌*◌, ◌^◌, ◌<◌, ◌≤◌, length, List, MatchOption, IfOk, All, map, take, slice_index, EachIndex};
ghost use Rattle.gf_field.specs.Field.{field_sum, field_product};
ghost use Rattle.gf_field.specs.Polynomial.{AreDistinct, AreWeightsAt, sum_of_products};
ghost use Rattle.rs_shards.specs.Rebuilding.{AreShards};
ghost use Rattle.rs_shards.specs.Completing.{completed, completed_shard};
ghost use Rattle.rs_shards.specs.Column.{indices_of, shard_at, column_of, AreEven};

use gf_field::{basis_at, mul};
use hb_base::Bytes;
use std::alloc::{AllocError, Global};

/// All n shards of the codeword that has each of these at its index, of a degree below their number.
pub(crate) fn complete(alloc: Global, n: u8, got: &[(u8, Bytes)]) -> Result<Vec<Bytes>, AllocError>
    requires some { 0 < length got.now }
    requires shards { AreShards n got.now }
    requires even { AreEven got.now }
    ensures { IfOk result (λ shards. shards.items ≡ completed n (length got.now) got.now) }
{
    let points = indices(alloc, got)?;
    let mut shards = Vec::with_capacity(alloc, n as usize)?;
    for m in 0..n {
        shards.push(shard(alloc, got, &points, m)?)?;
    }
    Ok(shards)
}

/// Shard m of that codeword: shared with the given one, or the sum of the given ones, each times a weight.
fn shard(alloc: Global, got: &[(u8, Bytes)], points: &[u8], m: u8) -> Result<Bytes, AllocError>
    requires some { 0 < length got.now }
    requires points { points.now ≡ indices_of got.now }
    requires distinct { AreDistinct points.now }
    requires even { AreEven got.now }
    ensures { IfOk result (λ shard. shard ≡ completed_shard got.now m) }
{
    match place_of(points, m) {
        Some(i) => got[i].1.clone(),
        None => combination(alloc, &weights(alloc, points, m)?, got),
    }
}

/// The first place at which a number stands.
fn place_of(numbers: &[u8], number: u8) -> Option<usize>
    ensures { MatchOption result ((i : ℕ) → i < length numbers.now → slice_index numbers.now i ≢ number)
        (λ i. (i < length numbers.now) × (slice_index numbers.now i ≡ number)) }
{
    numbers.iter().position(|other| *other == number)
}

/// The indices of the shards, in order.
fn indices(alloc: Global, got: &[(u8, Bytes)]) -> Result<Vec<u8>, AllocError>
    ensures { IfOk result (λ points. points.items ≡ indices_of got.now) }
{
    let mut points = Vec::with_capacity(alloc, got.len())?;
    for shard in got {
        points.push(shard.0)?;
    }
    Ok(points)
}

/// For each point the value at `x` of the polynomial that is 1 there and 0 at the other points.
fn weights(alloc: Global, points: &[u8], x: u8) -> Result<Vec<u8>, AllocError>
    requires { AreDistinct points.now }
    ensures len { IfOk result (λ weights. length weights.items ≡ length points.now) }
    ensures weights { IfOk result (λ weights. AreWeightsAt x points.now weights.items) }
{
    let mut weights = Vec::with_capacity(alloc, points.len())?;
    for i in 0..points.len() {
        weights.push(basis_at(points, i, x))?;
    }
    Ok(weights)
}

/// The sum of the shards, each times its weight, byte by byte.
fn combination(alloc: Global, weights: &[u8], got: &[(u8, Bytes)]) -> Result<Bytes, AllocError>
    requires some { 0 < length got.now }
    requires paired { length weights.now ≡ length got.now }
    requires equal { (i : ℕ) → i < length got.now → length (shard_at got.now i) ≡ length (shard_at got.now 0) }
    ensures len { IfOk result (λ shard. length shard ≡ length (shard_at got.now 0)) }
    ensures bytes { IfOk result (λ shard. (column : ℕ) → column < length (shard_at got.now 0)
        → slice_index shard column ≡ sum_of_products weights.now (column_of got.now column)) }
{
    let mut sum = vec![in alloc; 0; got[0].1.as_slice().len()]?;
    add_combination(&mut sum, weights, got);
    Bytes::from_vec(sum)
}

/// Adds the shards, each times its weight, byte by byte.
fn add_combination(sum: &mut [u8], weights: &[u8], got: &[(u8, Bytes)])
    requires paired { length weights.now ≡ length got.now }
    requires equal { (i : ℕ) → i < length got.now → length (shard_at got.now i) ≡ length sum.old }
    ensures { (column : ℕ) → column < length sum.old
        → slice_index sum.new column ≡ field_sum (slice_index sum.old column) (sum_of_products weights.now (column_of got.now column)) }
{
    for i in 0..got.len() {
        add_multiple(sum, weights[i], got[i].1.as_slice());
    }
}

/// The fewest bytes of a shard for which the products with all 256 elements are worked out before: below, to work them out
/// costs more than they save.
const SHORTEST_FOR_ROW: usize = 128;

/// Adds a multiple of a shard, byte by byte.
fn add_multiple(sum: &mut [u8], weight: u8, shard: &[u8])
    requires { length sum.old ≡ length shard.now }
    ensures { (i : ℕ) → i < length shard.now
        → slice_index sum.new i ≡ field_sum (slice_index sum.old i) (field_product weight (slice_index shard.now i)) }
{
    if shard.len() < SHORTEST_FOR_ROW {
        add_products(sum, weight, shard);
    } else {
        add_from_row(sum, &multiples(weight), shard);
    }
}

/// Adds a multiple of a shard, byte by byte, each product for itself.
fn add_products(sum: &mut [u8], weight: u8, shard: &[u8])
    requires { length sum.old ≡ length shard.now }
    ensures { (i : ℕ) → i < length shard.now
        → slice_index sum.new i ≡ field_sum (slice_index sum.old i) (field_product weight (slice_index shard.now i)) }
{
    for i in 0..sum.len() {
        sum[i] ^= mul(weight, shard[i]);
    }
}

/// Adds to each byte what the row has at the byte of the shard.
fn add_from_row(sum: &mut [u8], row: &[u8; 256], shard: &[u8])
    requires { length sum.old ≡ length shard.now }
    ensures { (i : ℕ) → i < length shard.now
        → slice_index sum.new i ≡ field_sum (slice_index sum.old i) (slice_index row.now (slice_index shard.now i)) }
{
    for i in 0..sum.len() {
        sum[i] ^= row[shard[i] as usize];
    }
}

/// The products of an element with all others. Each power of two doubles the row, since the product is additive.
fn multiples(weight: u8) -> [u8; 256]
    ensures { (b : ℕ) → b < 256 → slice_index result b ≡ field_product weight b }
{
    let mut row = [0; 256];
    let mut half = 1;
    for place in 0..8u8 {
        double(&mut row, weight, half);
        half *= 2;
    }
    row
}

/// Fills in the products with the elements from `half` on, a power of two, to twice that, from those below.
fn double(row: &mut [u8; 256], weight: u8, half: usize)
    requires power { (i : ℕ) × (i < 8) × (half ≡ 2 ^ i) }
    requires below { (b : ℕ) → b < half → slice_index row.old b ≡ field_product weight b }
    ensures { (b : ℕ) → b < half * 2 → slice_index row.new b ≡ field_product weight b }
{
    let top = mul(weight, half as u8);
    for b in 0..half {
        row[half + b] = top ^ row[b];
    }
}
