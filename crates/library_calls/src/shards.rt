//! What no clause says: that calls find memory and succeed, and that the shards are those of `tools/oracles/run shards`.

ghost use Rattle.std.specs.Prelude.{◌≡◌, ◌<◌, ◌≤◌, ◌^◌, length, IfOk, All, slice_get};
ghost use Rattle.hb_base.specs.Limits.{most_nodes, longest_value, longest_shard};
ghost use Rattle.rs_shards.specs.Rebuilding.{AreShards};

mod codes;

use codes::{CODES, PAIRS, TRIPLES};
use hb_base::Bytes;
use hb_base::limits::LONGEST_VALUE;
use rs_shards::{RsFault, encode, rebuild, value_of};
use std::alloc::{AllocError, Global};
use std::process::Abort;
use std::test::Fail;

/// Whether shards are those of `hi` for four nodes, two of them data shards, worked out by hand.
fn are_worked_out(shards: &[Bytes]) -> bool {
    shards.len() == 4
        && shards[0].as_slice() == [0, 0, 0].as_slice()
        && shards[1].as_slice() == [0x02, 0x68, 0x69].as_slice()
        && shards[2].as_slice() == [0x04, 0xD0, 0xD2].as_slice()
        && shards[3].as_slice() == [0x06, 0xB8, 0xBB].as_slice()
}

/// Whether shards hold a value.
fn hold(alloc: Global, k: u8, shards: &[Bytes], value: &[u8]) -> Result<bool, AllocError>
    requires { k ≤ length shards.now }
{
    Ok(value_of(alloc, k, shards)?.as_slice() == value)
}

/// Whether some of the shards give back all.
fn give_back(
    alloc: Global,
    n: u8,
    k: u8,
    got: &[(u8, Bytes)],
    shards: &[Bytes],
) -> Result<bool, RsFault>
    requires some { 1 ≤ k }
    requires within { k ≤ n }
    requires few { n ≤ most_nodes }
    requires shards { AreShards n got.now }
    requires short { All (λ x. length x.1 < 2 ^ 32) got.now }
{
    Ok(are_same(&rebuild(alloc, n, k, got)?, shards))
}

#[test]
fn worked_example(rt: HostRuntime) -> Result<(), Fail> {
    let alloc = rt.alloc();
    let shards = encode(alloc, 4, 2, b"hi")?;
    assert!(rt; are_worked_out(&shards) && hold(alloc, 2, &shards, b"hi")?);

    let third = (2, Bytes::copy(alloc, &[0x04, 0xD0, 0xD2])?);
    let fourth = (3, Bytes::copy(alloc, &[0x06, 0xB8, 0xBB])?);
    let got = vec![in alloc; fourth, third]?;
    assert!(rt; give_back(alloc, 4, 2, &got, &shards)?);
    let restored = restored(alloc, 4, 2, b"hi", 0b1010)?;
    assert!(rt; restored.as_slice() == b"hi".as_slice());
    Ok(())
}

/// Why some shards of four nodes, two of them data shards, are refused.
fn fault_of(alloc: Global, got: &[(u8, Bytes)]) -> Option<RsFault>
    requires shards { AreShards 4 got.now }
    requires short { All (λ x. length x.1 < 2 ^ 32) got.now }
{
    rebuild(alloc, 4, 2, got).err()
}

/// What is given too few or in different lengths is refused.
#[test]
fn refusals(rt: HostRuntime) -> Result<(), Fail> {
    let alloc = rt.alloc();
    let third = (2, Bytes::copy(alloc, &[0x04, 0xD0, 0xD2])?);
    let short = (3, Bytes::copy(alloc, &[0x06, 0xB8])?);
    let got = vec![in alloc; third, short]?;
    let one = fault_of(alloc, &got[..1]);
    let two = fault_of(alloc, &got);
    assert!(rt; matches!(one, Some(RsFault::TooFew { have: 1, need: 2 })));
    assert!(rt; matches!(two, Some(RsFault::Lengths { a: 3, b: 2 })));
    Ok(())
}

/// The lengths of the values: none, few bytes, the longest and one less.
const LENGTHS: [usize; 6] = [0, 1, 5, 255, 16_513, 16_514];

/// Every k of every n gives the shards that another program gives, and the first k of them, the last, every other
/// one and some drawn ones give back all.
#[test]
fn every_code(rt: HostRuntime) -> Result<(), Fail> {
    let alloc = rt.alloc();
    let longest = drawn_bytes(alloc, LONGEST_VALUE)?;
    for &(n, k, every_other, drawn, wanted) in &CODES {
        assert!(rt; 1 <= k && k <= n && n <= 16);
        let first = u16::MAX >> (16 - k);
        let choices = [first, first << (n - k), every_other, drawn];
        let mut hash = 0x811C_9DC5;
        for &len in &LENGTHS {
            assert!(rt; len <= longest.len() && len <= LONGEST_VALUE);
            hash = compare(&rt, alloc, n, k, &longest[..len], &choices, hash)?;
        }
        assert!(rt; hash == wanted, "k = {k} of n = {n}");
    }
    Ok(())
}

/// Every choice of two of 4 shards of a value, and of three of 7, gives back all.
#[test]
fn every_choice(rt: HostRuntime) -> Result<(), Fail> {
    let value = b"The quick brown fox jumps over lazy dogs";
    compare(&rt, rt.alloc(), 4, 2, value, &PAIRS, 0)?;
    compare(&rt, rt.alloc(), 7, 3, value, &TRIPLES, 0)?;
    Ok(())
}

/// Compares a value with what its shards hold, and these with what each choice of them gives back; the hash goes on
/// over them.
fn compare(
    rt: &impl Abort,
    alloc: Global,
    n: u8,
    k: u8,
    value: &[u8],
    choices: &[u16],
    hash: u32,
) -> Result<u32, Fail>
    requires some { 1 ≤ k }
    requires within { k ≤ n }
    requires few { n ≤ most_nodes }
    requires short { length value.now ≤ longest_value }
{
    let shards = encode(alloc, n, k, value)?;
    assert!(rt; hold(alloc, k, &shards, value)?);
    for choice in choices {
        let got = chosen(alloc, &shards, *choice)?;
        assert!(rt; give_back(alloc, n, k, &got, &shards)?);
    }
    Ok(
        shards
            .iter()
            .fold(hash, |hash, shard| hashed(hash, shard.as_slice())),
    )
}

/// Some bytes of the generator x := 1664525 x + 1013904223.
fn drawn_bytes(alloc: Global, len: usize) -> Result<Vec<u8>, AllocError> {
    let mut bytes = Vec::with_capacity(alloc, len)?;
    let mut state = 2026u32;
    for _ in 0..len {
        state = state.wrapping_mul(1_664_525).wrapping_add(1_013_904_223);
        bytes.push(state.to_be_bytes()[0])?;
    }
    Ok(bytes)
}

/// FNV-1a of 32 bits, which goes on from a hash.
fn hashed(hash: u32, bytes: &[u8]) -> u32 {
    bytes.iter().fold(
        hash,
        |hash, byte| (hash ^ *byte as u32).wrapping_mul(16_777_619),
    )
}

/// Whether two lists of shards are equal.
fn are_same(some: &[Bytes], others: &[Bytes]) -> bool {
    some.len() == others.len()
        && some
            .iter()
            .zip(others)
            .all(|(a, b)| a.as_slice() == b.as_slice())
}

/// The shards at whose indices the number has a bit.
fn chosen(alloc: Global, shards: &[Bytes], choice: u16) -> Result<Vec<(u8, Bytes)>, AllocError>
    requires few { length shards.now ≤ 16 }
    requires short { All (λ shard. length shard ≤ longest_shard) shards.now }
    ensures shards { IfOk result (λ got. AreShards (length shards.now) got.items) }
    ensures short { IfOk result (λ got. All (λ x. length x.1 < 2 ^ 32) got.items) }
    ensures taken { IfOk result (λ got. All (λ x. slice_get shards.now x.0 ≡ Some x.1) got.items) }
{
    let mut got = Vec::new(alloc);
    for i in 0..shards.len() {
        if choice >> i & 1 == 1 {
            got.push((i as u8, shards[i].clone()?))?;
        }
    }
    Ok(got)
}

/// What a caller does: the shards of a value go out, some come in, and the value is read. It is the value.
fn restored(alloc: Global, n: u8, k: u8, value: &[u8], choice: u16) -> Result<Bytes, Fail>
    requires some { 1 ≤ k }
    requires within { k ≤ n }
    requires few { n ≤ most_nodes }
    requires short { length value.now ≤ longest_value }
    ensures { IfOk result (λ read. read ≡ value.now) }
{
    let shards = encode(alloc, n, k, value)?;
    let got = chosen(alloc, &shards, choice)?;
    let rebuilt = rebuild(alloc, n, k, &got)?;
    Ok(value_of(alloc, k, &rebuilt)?)
}
