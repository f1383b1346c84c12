//! The erasure code: a value is framed and cut into k data shards, and n shards in all are such that any k of
//! them give back the rest. Each column of bytes is a polynomial of a degree below k over the field of 256
//! elements, whose value at m is the byte of shard m (Reed and Solomon 1960).
#![tactic(auto)]

ghost use Rattle.std.specs.Prelude.{◌≡◌, ℕ, ◌+◌, ◌*◌, ◌/◌, ◌<◌, ◌≤◌, length, IfOk, map, take, drop, All, ◌^◌, IfSome, IsNone, MatchResult, MatchOption, slice_index, slice_get, ◌==◌, IsTrue, false, List, [], ◌++◌};
ghost use Rattle.std.specs.List.{list_all, concat};
ghost use Rattle.rs_shards.specs.Column.{AreEven};
ghost use Rattle.hb_base.specs.ByteLists.{AreBytes};
ghost use Rattle.hb_base.specs.Limits.{most_nodes, longest_value, longest_shard};
ghost use Rattle.rs_shards.specs.Completing.{are_even, completed, encoded, IsEncoding, shard_length};
ghost use Rattle.rs_shards.specs.Frame.{frame, framed_value, value_in, is_frame, stated_length};
ghost use Rattle.rs_shards.specs.Rebuilding.{AreShards, lengths, other_length, IsRebuilt};
ghost use Rattle.rs_shards.specs.Codeword.{IsCodeword};

mod completing;
mod fault;
mod laws;

use completing::complete;
pub use fault::RsFault;
use hb_base::Bytes;
use hb_base::limits::LONGEST_VALUE;
pub use laws::{codeword_laws, completing_laws, encoding_laws, frame_laws};
use std::alloc::{AllocError, Global};

/// The n shards of a value: the codeword whose first k shards, put together, are the frame of the value.
/// The shards have one length.
pub fn encode(alloc: Global, n: u8, k: u8, value: &[u8]) -> Result<Vec<Bytes>, AllocError>
    requires some { 1 ≤ k }
    requires within { k ≤ n }
    requires few { n ≤ most_nodes }
    requires short { length value.now ≤ longest_value }
    ensures encoding { IfOk result (λ shards. IsEncoding n k value.now shards.items) }
    ensures encoded { IfOk result (λ shards. shards.items ≡ encoded n k value.now) }

    ensures lengths { IfOk result (λ shards. All (λ shard. length shard ≡ shard_length k (length value.now)) shards.items) }
    ensures filled { IfOk result (λ shards. All (λ shard. 1 ≤ length shard) shards.items) }
    ensures short { IfOk result (λ shards. All (λ shard. length shard ≤ longest_shard) shards.items) }
    ensures bytes { IfOk result (λ shards. All AreBytes shards.items) }
{
    let frame = framed(alloc, k, value)?;
    let width = frame.len() / k as usize;
    let mut pieces = Vec::with_capacity(alloc, k as usize)?;
    for i in 0..k {
        let start = i as usize * width;
        pieces.push((i, Bytes::copy(alloc, &frame[start..start + width])?))?;
    }
    complete(alloc, n, &pieces)
}

/// All n shards of the one codeword that has the first k of the given shards, each at its index. What is
/// given beyond these is not looked at. The first that holds is answered:
/// `TooFew` where fewer than k shards are given, with both numbers; `Lengths` where among the first k one
/// has another length than the first, with the two lengths, at the first such; `Memory`.
pub fn rebuild(alloc: Global, n: u8, k: u8, got: &[(u8, Bytes)]) -> Result<Vec<Bytes>, RsFault>
    requires some { 1 ≤ k }
    requires within { k ≤ n }
    requires few { n ≤ most_nodes }
    requires shards { AreShards n got.now }
    requires short { All (λ x. length x.1 < 2 ^ 32) got.now }
    ensures too_few { length got.now < k → result ≡ Err (RsFault.TooFew (length got.now) k) }
    ensures unequal { k ≤ length got.now
        → IfSome (other_length (take k got.now)) (λ other. result ≡ Err (RsFault.Lengths (slice_index (lengths got.now) 0) other)) }
    ensures rebuilt { k ≤ length got.now → IsNone (other_length (take k got.now))
        → MatchResult result (λ shards. IsRebuilt n k got.now shards.items) (λ fault. fault ≡ RsFault.Memory) }

    // shards of one codeword give it back
    ensures gives_back { (shards : List (List ℕ)) → k ≤ length got.now → IsCodeword n k shards → All (λ x. slice_get shards x.0 ≡ Some x.1) got.now
        → MatchResult result (λ all. all.items ≡ shards) (λ fault. fault ≡ RsFault.Memory) }

    ensures completed { IfOk result (λ shards. shards.items ≡ completed n k got.now) }
    ensures even { IfOk result (λ _. IsTrue (are_even (take k got.now))) }
    ensures uneven { (a b : ℕ) → result ≡ Err (RsFault.Lengths a b) → are_even (take k got.now) ≡ false }
{
    if got.len() < k as usize {
        return Err(RsFault::TooFew {
            have: got.len() as u8,
            need: k,
        });
    }
    let first = &got[..k as usize];
    if let Some((a, b)) = unequal_lengths(first) {
        return Err(RsFault::Lengths { a, b });
    }
    match complete(alloc, n, first) {
        Ok(shards) => Ok(shards),
        Err(_) => Err(RsFault::Memory),
    }
}

/// The value whose frame the first k shards, put together, are; the empty value where they are no frame.
pub fn value_of(alloc: Global, k: u8, shards: &[Bytes]) -> Result<Bytes, AllocError>
    requires { k ≤ length shards.now }
    ensures value { IfOk result (λ value. value ≡ framed_value k shards.now) }
    ensures reads_back { (n : ℕ) (value : List ℕ) → 1 ≤ k → length value ≤ longest_value → IsEncoding n k value shards.now
        → IfOk result (λ read. read ≡ value) }

    ensures short { IfOk result (λ value. length value ≤ longest_value) }
    ensures bytes { IfOk result AreBytes }
{
    value_behind(alloc, &[], k, shards)
}

/// The same value. That of a frame is a part of shared bytes, in which `front` and the length of the value in four bytes stand
/// before it. The empty value that is told where the shards are no frame stands in bytes of its own, with nothing before it. No
/// clause tells of what stands before.
pub fn value_behind(
    alloc: Global,
    front: &[u8],
    k: u8,
    shards: &[Bytes],
) -> Result<Bytes, AllocError>
    requires { k ≤ length shards.now }
    ensures value { IfOk result (λ value. value ≡ framed_value k shards.now) }
    ensures reads_back { (n : ℕ) (value : List ℕ) → 1 ≤ k → length value ≤ longest_value → IsEncoding n k value shards.now
        → IfOk result (λ read. read ≡ value) }

    ensures short { IfOk result (λ value. length value ≤ longest_value) }
    ensures bytes { IfOk result AreBytes }
{
    let whole = Bytes::from_vec(joined(alloc, front, &shards[..k as usize])?)?;
    match value_len(k, &whole.as_slice()[front.len()..]) {
        Some(len) => whole.part(front.len() + 4, len),
        None => Bytes::copy(alloc, &[]),
    }
}

/// The shards, put together behind these bytes.
fn joined(alloc: Global, front: &[u8], shards: &[Bytes]) -> Result<Vec<u8>, AllocError>
    ensures { IfOk result (λ bytes. bytes.items ≡ front.now ++ concat shards.now) }
{
    let mut bytes = Vec::with_capacity(alloc, joined_len(front, shards))?;
    bytes.extend_from_slice(front)?;
    for shard in shards {
        bytes.extend_from_slice(shard.as_slice())?;
    }
    Ok(bytes)
}

/// How many bytes they take, so that their room is asked for once.
fn joined_len(front: &[u8], shards: &[Bytes]) -> usize {
    let mut len = front.len();
    for shard in shards {
        len = len.saturating_add(shard.as_slice().len());
    }
    len
}

/// The frame of a value: its length in four bytes, the highest first, the value, and the fewest zero bytes
/// that make it a multiple of k bytes.
fn framed(alloc: Global, k: u8, value: &[u8]) -> Result<Vec<u8>, AllocError>
    requires some { 1 ≤ k }
    requires short { length value.now ≤ longest_value }
    ensures { IfOk result (λ bytes. bytes.items ≡ frame k value.now) }
{
    let k = k as usize;
    let len = 4 + value.len();
    let mut frame = Vec::with_capacity(alloc, len + k)?;
    frame.extend_from_slice(&(value.len() as u32).to_be_bytes())?;
    frame.extend_from_slice(value)?;
    for _ in 0..(k - len % k) % k {
        frame.push(0)?;
    }
    Ok(frame)
}

/// The length of the value in a frame, or None where the frame is false.
fn value_len(k: u8, frame: &[u8]) -> Option<usize>
    ensures value { MatchOption result (value_in k frame.now ≡ []) (λ len. value_in k frame.now ≡ take len (drop 4 frame.now)) }
    ensures inside { IfSome result (λ len. 4 + len ≤ length frame.now) }
    ensures bytes { AreBytes (value_in k frame.now) }
{
    if is_frame(k, frame) {
        Some(stated_length(frame))
    } else {
        None
    }
}

/// Whether these bytes are the frame of a value for k data shards.
fn is_frame(k: u8, bytes: &[u8]) -> bool
    ensures value { result ≡ is_frame k bytes.now }
    ensures inside { IsTrue result → 4 + stated_length bytes.now ≤ length bytes.now }
{
    if bytes.len() < 4 {
        return false;
    }
    let len = stated_length(bytes);
    if len > LONGEST_VALUE {
        return false;
    }
    if bytes.len() < 4 + len {
        return false;
    }
    let rest = &bytes[4 + len..];
    if rest.len() >= k as usize {
        return false;
    }
    are_zero(rest)
}

/// Whether each byte is zero.
fn are_zero(bytes: &[u8]) -> bool
    ensures { result ≡ list_all (λ b. b == 0) bytes.now }
{
    bytes.iter().all(|byte| *byte == 0)
}

/// The length that the first four bytes state.
fn stated_length(bytes: &[u8]) -> usize
    requires { 4 ≤ length bytes.now }
    ensures value { result ≡ stated_length bytes.now }
    ensures bound { result < 2 ^ 32 }
{
    u32::from_be_bytes([bytes[0], bytes[1], bytes[2], bytes[3]]) as usize
}

/// The length of the first shard, and the first length that differs from it, if one does.
// Where none does, each byte was read, and so is known to be one.
fn unequal_lengths(shards: &[(u8, Bytes)]) -> Option<(u32, u32)>
    requires some { 0 < length shards.now }
    requires short { All (λ x. length x.1 < 2 ^ 32) shards.now }
    ensures { MatchOption result ((other_length shards.now ≡ None) × AreEven shards.now)
        (λ two. (two.0 ≡ slice_index (lengths shards.now) 0) × (other_length shards.now ≡ Some two.1)) }
{
    let a = shards[0].1.as_slice().len();
    for shard in shards {
        let bytes = shard.1.as_slice();
        if bytes.len() != a {
            return Some((a as u32, bytes.len() as u32));
        }
    }
    None
}
