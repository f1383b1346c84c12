//! Batches of transactions as bytes.

ghost use Rattle.std.specs.Prelude.{◌≡◌, ℕ, ◌++◌, ◌≤◌, ◌<◌, ◌^◌, List, length, drop, slice_index_or, IfOk, OnOk, IfSome};
ghost use Rattle.std.specs.List.{flat_map};
ghost use Rattle.std.specs.Int.{w16, to_be_bytes};
ghost use Rattle.hb_base.specs.Limits.{most_batch, longest_value};
ghost use Rattle.hb_base.specs.ByteLists.{AreBytes};
ghost use Rattle.hb_wire.specs.Reading.{Shows};
ghost use Rattle.hb_wire.specs.Batches.{IsBatch, batch_bytes, transaction_bytes, short_at, transaction_at, transactions_at, after_transactions};
ghost use Rattle.hb_wire.specs.Batches.{count_at, batch_of};

use crate::fields::block_of;
use hb_base::Bytes;
use hb_base::limits::{LONGEST_TRANSACTION, MOST_BATCH};
use std::alloc::{AllocError, Global};

// A number of 2 bytes, and the bytes after it.
fn short_of(bytes: &[u8]) -> Option<(u16, &[u8])>
    ensures { Shows (λ x. (x.0, x.1.now)) result (short_at bytes.now) }
{
    if bytes.len() < 2 {
        return None;
    }
    let (front, rest) = bytes.split_at(2);
    Some((u16::from_be_bytes([front[0], front[1]]), rest))
}

// A transaction, and the bytes after it.
#[tactic(auto, unfolding(crate::specs::Batches::transaction_at))]
fn transaction_of(bytes: &[u8]) -> Option<(&[u8], &[u8])>
    ensures { Shows (λ x. (x.0.now, x.1.now)) result (transaction_at bytes.now) }
{
    let (len, rest) = short_of(bytes)?;
    let len = len as usize;
    if len < 1 || LONGEST_TRANSACTION < len {
        return None;
    }
    block_of(len, rest)
}

// The bytes behind so many transactions.
#[tactic(auto, using(crate::proofs::BatchLemmas::transactions_stop, crate::proofs::BatchLemmas::transactions_end))]
fn after_transactions_of(count: u16, bytes: &[u8]) -> Option<&[u8]>
    ensures { Shows (λ rest. rest.now) result (after_transactions count bytes.now) }
{
    let mut rest = bytes;
    'transactions: for _ in 0..count {
        let (_, after) = transaction_of(rest)?;
        rest = after;
    }
    Some(rest)
}

// How many transactions the batch has, if the bytes are one.
#[tactic(auto, unfolding(crate::specs::Batches::count_at))]
fn count_of(bytes: &[u8]) -> Option<u16>
    ensures shows { Shows (λ count. count) result (count_at bytes.now) }
    ensures few { IfSome result (λ count. count ≤ most_batch) }
{
    let (count, rest) = short_of(bytes)?;
    if (MOST_BATCH as u16) < count {
        return None;
    }
    let rest = after_transactions_of(count, rest)?;
    if rest.is_empty() { Some(count) } else { None }
}

/// The length of the list that `read_batch` gives: 0 to 64. It takes no memory.
pub fn batch_len(bytes: &[u8]) -> u8
    ensures exact { result ≡ length (batch_of bytes.now) }

    // Bytes from which a transaction is read are the spelling of all that are read.
    ensures spelled { 0 < result → IsBatch (batch_of bytes.now) × (bytes.now ≡ batch_bytes (batch_of bytes.now)) }
{
    match count_of(bytes) {
        Some(count) => count as u8,
        None => 0,
    }
}

/// Transaction t of the batch, from 0 on: 1 to 256 bytes. It takes no memory.
pub fn batch_at(bytes: &[u8], t: u8) -> &[u8]
    requires { t < length (batch_of bytes.now) }
    ensures { (d : List ℕ) → slice_index_or (batch_of bytes.now) t d ≡ result.now }
{
    let left = &bytes[2..];
    let Some(left) = after_transactions_of(t as u16, left) else {
        return left;
    };
    match transaction_of(left) {
        Some((transaction, _)) => transaction,
        None => left,
    }
}

// Each of so many transactions, which stand behind the count, as a part of the bytes.
fn transactions_of(alloc: Global, count: u8, bytes: &Bytes) -> Result<Vec<Bytes>, AllocError>
    requires { 2 ≤ length bytes.now }
    ensures { (x : List (List ℕ) × List ℕ) → transactions_at count (drop 2 bytes.now) ≡ Some x → IfOk result (λ batch. batch.items ≡ x.0) }
{
    let mut batch = Vec::with_capacity(alloc, count as usize)?;
    let mut at = 2;
    'transactions: for _ in 0..count {
        let left = &bytes.as_slice()[at..];
        let Some((transaction, _)) = transaction_of(left) else {
            return Ok(batch);
        };
        let len = transaction.len();
        let part = bytes.part(at + 2, len)?;
        batch.push(part)?;
        at += 2 + len;
    }
    Ok(batch)
}

/// The transactions of the batch that the bytes are: none where they are no batch. They are parts of the bytes, and no
/// copies. Err where there is no memory for the list, or the bytes have as many owners as they may.
pub fn read_batch(alloc: Global, bytes: &Bytes) -> Result<Vec<Bytes>, AllocError>
    ensures { IfOk result (λ batch. batch.items ≡ batch_of bytes.now) }
{
    match batch_len(bytes.as_slice()) {
        0 => Ok(Vec::new(alloc)),
        count => transactions_of(alloc, count, bytes),
    }
}

fn put_transaction(out: &mut Vec<u8>, transaction: &[u8]) -> Result<(), AllocError>
    requires { length transaction.now < 2 ^ 16 }
    ensures { OnOk result (out.new.items ≡ out.old.items ++ transaction_bytes transaction.now) }
{
    out.extend_from_slice(&(transaction.len() as u16).to_be_bytes())?;
    out.extend_from_slice(transaction)
}

fn put_batch(out: &mut Vec<u8>, batch: &[Bytes]) -> Result<(), AllocError>
    requires { IsBatch batch.now }
    ensures spelled { OnOk result (out.new.items ≡ out.old.items ++ batch_bytes batch.now) }
    ensures bytes { OnOk result (AreBytes out.new.items) }
{
    out.extend_from_slice(&(batch.len() as u16).to_be_bytes())?;
    for transaction in batch {
        put_transaction(out, transaction.as_slice())?;
    }
    Ok(())
}

/// The bytes of a batch, from which the same transactions are read. They can be proposed as a value. Err where there is
/// no memory for them.
pub fn write_batch(alloc: Global, batch: &[Bytes]) -> Result<Bytes, AllocError>
    requires { IsBatch batch.now }
    ensures spelled { IfOk result (λ bytes. bytes ≡ batch_bytes batch.now) }
    ensures read_back { IfOk result (λ bytes. batch_of bytes ≡ batch.now) }
    ensures value { IfOk result (λ bytes. (length bytes ≤ longest_value) × AreBytes bytes) }
{
    let mut out = Vec::new(alloc);
    put_batch(&mut out, batch)?;
    Bytes::from_vec(out)
}

/// A batch is read from its spelling.
pub fn one_batch()
    ensures { (batch : List (List ℕ)) → IsBatch batch → batch_of (batch_bytes batch) ≡ batch }
{}
