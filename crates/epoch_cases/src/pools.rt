//! What no clause of tx_pool says: that calls find memory and succeed, that the clauses mean what was meant, and that thousands
//! of transactions take little time.

use hb_base::Bytes;
use std::alloc::{AllocError, Global};
use std::test::Fail;
use tx_pool::{Pool, Submitted};

// Settles one transaction.
fn settle_one(alloc: Global, pool: &mut Pool, tx: &[u8]) -> Result<(), AllocError> {
    let mut txs = Vec::new(alloc);
    txs.push(Bytes::copy(alloc, tx)?)?;
    pool.settle(txs.as_slice())
}

// A pool that was told this script: a small letter is submitted, a great one settles its small one. The answers are
// told as A and K, and the pooled transactions as their letters.
fn told(alloc: Global, script: &[u8]) -> Result<(Vec<u8>, Vec<u8>), AllocError> {
    let mut pool = Pool::new(alloc);
    let mut answers = Vec::new(alloc);
    for letter in script {
        let tx = [letter.to_ascii_lowercase()];
        if letter.is_ascii_uppercase() {
            settle_one(alloc, &mut pool, &tx)?;
        } else {
            let answer = match pool.submit(&Bytes::copy(alloc, &tx)?)? {
                Submitted::Added => b'A',
                Submitted::Known => b'K',
            };
            answers.push(answer)?;
        }
    }
    Ok((answers, joined(alloc, pool.pooled())?))
}

// The bytes of these transactions, one behind the other.
fn joined(alloc: Global, txs: &[Bytes]) -> Result<Vec<u8>, AllocError> {
    let mut all = Vec::new(alloc);
    for tx in txs {
        all.extend_from_slice(tx.as_slice())?;
    }
    Ok(all)
}

#[test]
fn scripts(rt: HostRuntime) -> Result<(), Fail> {
    let alloc = rt.alloc();
    for &(script, answers, pooled) in &[
        ("", "", ""),
        ("bab", "AAK", "ba"),
        ("aaa", "AKK", "a"),
        ("Aa", "K", ""),
        ("abcB", "AAA", "ac"),
        ("abcBbdB", "AAAKA", "acd"),
        ("abcAC", "AAA", "b"),
        ("cbaXxC", "AAAK", "ba"),
        ("abABbac", "AAKKA", "c"),
    ] {
        let (told_answers, told_pooled) = told(alloc, script.as_bytes())?;
        assert!(rt;
            told_answers.as_slice() == answers.as_bytes()
                && told_pooled.as_slice() == pooled.as_bytes(),
            "answers to {script}, or what is pooled after it"
        );
    }
    Ok(())
}

#[test]
fn oldest_by_count(rt: HostRuntime) -> Result<(), Fail> {
    let alloc = rt.alloc();
    let mut pool = Pool::new(alloc);
    for tx in [b"cc".as_slice(), b"a", b"bbb"] {
        pool.submit(&Bytes::copy(alloc, tx)?)?;
    }
    for &(count, wanted) in &[
        (0, ""),
        (1, "cc"),
        (2, "cca"),
        (3, "ccabbb"),
        (255, "ccabbb"),
    ] {
        let txs = pool.oldest(count)?;
        assert!(rt;
            joined(alloc, txs.as_slice())?.as_slice() == wanted.as_bytes(),
            "oldest {count}"
        );
    }
    Ok(())
}

// Whether each of the numbers below this one, as four bytes, is answered so.
fn are_answered(
    alloc: Global,
    pool: &mut Pool,
    numbers: u32,
    wanted: Submitted,
) -> Result<bool, AllocError> {
    let mut all = true;
    for number in 0..numbers {
        let answer = pool.submit(&Bytes::copy(alloc, &number.to_be_bytes())?)?;
        all &= answer == wanted;
    }
    Ok(all)
}

// Some numbers as transactions: this many, from a first one on, each so much above the one before.
fn numbered(alloc: Global, first: u32, step: u32, count: u32) -> Result<Vec<Bytes>, AllocError> {
    let mut txs = Vec::new(alloc);
    let mut number = first;
    for _ in 0..count {
        txs.push(Bytes::copy(alloc, &number.to_be_bytes())?)?;
        number = number.saturating_add(step);
    }
    Ok(txs)
}

// Whether transactions are so many numbers, from a first one on, each so much above the one before.
fn are_numbered(txs: &[Bytes], count: usize, first: u32, step: u32) -> bool {
    let mut all = txs.len() == count;
    let mut number = first;
    for tx in txs {
        all &= tx.as_slice() == number.to_be_bytes().as_slice();
        number = number.saturating_add(step);
    }
    all
}

// Settles numbers as `numbered` makes them.
fn settle_numbered(
    alloc: Global,
    pool: &mut Pool,
    first: u32,
    step: u32,
    count: u32,
) -> Result<(), AllocError> {
    let txs = numbered(alloc, first, step, count)?;
    pool.settle(txs.as_slice())
}

// A pool of so many numbers.
fn full(alloc: Global, numbers: u32) -> Result<Option<Pool>, AllocError> {
    let mut pool = Pool::new(alloc);
    if are_answered(alloc, &mut pool, numbers, Submitted::Added)? {
        Ok(Some(pool))
    } else {
        Ok(None)
    }
}

#[test]
fn ten_thousand_submitted(rt: HostRuntime) -> Result<(), Fail> {
    let alloc = rt.alloc();
    let mut pool = full(alloc, 10_000)?.ok_or("a fresh one was known")?;
    let are_pooled = are_numbered(pool.pooled(), 10_000, 0, 1);
    let are_known = are_answered(alloc, &mut pool, 10_000, Submitted::Known)?;
    let oldest = pool.oldest(255)?;
    assert!(rt; are_pooled && are_known && are_numbered(oldest.as_slice(), 255, 0, 1));
    Ok(())
}

#[test]
fn ten_thousand_settled(rt: HostRuntime) -> Result<(), Fail> {
    let alloc = rt.alloc();
    let mut pool = full(alloc, 10_000)?.ok_or("a fresh one was known")?;
    // The even ones, and as many that were never submitted.
    settle_numbered(alloc, &mut pool, 0, 2, 10_000)?;
    let are_odd = are_numbered(pool.pooled(), 5_000, 1, 2);
    let are_known = are_answered(alloc, &mut pool, 10_000, Submitted::Known)?;
    settle_numbered(alloc, &mut pool, 1, 2, 5_000)?;
    assert!(rt; are_odd && are_known && pool.pooled().is_empty());
    Ok(())
}
