//! Batches and their bytes.

use hb_base::Bytes;
use hb_wire::*;
use std::alloc::{AllocError, Global};
use std::test::*;

// The bytes of the batch of these transactions.
fn written(alloc: Global, first: &[u8], second: &[u8]) -> Result<Bytes, Fail> {
    let mut batch = Vec::new(alloc);
    batch.push(Bytes::copy(alloc, first)?)?;
    batch.push(Bytes::copy(alloc, second)?)?;
    let fit = 1 <= first.len() && first.len() <= 256 && 1 <= second.len() && second.len() <= 256;
    if fit {
        Ok(write_batch(alloc, batch.as_slice())?)
    } else {
        Err("a short transaction".into())
    }
}

// Whether two transactions are read: `first` as the first of the whole batch, and `second` as the second by its number.
fn is_read(alloc: Global, bytes: &Bytes, first: &[u8], second: &[u8]) -> Result<bool, AllocError> {
    let batch = read_batch(alloc, bytes)?;
    let bytes = bytes.as_slice();
    let count = batch_len(bytes);
    Ok(
        count == 2
            && batch.len() == 2
            && batch[0].as_slice() == first
            && batch_at(bytes, 1) == second,
    )
}

#[test]
fn two(rt: HostRuntime) -> Result<(), Fail> {
    let bytes = written(rt.alloc(), b"a", b"bc")?;
    let expected = hex::decode(rt.alloc(), "000200016100026263")?;
    assert!(rt; bytes.as_slice() == expected.as_slice());
    assert!(rt; is_read(rt.alloc(), &bytes, b"a", b"bc")?);
    Ok(())
}

// Bytes that are no batch, or the empty one.
const EMPTY: &str = "\
-
00
0000
0001
00010000
00020001610002626300
0041
000101
010001
";

// Whether no transaction is read from the bytes.
fn is_empty(alloc: Global, text: &str) -> Result<bool, Fail> {
    let bytes = Bytes::from_vec(hex::decode(alloc, text)?)?;
    let batch = read_batch(alloc, &bytes)?;
    Ok(batch.is_empty() && batch_len(bytes.as_slice()) == 0)
}

#[test]
fn empty(rt: HostRuntime) -> Result<(), Fail> {
    for line in EMPTY.lines() {
        let text = if line == "-" { "" } else { line };
        assert!(rt; is_empty(rt.alloc(), text)?, "{line}");
    }
    Ok(())
}

fn put_transaction(out: &mut Vec<u8>, size: u16) -> Result<(), AllocError> {
    out.extend_from_slice(&size.to_be_bytes())?;
    for i in 0..size {
        out.push((i % 251) as u8)?;
    }
    Ok(())
}

// The bytes of the batch that is read from the bytes.
fn again(alloc: Global, bytes: &Bytes) -> Result<Bytes, Fail> {
    let batch = read_batch(alloc, bytes)?;
    if batch_len(bytes.as_slice()) == 0 {
        return Err("no batch".into());
    }
    Ok(write_batch(alloc, batch.as_slice())?)
}

// Whether so many transactions of this size are a batch, written again as they stood.
fn is_batch(alloc: Global, count: u16, size: u16) -> Result<bool, Fail> {
    let mut bytes = Vec::new(alloc);
    bytes.extend_from_slice(&count.to_be_bytes())?;
    for _ in 0..count {
        put_transaction(&mut bytes, size)?;
    }
    let bytes = Bytes::from_vec(bytes)?;
    let bytes_are_batch = batch_len(bytes.as_slice()) > 0;
    Ok(bytes_are_batch && again(alloc, &bytes)?.as_slice() == bytes.as_slice())
}

#[test]
fn limits(rt: HostRuntime) -> Result<(), Fail> {
    for &(count, size, fits) in &[
        (1, 1, true),
        (64, 256, true),
        (65, 1, false),
        (1, 257, false),
        (1, 0, false),
    ] {
        assert!(rt; is_batch(rt.alloc(), count, size)? == fits);
    }
    Ok(())
}
