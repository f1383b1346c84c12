//! Each kind of vote with its smallest and its largest fields: no front of its bytes is a vote, and nothing with a
//! byte behind it.

ghost use Rattle.std.specs.Prelude.{◌≤◌};

use hb_wire::*;
use std::alloc::{AllocError, Global};
use std::test::*;

const KINDS: [u8; 14] = [
    0x01, 0x02, 0x03, 0x04, 0x05, 0x06, 0x07, 0x08, 0x09, 0x0A, 0x0B, 0x10, 0x11, 0x12,
];

// So many different bytes.
fn put_block(out: &mut Vec<u8>, size: u32) -> Result<(), AllocError> {
    for i in 0..size {
        out.push((i % 251) as u8)?;
    }
    Ok(())
}

fn put_text(out: &mut Vec<u8>, size: u32) -> Result<(), AllocError> {
    out.extend_from_slice(&size.to_be_bytes())?;
    put_block(out, size)
}

// The digests of a branch among 1, 4 or 16 nodes.
fn put_path(out: &mut Vec<u8>, n: u8) -> Result<(), AllocError> {
    let height = match n {
        1 => 0,
        4 => 2,
        _ => 4,
    };
    put_block(out, 32 * height)
}

fn put_shard(out: &mut Vec<u8>, n: u8, large: bool) -> Result<(), AllocError> {
    put_block(out, 32)?;
    put_text(out, if large { 16_520 } else { 1 })?;
    put_path(out, n)
}

fn put_value(out: &mut Vec<u8>, large: bool) -> Result<(), AllocError> {
    put_text(out, if large { 16_514 } else { 0 })
}

// No item, or one of each node, the first of them large.
fn put_items(out: &mut Vec<u8>, n: u8, large: bool) -> Result<(), AllocError> {
    let count = if large { n } else { 0 };
    out.push(count)?;
    for node in 0..count {
        out.push(node)?;
        put_value(out, node == 0)?;
    }
    Ok(())
}

fn put_fields(out: &mut Vec<u8>, kind: u8, n: u8, large: bool) -> Result<(), AllocError> {
    let top = if large { 31 } else { 0 };
    match kind {
        0x01 => {
            out.push(if large { n.saturating_sub(1) } else { 0 })?;
            put_shard(out, n, large)
        }
        0x02 => put_shard(out, n, large),
        0x03 => put_block(out, 32),
        0x04 | 0x10 => put_value(out, large),
        0x05 | 0x06 | 0x07 => out.extend_from_slice(&[top, large as u8]),
        0x08 | 0x0B => out.extend_from_slice(&[top, if large { 3 } else { 1 }]),
        0x09 => {
            out.extend_from_slice(&[top, if large { 255 } else { 0 }])?;
            put_block(out, 16)?;
            put_path(out, n)
        }
        0x0A => out.extend_from_slice(&[large as u8]),
        0x11 => Ok(()),
        _ => put_items(out, n, large),
    }
}

// Whether the bytes are read and written again.
fn is_accepted(alloc: Global, n: u8, bytes: &[u8]) -> Result<bool, Fail>
    requires some { 1 ≤ n }
    requires few { n ≤ 16 }
{
    let vote = read(alloc, n, 2, bytes)?;
    let written = write(alloc, n, 2, &vote)?;
    Ok(written.as_slice() == bytes)
}

// Whether no front of the bytes is a vote.
fn is_first(n: u8, bytes: &[u8]) -> bool
    requires some { 1 ≤ n }
    requires few { n ≤ 16 }
{
    for len in 0..bytes.len() {
        if view(n, 2, &bytes[..len]).is_some() {
            return false;
        }
    }
    true
}

// Whether the bytes with one more are no vote.
fn is_last(n: u8, bytes: &mut Vec<u8>) -> Result<bool, Fail>
    requires some { 1 ≤ n }
    requires few { n ≤ 16 }
{
    for byte in 0..=255 {
        bytes.push(byte)?;
        if view(n, 2, bytes.as_slice()).is_some() {
            return Ok(false);
        }
        let _ = bytes.pop();
    }
    Ok(true)
}

// Whether a kind stands alone, with fields of this size.
fn is_bounded(alloc: Global, kind: u8, n: u8, large: bool) -> Result<bool, Fail>
    requires some { 1 ≤ n }
    requires few { n ≤ 16 }
{
    let mut bytes = Vec::new(alloc);
    bytes.extend_from_slice(&[kind, if large { 31 } else { 0 }])?;
    put_fields(&mut bytes, kind, n, large)?;
    Ok(is_accepted(alloc, n, &bytes)? && is_first(n, &bytes) && is_last(n, &mut bytes)?)
}

#[test]
fn bounds(rt: HostRuntime) -> Result<(), Fail> {
    for &kind in &KINDS {
        for n in [1, 4, 16] {
            let is_small = is_bounded(rt.alloc(), kind, n, false)?;
            let is_large = is_bounded(rt.alloc(), kind, n, true)?;
            assert!(rt; is_small && is_large);
        }
    }
    Ok(())
}
