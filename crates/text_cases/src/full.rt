//! The text of a ledger with as many transactions as a run can have, and with more.

use crate::reports::{Told, report_of};
use hb_base::{Bytes, MemorySink};
use hb_rules::Report;
use hb_wire::{Post, PostBytes, To};
use ledger_text::print_run;
use std::alloc::{AllocError, Global};
use std::process::Abort;
use std::test::Fail;

// Adds the bytes of a batch of 64 transactions, told by the epoch, the node and their numbers.
fn put_batch(bytes: &mut Vec<u8>, epoch: u8, node: u8) -> Result<(), AllocError> {
    bytes.extend_from_slice(&[node, 0, 0, 1, 66, 0, 64])?;
    for t in 0..64u8 {
        bytes.extend_from_slice(&[0, 3, epoch, node, t])?;
    }
    Ok(())
}

// The bytes of a closed list with the batches of all sixteen nodes.
fn full_list(alloc: Global, epoch: u8) -> Result<Bytes, AllocError> {
    let mut bytes = Vec::from_slice(alloc, &[0x12, epoch, 16])?;
    for node in 0..16u8 {
        put_batch(&mut bytes, epoch, node)?;
    }
    Bytes::from_vec(bytes)
}

// A list with one transaction that no other has, three times, and two that others have.
const MORE: &[u8; 42] =
    b"\x12\x1f\x02\x03\x00\x00\x00\x11\x00\x03\x00\x03\xc8\x00\x00\x00\x03\xc8\x00\x00\x00\x03\x00\x00\x00\x05\x00\x00\x00\x0c\x00\x02\x00\x03\x1f\x0f\x3f\x00\x03\xc8\x00\x00";

fn post(bytes: Bytes) -> Post {
    Post {
        from: 0,
        actor: 16,
        to: To::Book,
        bytes: PostBytes::plain(bytes),
    }
}

// The report of a run among sixteen nodes, of which node 0 has closed all epochs.
fn full_report(alloc: Global) -> Result<Report, Fail> {
    let told = Told {
        nodes: 16,
        faulty: 5,
        liars: &[],
        ends: "",
        history: "",
        status: 4,
    };
    let mut report = report_of(alloc, told)?;
    for epoch in 0..32u8 {
        report.history.push(post(full_list(alloc, epoch)?))?;
    }
    Ok(report)
}

// FNV-1a.
fn hash_of(bytes: &[u8]) -> u64 {
    let mut hash = 0xcbf2_9ce4_8422_2325u64;
    for byte in bytes {
        hash = (hash ^ u64::from(*byte)).wrapping_mul(0x0100_0000_01b3);
    }
    hash
}

// Checks the length of the text of a run, and its hash.
fn check_text(rt: &impl Abort, alloc: Global, report: &Report, length: usize, hash: u64) {
    let mut out = MemorySink::new(alloc, Vec::new(alloc));
    let done = print_run(alloc, report, &mut out);
    assert!(rt; done.is_ok() && out.held().len() == length && hash_of(out.held()) == hash);
}

#[test]
fn full_ledger(rt: HostRuntime) -> Result<(), Fail> {
    let report = full_report(rt.alloc())?;
    check_text(&rt, rt.alloc(), &report, 336_444, 3_914_617_066_968_027_258);
    Ok(())
}

// A second list of the last epoch, with a transaction for which there is no more room.
#[test]
fn more_than_full(rt: HostRuntime) -> Result<(), Fail> {
    let mut report = full_report(rt.alloc())?;
    let more = Bytes::copy(rt.alloc(), MORE)?;
    report.history.push(post(more))?;
    check_text(&rt, rt.alloc(), &report, 336_501, 5_344_042_125_893_538_723);
    Ok(())
}
