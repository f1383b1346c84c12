//! Texts of histories.

use crate::reports::{failing_sink, lines};
use hb_base::{Bytes, Config, MemorySink, NodeSet};
use hb_rules::Report;
use hb_wire::{Post, PostBytes, To};
use std::alloc::Global;
use std::process::Abort;
use std::test::Fail;
use trace_text::print_trace;

// A report of a run with these posts.
fn report_of(alloc: Global, config: Config, posts: &[(u8, u8, To, &[u8])]) -> Result<Report, Fail> {
    let mut report = Report::empty(alloc);
    report.config = config;
    for (from, actor, to, bytes) in posts {
        report.history.push(Post {
            from: *from,
            actor: *actor,
            to: *to,
            bytes: PostBytes::plain(Bytes::copy(alloc, bytes)?),
        })?;
    }
    Ok(report)
}

// The first and the last posts of one node.
const ONE_NODE: [(u8, u8, To, &[u8]); 3] = [
    (
        0,
        1,
        To::Home,
        b"\x10\x00\x00\x00\x00\x06\x00\x01\x00\x02hi",
    ),
    (0, 1, To::Home, b"\x11\x00"),
    (
        0,
        1,
        To::Book,
        b"\x12\x00\x01\x00\x00\x00\x00\x06\x00\x01\x00\x02hi",
    ),
];

const ONE_NODE_TEXT: &str =
    "trace nodes 1 faulty 0 version 1 epochs 1 rounds 3 batch 64 seed 0 liars 0
post 0 from 0 actor 1 to home 100000000006000100026869
post 1 from 0 actor 1 to home 1100
post 2 from 0 actor 1 to book 1200010000000006000100026869
end 3
";

// Each address, a post without bytes, and numbers up to 255.
const ADDRESSES: [(u8, u8, To, &[u8]); 6] = [
    (0, 0, To::Book, b""),
    (15, 16, To::All, b"\xff"),
    (255, 255, To::Node(255), b"\x00\x01"),
    (3, 0, To::Node(0), b"\xab\xcd\xef"),
    (10, 100, To::Home, b"\x0a"),
    (0, 0, To::All, b""),
];

const ADDRESSES_TEXT: &str =
    "trace nodes 16 faulty 5 version 2 epochs 32 rounds 32 batch 1 seed 18446744073709551615 liars 32777
post 0 from 0 actor 0 to book -
post 1 from 15 actor 16 to all ff
post 2 from 255 actor 255 to node 255 0001
post 3 from 3 actor 0 to node 0 abcdef
post 4 from 10 actor 100 to home 0a
post 5 from 0 actor 0 to all -
end 6
";

fn one_node(alloc: Global) -> Result<Report, Fail> {
    let config = Config::new(1, 0, 1, 3, 64, 0, 1, NodeSet::new()).ok_or("no config")?;
    report_of(alloc, config, &ONE_NODE)
}

// Sixteen nodes, of which 0, 3 and 15 lie.
fn sixteen(alloc: Global, posts: &[(u8, u8, To, &[u8])]) -> Result<Report, Fail> {
    let mut liars = NodeSet::new();
    for node in [0, 3, 15] {
        liars.add(node);
    }
    let config = Config::new(16, 5, 32, 32, 1, u64::MAX, 2, liars).ok_or("no config")?;
    report_of(alloc, config, posts)
}

// Checks that the trace of this report is this text.
fn check_text(rt: &impl Abort, alloc: Global, report: &Report, wanted: &str) {
    let mut out = MemorySink::new(alloc, Vec::new(alloc));
    let done = print_trace(report, &mut out);
    assert!(rt;
        done.is_ok() && out.held() == wanted.as_bytes(),
        "the text {wanted}"
    );
}

#[test]
fn traces(rt: HostRuntime) -> Result<(), Fail> {
    let alloc = rt.alloc();
    check_text(&rt, alloc, &one_node(alloc)?, ONE_NODE_TEXT);
    check_text(&rt, alloc, &sixteen(alloc, &ADDRESSES)?, ADDRESSES_TEXT);
    Ok(())
}

// The text of a post of so many bytes A5, behind the first line.
fn long_text(alloc: Global, count: u32) -> Result<Vec<u8>, Fail> {
    let mut text = Vec::from_slice(alloc, b"post 0 from 1 actor 2 to all ")?;
    for _ in 0..count {
        text.extend_from_slice(b"a5")?;
    }
    text.extend_from_slice(b"\nend 1\n")?;
    Ok(text)
}

// So many bytes A5.
fn long_bytes(alloc: Global, count: u32) -> Result<Vec<u8>, Fail> {
    let mut bytes = Vec::new(alloc);
    for _ in 0..count {
        bytes.push(0xa5)?;
    }
    Ok(bytes)
}

// The report of a run with one post of so many bytes A5.
fn long_report(alloc: Global, count: u32) -> Result<Report, Fail> {
    let bytes = long_bytes(alloc, count)?;
    sixteen(alloc, &[(1, 2, To::All, bytes.as_slice())])
}

#[test]
fn long_posts(rt: HostRuntime) -> Result<(), Fail> {
    let alloc = rt.alloc();
    for count in [1, 255, 256, 257, 511, 512, 513, 20_000] {
        let report = long_report(alloc, count)?;
        let text = long_text(alloc, count)?;
        let mut out = MemorySink::new(alloc, Vec::new(alloc));
        let done = print_trace(&report, &mut out);
        let front = lines(out.held(), 1).len();
        assert!(rt;
            done.is_ok()
                && out.held().ends_with(text.as_slice())
                && out.held().len() == front.saturating_add(text.len()),
            "a post of {count} bytes"
        );
    }
    Ok(())
}

#[test]
fn a_put_fails(rt: HostRuntime) -> Result<(), Fail> {
    let report = one_node(rt.alloc())?;
    for call in 1..6u32 {
        let mut out = failing_sink(rt.alloc(), call)?;
        let done = print_trace(&report, &mut out);
        assert!(rt;
            done.is_err() && out.held() == lines(ONE_NODE_TEXT.as_bytes(), call.saturating_sub(1)),
            "put {call}"
        );
    }
    Ok(())
}
