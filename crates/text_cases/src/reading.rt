//! What no clause of trace_reader says: that calls find memory, and that its definitions say what was meant.

use crate::rows::{POSTS, Row, TEXT};
use hb_base::{Bytes, Config, MemorySource, NodeSet};
use std::alloc::{AllocError, Global};
use std::process::Abort;
use std::test::Fail;
use trace_reader::{Trace, TraceFault, read_trace};

fn read(alloc: Global, text: &str) -> Result<Result<Trace, TraceFault>, AllocError> {
    let bytes = Bytes::copy(alloc, text.as_bytes())?;
    Ok(read_trace(alloc, &mut MemorySource::new(bytes, 7, Vec::new(alloc))))
}

fn check_posts(rt: &impl Abort, trace: &Trace, rows: &[Row]) {
    assert!(rt; trace.posts.len() == rows.len());
    for (post, (from, actor, to, bytes)) in trace.posts.iter().zip(rows) {
        assert!(rt;
            post.from == *from
                && post.actor == *actor
                && post.to == *to
                && post.bytes.as_slice() == *bytes
        );
    }
}

// Checks that a text is a trace with this configuration and these posts.
fn check_trace(
    rt: &impl Abort,
    alloc: Global,
    text: &str,
    config: Config,
    rows: &[Row],
) -> Result<(), Fail> {
    let Ok(trace) = read(alloc, text)? else {
        return Err("no trace")?;
    };
    assert!(rt; trace.config == config);
    check_posts(rt, &trace, rows);
    Ok(())
}

#[test]
fn a_text_of_25_lines(rt: HostRuntime) -> Result<(), Fail> {
    let config = Config::new(1, 0, 1, 3, 64, 0, 1, NodeSet::new()).ok_or("no config")?;
    check_trace(&rt, rt.alloc(), TEXT, config, &POSTS)
}

// Sixteen nodes, of which 0, 3 and 15 lie, and no post.
#[test]
fn the_greatest_numbers(rt: HostRuntime) -> Result<(), Fail> {
    let text =
        "trace nodes 16 faulty 5 version 2 epochs 32 rounds 32 batch 64 seed 18446744073709551615 liars 32777\nend 0\n";
    let mut liars = NodeSet::new();
    for node in [0, 3, 15] {
        liars.add(node);
    }
    let config = Config::new(16, 5, 32, 32, 64, u64::MAX, 2, liars).ok_or("no config")?;
    check_trace(&rt, rt.alloc(), text, config, &[])
}

// The fault for which a source gives no trace, and none where it gives one.
fn fault_of(alloc: Global, source: &mut MemorySource) -> Option<TraceFault> {
    match read_trace(alloc, source) {
        Ok(_) => None,
        Err(fault) => Some(fault),
    }
}

#[test]
fn a_take_that_fails(rt: HostRuntime) -> Result<(), Fail> {
    let alloc = rt.alloc();
    for call in [1, 2, 100] {
        let bytes = Bytes::copy(alloc, TEXT.as_bytes())?;
        let mut source = MemorySource::new(bytes, 7, vec![in alloc; call]?);
        assert!(rt; fault_of(alloc, &mut source) == Some(TraceFault::ReadFault));
    }
    Ok(())
}
