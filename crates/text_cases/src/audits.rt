//! What no clause of trace_audit says: that the calls find memory.

use hb_base::{Bytes, MemorySource};
use history_verdict::Verdict;
use std::alloc::{AllocError, Global};
use std::test::Fail;
use trace_audit::audit;
use trace_reader::TraceFault;

const NUMBERS: &str =
    "trace nodes 1 faulty 0 version 1 epochs 1 rounds 3 batch 64 seed 0 liars 0\n";

// Audits the text of one node whose lines these are behind the first.
fn audit_of(
    alloc: Global,
    lines: &str,
    take: u32,
) -> Result<Result<Verdict, TraceFault>, AllocError> {
    let text = format!(in alloc; "{NUMBERS}{lines}")?;
    let bytes = Bytes::copy(alloc, text.as_str().as_bytes())?;
    let mut source = MemorySource::new(bytes, 16, vec![in alloc; take]?);
    Ok(audit(alloc, &mut source))
}

// The text of no post comes in five pieces and a rest, and a take more finds its end.
#[test]
fn takes_that_fail(rt: HostRuntime) -> Result<(), Fail> {
    for &(take, wanted) in &[
        (1u32, Err(TraceFault::ReadFault)),
        (6, Err(TraceFault::ReadFault)),
        (7, Err(TraceFault::ReadFault)),
        (8, Ok(Verdict::Legal { posts: 0 })),
    ] {
        assert!(rt;
            audit_of(rt.alloc(), "end 0\n", take)? == wanted,
            "take {take}"
        );
    }
    Ok(())
}
