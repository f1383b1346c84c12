//! What no clause of verdict_text says: that the lines are what was meant.

use crate::reports::failing_sink;
use hb_base::MemorySink;
use history_verdict::Verdict;
use std::test::Fail;
use trace_reader::TraceFault;
use verdict_text::{print_verdict, write_refusal};

const VERDICTS: [(Verdict, &str); 4] = [
    (Verdict::Legal { posts: 0 }, "legal 0\n"),
    (Verdict::Legal { posts: 23 }, "legal 23\n"),
    (Verdict::Illegal { post: 0 }, "illegal 0\n"),
    (Verdict::Illegal { post: 2_097_151 }, "illegal 2097151\n"),
];

const REFUSALS: [(TraceFault, &str); 5] = [
    (
        TraceFault::NotATrace { line: 2 },
        "refused 20 NotATrace line=2\n",
    ),
    (
        TraceFault::NotATrace {
            line: 4_294_967_295,
        },
        "refused 20 NotATrace line=4294967295\n",
    ),
    (TraceFault::TooLong, "refused 21 TooLongTrace\n"),
    (TraceFault::ReadFault, "read failed\n"),
    (TraceFault::Memory, "no memory\n"),
];

#[test]
fn verdicts(rt: HostRuntime) -> Result<(), Fail> {
    let alloc = rt.alloc();
    for &(verdict, line) in &VERDICTS {
        let mut out = MemorySink::new(alloc, Vec::new(alloc));
        let done = print_verdict(verdict, &mut out);
        assert!(rt; done.is_ok() && out.held() == line.as_bytes());
    }
    Ok(())
}

#[test]
fn refusals(rt: HostRuntime) -> Result<(), Fail> {
    let alloc = rt.alloc();
    for &(fault, line) in &REFUSALS {
        let mut out = MemorySink::new(alloc, Vec::new(alloc));
        let done = write_refusal(fault, &mut out);
        assert!(rt; done.is_ok() && out.held() == line.as_bytes());
    }
    Ok(())
}

// Each line is one put: where the first fails nothing is written, and a second is never made.
#[test]
fn puts_that_fail(rt: HostRuntime) -> Result<(), Fail> {
    for (call, fails) in [(1u32, true), (2, false)] {
        let mut out = failing_sink(rt.alloc(), call)?;
        let told = print_verdict(Verdict::Legal { posts: 1 }, &mut out);
        assert!(rt; told.is_err() == fails && out.held().is_empty() == fails);
        let mut err = failing_sink(rt.alloc(), call)?;
        let told = write_refusal(TraceFault::TooLong, &mut err);
        assert!(rt; told.is_err() == fails && err.held().is_empty() == fails);
    }
    Ok(())
}
