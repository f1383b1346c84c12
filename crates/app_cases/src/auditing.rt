//! What a caller is told that prints histories and audits them. What `audit` answers to other texts, `tools/statuses` shows.

use crate::callers::trace_and_audit;
use crate::calls::{Host, cast_of};
use crate::four::{ALONE, SPENT};
use hb_base::{Bytes, MemorySink, MemorySource};
use hb_rules::Report;
use std::alloc::{AllocError, Global};
use std::test::Fail;

// Scenarios, the statuses of `trace` and of `audit` behind it, and the line of the verdict.
const CALLERS: [(&str, (u8, u8), &str); 4] = [
    // scenarios/mixed_small.json, and the last line of scenarios/mixed_small.trace.out has the number of its posts
    (
        r#"{"nodes":4,"faulty":1,"epochs":1,"order":"mixed"}"#,
        (0, 0),
        "legal 352\n",
    ),
    // One node: it proposes, has four posts in the broadcast, and five in each of three rounds. Then it decides, wants no more
    // lanes, and closes.
    (ALONE, (0, 0), "legal 23\n"),
    // the same over two rounds, in which it decides nothing
    (SPENT, (5, 0), "legal 15\n"),
    // no scenario, so that nothing is printed
    ("{}", (3, 3), ""),
];

// Checks what the caller answers to a scenario.
fn check_caller(
    rt: &impl Host,
    alloc: Global,
    scenario: &str,
    statuses: (u8, u8),
    line: &str,
) -> Result<(), AllocError> {
    let bytes = Bytes::copy(alloc, scenario.as_bytes())?;
    let mut source = MemorySource::new(bytes, 4_096, Vec::new(alloc));
    let mut err = MemorySink::new(alloc, Vec::new(alloc));
    let mut report = Report::empty(alloc);
    let (ran, judged, verdict) = trace_and_audit(
        rt,
        alloc,
        &mut source,
        &mut err,
        cast_of(alloc)?,
        &mut report,
    )?;
    assert!(rt;
        (ran, judged) == statuses && verdict.held() == line.as_bytes(),
        "{scenario}"
    );
    Ok(())
}

#[test]
fn traces_that_are_audited(rt: HostRuntime) -> Result<(), Fail> {
    for &(scenario, statuses, line) in &CALLERS {
        check_caller(&rt, rt.alloc(), scenario, statuses, line)?;
    }
    Ok(())
}
