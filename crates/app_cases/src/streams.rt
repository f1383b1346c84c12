//! Puts that fail. Takes that fail, and other streams, `tools/hostile` and `tools/statuses` show.

use crate::calls::{Host, Request, call, check_run};
use crate::four::ALONE;
use std::alloc::{AllocError, Global};
use std::test::Fail;

// The lines of the run of one node with one transaction.
const LINES: [&str; 6] = [
    "run nodes 1 faulty 0 version 1 epochs 1\n",
    "node 0 running\n",
    "epoch 0 batches 1\n",
    "batch 0 txs 1\n",
    "tx 6869\n",
    "end 0\n",
];

// The lines of its observer.
const OBSERVED: [&str; 6] = [
    "observe nodes 1 faulty 0 version 1 epochs 1\n",
    "observer 0 epochs 1\n",
    "epoch 0 batches 1\n",
    "batch 0 txs 1\n",
    "tx 6869\n",
    "end 0\n",
];

// The run itself came to its end: its status is in the report.
fn check_cut(
    rt: &impl Host,
    alloc: Global,
    given: &Request<'_>,
    front: &str,
    told: &str,
) -> Result<(), AllocError> {
    let answer = call(rt, alloc, given)?;
    assert!(rt;
        answer.status == 7
            && answer.report.status == 0
            && answer.report.history.len() == 23
            && answer.out.held() == front.as_bytes()
            && answer.err.held() == told.as_bytes()
    );
    Ok(())
}

// Where a put fails, the lines before it have been put.
fn check_puts(
    rt: &impl Host,
    alloc: Global,
    word: &str,
    lines: [&str; 6],
) -> Result<(), AllocError> {
    let mut put = 0u32;
    let mut front = String::new(alloc);
    for line in lines {
        put = put.saturating_add(1);
        for (tell, told) in [(0, "write failed\n"), (1, "")] {
            let given = Request {
                put,
                tell,
                ..Request::new(word, ALONE)
            };
            check_cut(rt, alloc, &given, front.as_str(), told)?;
        }
        front.push_str(line)?;
    }
    let given = Request {
        put: 7,
        ..Request::new(word, ALONE)
    };
    check_run(rt, alloc, &given, (0, front.as_str()), "seventh put")
}

#[test]
fn puts_that_fail(rt: HostRuntime) -> Result<(), Fail> {
    check_puts(&rt, rt.alloc(), "run", LINES)?;
    check_puts(&rt, rt.alloc(), "observe", OBSERVED)?;
    Ok(())
}
