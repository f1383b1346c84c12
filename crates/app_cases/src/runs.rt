//! What a caller is told of runs. What the program prints of them, the scenarios of scenarios/ show.

use crate::callers::run_bytes;
use crate::calls::{Host, cast_of};
use crate::four::{ALONE, SPENT};
use hb_base::Bytes;
use hb_rules::Report;
use std::alloc::{AllocError, Global};
use std::test::Fail;

// Scenarios, the status, and what is printed. The coins of rounds 0, 1 and 2 are 0, 0 and 1.
const ROWS: [(&str, u8, &str); 3] = [
    (
        ALONE,
        0,
        "run nodes 1 faulty 0 version 1 epochs 1
node 0 running
epoch 0 batches 1
batch 0 txs 1
tx 6869
end 0
",
    ),
    (
        SPENT,
        5,
        "run nodes 1 faulty 0 version 1 epochs 1\nnode 0 running\nend 5\n",
    ),
    // no scenario
    ("{}", 3, ""),
];

// Checks what the caller answers to a scenario.
fn check_caller(
    rt: &impl Host,
    alloc: Global,
    scenario: &str,
    status: u8,
    text: &str,
) -> Result<(), AllocError> {
    let input = Bytes::copy(alloc, scenario.as_bytes())?;
    let mut report = Report::empty(alloc);
    let (found, out) = run_bytes(rt, alloc, input, cast_of(alloc)?, &mut report)?;
    assert!(rt;
        found == status && out.held() == text.as_bytes(),
        "{scenario}"
    );
    Ok(())
}

#[test]
fn runs_of_a_caller(rt: HostRuntime) -> Result<(), Fail> {
    for &(scenario, status, text) in &ROWS {
        check_caller(&rt, rt.alloc(), scenario, status, text)?;
    }
    Ok(())
}
