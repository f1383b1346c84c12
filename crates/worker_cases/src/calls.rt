//! Calls over memory, and what no schedule may change of what they leave.

use crate::run_gated;
use crate::texts::with_workers;
use acs_world::{batches_ok, comparable, unaltered};
use hb_base::{Bytes, Gate, MemorySink, OpenGate};
use hb_rules::Report;
use liar_cast::Liar;
use quiet_check::is_quiet;
use std::alloc::{AllocError, Global};
use std::process::Abort;
use std::sync::Wait;
use std::thread::Threads;

// What a test has of the system: it may be ended by it, start threads and wait.
pub(crate) trait Host: Abort + Threads + Wait + Sync {}

impl<R: Abort + Threads + Wait + Sync> Host for R {}

// What a run answered and left.
#[derive(Drop)]
pub(crate) struct Answer {
    pub(crate) status: u8,
    pub(crate) report: Report,
    pub(crate) out: MemorySink,
}

// Runs a scenario to these liars, through this gate.
pub(crate) fn run_with<G: Gate>(
    rt: &impl Host,
    alloc: Global,
    scenario: &str,
    liars: Vec<Box<dyn Liar>>,
    gate: &G,
) -> Result<Answer, AllocError> {
    let input = Bytes::copy(alloc, scenario.as_bytes())?;
    let mut report = Report::empty(alloc);
    let (status, out) = run_gated(rt, alloc, input, liars, gate, &mut report)?;
    Ok(Answer {
        status,
        report,
        out,
    })
}

// Checks the status and the text of a call.
pub(crate) fn check_text(rt: &impl Abort, answer: &Answer, status: u8, text: &str, name: &str) {
    assert!(rt;
        answer.status == status && answer.out.held() == text.as_bytes(),
        "{name}"
    );
}

// Checks what every schedule has to leave: one of these statuses, ledgers of which one begins with the other, with batches enough
// and correct nodes' batches unaltered, and nothing to do.
pub(crate) fn check_any(
    rt: &impl Abort,
    alloc: Global,
    answer: &Answer,
    statuses: &[u8],
    name: &str,
) -> Result<(), AllocError> {
    let has_nothing_to_do = is_quiet(alloc, &answer.report)?;
    assert!(rt;
        statuses.contains(&answer.status)
            && answer.report.status == answer.status
            && comparable(&answer.report)
            && batches_ok(&answer.report)
            && unaltered(&answer.report)
            && has_nothing_to_do,
        "{name}"
    );
    Ok(())
}

// Runs a scenario that has these keys besides, with so many workers at each node, to these liars, and checks what every schedule
// has to leave, with one of these statuses.
pub(crate) fn run_workers_with(
    rt: &impl Host,
    alloc: Global,
    front: &str,
    keys: &str,
    workers: u8,
    liars: Vec<Box<dyn Liar>>,
    statuses: &[u8],
) -> Result<Answer, AllocError> {
    let scenario = with_workers(alloc, front, keys, workers)?;
    let answer = run_with(rt, alloc, scenario.as_str(), liars, &OpenGate)?;
    check_any(rt, alloc, &answer, statuses, scenario.as_str())?;
    Ok(answer)
}
