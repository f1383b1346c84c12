//! Calls of the program over memory, and what they leave.

use hb_app::hb_main;
use hb_base::{Bytes, Gate, MemorySink, MemorySource, OpenGate};
use hb_rules::Report;
use liar_cast::{Liar, cast};
use quiet_check::is_quiet;
use std::alloc::{AllocError, Global};
use std::process::Abort;
use std::sync::Wait;
use std::thread::Threads;

// What a test has of the system: it may be ended by it, start threads and wait.
pub(crate) trait Host: Abort + Threads + Wait + Sync {}

impl<R: Abort + Threads + Wait + Sync> Host for R {}

// What a call is given: its word and its input. Of puts on out and puts on err the one with this number fails, none where it is
// 0.
#[derive(Clone, Copy)]
pub(crate) struct Request<'a> {
    pub(crate) word: &'a str,
    pub(crate) input: &'a str,
    pub(crate) put: u32,
    pub(crate) tell: u32,
}

impl<'a> Request<'a> {
    // A request of which nothing fails.
    pub(crate) fn new(word: &'a str, input: &'a str) -> Request<'a> {
        Request {
            word,
            input,
            put: 0,
            tell: 0,
        }
    }
}

// What a call answered and left.
#[derive(Drop)]
pub(crate) struct Answer {
    pub(crate) status: u8,
    pub(crate) report: Report,
    pub(crate) out: MemorySink,
    pub(crate) err: MemorySink,
}

// The number of the call that fails.
fn failing(alloc: Global, call: u32) -> Result<Vec<u32>, AllocError> {
    let mut calls = Vec::new(alloc);
    calls.push(call)?;
    Ok(calls)
}

// What stands before a call: nothing is written, and the report is empty.
fn before(alloc: Global, given: &Request<'_>) -> Result<Answer, AllocError> {
    let puts = failing(alloc, given.put)?;
    let tells = failing(alloc, given.tell)?;
    Ok(Answer {
        status: 255,
        report: Report::empty(alloc),
        out: MemorySink::new(alloc, puts),
        err: MemorySink::new(alloc, tells),
    })
}

// Checks that what a run left is quiet.
fn check_quiet(rt: &impl Abort, alloc: Global, report: &Report) -> Result<(), AllocError> {
    let quiet = report.status == 255 || is_quiet(alloc, report)?;
    assert!(rt; quiet);
    Ok(())
}

// Calls the program with this cast, through this gate. What a run leaves is quiet.
pub(crate) fn call_through<G: Gate>(
    rt: &impl Host,
    alloc: Global,
    given: &Request<'_>,
    liars: Vec<Box<dyn Liar>>,
    gate: &G,
) -> Result<Answer, AllocError> {
    let mut answer = before(alloc, given)?;
    let mut words = Vec::new(alloc);
    words.push(String::from_str(alloc, given.word)?)?;
    let input = Bytes::copy(alloc, given.input.as_bytes())?;
    let mut source = MemorySource::new(input, 4_096, Vec::new(alloc));
    answer.status = hb_main(
        rt,
        alloc,
        words.as_slice(),
        &mut source,
        &mut answer.out,
        &mut answer.err,
        liars,
        gate,
        &mut answer.report,
    );
    check_quiet(rt, alloc, &answer.report)?;
    Ok(answer)
}

// Calls the program with this cast. What a run leaves is quiet.
pub(crate) fn call_with(
    rt: &impl Host,
    alloc: Global,
    given: &Request<'_>,
    liars: Vec<Box<dyn Liar>>,
) -> Result<Answer, AllocError> {
    call_through(rt, alloc, given, liars, &OpenGate)
}

// The cast of the program.
pub(crate) fn cast_of(alloc: Global) -> Result<Vec<Box<dyn Liar>>, AllocError> {
    let mut liars: Vec<Box<dyn Liar>> = Vec::new(alloc);
    for kind in cast(alloc)? {
        liars.push(Box::new(alloc, kind)?)?;
    }
    Ok(liars)
}

// Calls the program with the cast of the program.
pub(crate) fn call(
    rt: &impl Host,
    alloc: Global,
    given: &Request<'_>,
) -> Result<Answer, AllocError> {
    call_with(rt, alloc, given, cast_of(alloc)?)
}

// Runs a scenario.
pub(crate) fn run(rt: &impl Host, alloc: Global, scenario: &str) -> Result<Answer, AllocError> {
    call(rt, alloc, &Request::new("run", scenario))
}

// Checks that there was a run, with this status and this text, and that nothing was told.
pub(crate) fn check_ran(rt: &impl Abort, answer: &Answer, status: u8, text: &str, name: &str) {
    assert!(rt;
        answer.status == status
            && answer.report.status == status
            && answer.out.held() == text.as_bytes()
            && answer.err.held().is_empty(),
        "{name}"
    );
}

// Calls the program, and checks that there was a run, with this status and this text, and that nothing was told.
pub(crate) fn check_run(
    rt: &impl Host,
    alloc: Global,
    given: &Request<'_>,
    wanted: (u8, &str),
    name: &str,
) -> Result<(), AllocError> {
    let (status, text) = wanted;
    let answer = call(rt, alloc, given)?;
    check_ran(rt, &answer, status, text, name);
    Ok(())
}

// The first byte of each post of a node, in order, 0 for a post of no bytes.
pub(crate) fn first_bytes(alloc: Global, report: &Report, node: u8) -> Result<Vec<u8>, AllocError> {
    let mut firsts = Vec::new(alloc);
    for post in &report.history {
        if post.from == node {
            firsts.push(post.bytes.as_slice().first().copied().unwrap_or(0))?;
        }
    }
    Ok(firsts)
}
