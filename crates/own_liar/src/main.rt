//! A run with a liar of one's own: the scenario on standard input, in which a node may lie by the name `contrary`.
#![tactic(auto)]

mod contrary;

use contrary::Contrary;
use hb_app::{NO_MEMORY, hb_main};
use hb_base::{OpenGate, Sink, Source};
use hb_rules::Report;
use liar_cast::Liar;
use std::alloc::{AllocError, Global};
use std::process::ExitCode;
use std::sync::Wait;
use std::thread::Threads;
use std_streams::{Reading, Writing};

// Runs the scenario with one liar at hand, and prints the ledgers.
fn run<R: Threads + Wait + Sync, S: Source, O: Sink, E: Sink>(
    rt: &R,
    alloc: Global,
    source: &mut S,
    out: &mut O,
    err: &mut E,
) -> Result<u8, AllocError> {
    let words = vec![in alloc; String::from_str(alloc, "run")?]?;
    let mut liars: Vec<Box<dyn Liar>> = Vec::new(alloc);
    liars.push(Box::new(alloc, Contrary)?)?;
    let mut report = Report::empty(alloc);
    Ok(hb_main(
        rt,
        alloc,
        words.as_slice(),
        source,
        out,
        err,
        liars,
        &OpenGate,
        &mut report,
    ))
}

fn main(rt: HostRuntime) -> ExitCode {
    let mut source = Reading::new(rt.stdin());
    let mut out = Writing::new(rt.stdout());
    let mut err = Writing::new(rt.stderr());
    match run(&rt, rt.alloc(), &mut source, &mut out, &mut err) {
        Ok(status) => ExitCode::from(status),
        Err(_) => {
            let _told = err.put(NO_MEMORY);
            ExitCode::from(9)
        }
    }
}
