//! The program `hb_ledger` over the streams and the words of its process. What the words are, `hb_main` tells.
#![tactic(auto)]

use hb_app::{NO_MEMORY, hb_main};
use hb_base::{OpenGate, Sink, Source};
use hb_rules::Report;
use liar_cast::{Liar, cast};
use std::alloc::{AllocError, Global};
use std::env;
use std::io::ErrorKind;
use std::process::ExitCode;
use std::sync::Wait;
use std::thread::Threads;
use std_streams::{Reading, Writing};

// The words after the program's name. Words that are not in UTF-8 are none that the program knows, as no words are.
fn words(rt: &HostRuntime, alloc: Global) -> Result<Vec<String>, AllocError> {
    let mut words = Vec::new(alloc);
    match env::args(rt) {
        Ok(args) => {
            for word in args.skip(1) {
                words.push(word)?;
            }
        }
        Err(error) if error.kind() == ErrorKind::OutOfMemory => return Err(AllocError),
        Err(_) => {}
    }
    Ok(words)
}

// Calls the program with the words of the process, and five liars of each kind, since as many may lie in a run. Err is want of
// memory for the words or the liars, before the call.
fn call<R: Threads + Wait + Sync, S: Source, O: Sink, E: Sink>(
    rt: &R,
    alloc: Global,
    words: Result<Vec<String>, AllocError>,
    source: &mut S,
    out: &mut O,
    err: &mut E,
) -> Result<u8, AllocError> {
    let words = words?;
    let mut liars: Vec<Box<dyn Liar>> = Vec::new(alloc);
    for kind in cast(alloc)? {
        liars.push(Box::new(alloc, kind)?)?;
    }
    let mut report = Report::empty(alloc);
    Ok(hb_main(
        rt,
        alloc,
        words.as_slice(),
        source,
        out,
        err,
        liars,
        &OpenGate,
        &mut report,
    ))
}

fn main(rt: HostRuntime) -> ExitCode {
    let mut source = Reading::new(rt.stdin());
    let mut out = Writing::new(rt.stdout());
    let mut err = Writing::new(rt.stderr());
    let words = words(&rt, rt.alloc());
    match call(&rt, rt.alloc(), words, &mut source, &mut out, &mut err) {
        Ok(status) => ExitCode::from(status),
        Err(_) => {
            let _told = err.put(NO_MEMORY);
            ExitCode::from(9)
        }
    }
}
