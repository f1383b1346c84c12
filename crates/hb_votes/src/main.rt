//! The program `hb_votes` over the streams and the words of its process. What it does, `votes_main` tells.
#![tactic(auto)]

use hb_base::Sink;
use std::alloc::{AllocError, Global};
use std::env;
use std::io::ErrorKind;
use std::process::ExitCode;
use std_streams::{Reading, Writing};
use votes_app::{NO_MEMORY, WRITE_FAILED, votes_main};

// The words after the program's name. Words that are not in UTF-8 are none that the program knows.
fn words(rt: &HostRuntime, alloc: Global) -> Result<Vec<String>, AllocError> {
    let mut words = Vec::new(alloc);
    match env::args(rt) {
        Ok(args) => {
            for word in args.skip(1) {
                words.push(word)?;
            }
        }
        Err(error) if error.kind() == ErrorKind::OutOfMemory => return Err(AllocError),
        Err(_) => words.push(String::new(alloc))?,
    }
    Ok(words)
}

fn main(rt: HostRuntime) -> ExitCode {
    let mut source = Reading::new(rt.stdin());
    let mut out = Writing::new(rt.stdout());
    let mut err = Writing::new(rt.stderr());
    match words(&rt, rt.alloc()) {
        Ok(words) => {
            let status = votes_main(
                rt.alloc(),
                words.as_slice(),
                &mut source,
                &mut out,
                &mut err,
            );
            // A reader that has closed the output wants no more of it, and nothing is told.
            if status == 7 && !out.is_closed() {
                let _told = err.put(WRITE_FAILED);
            }
            ExitCode::from(status)
        }
        Err(_) => {
            let _told = err.put(NO_MEMORY);
            ExitCode::from(9)
        }
    }
}
