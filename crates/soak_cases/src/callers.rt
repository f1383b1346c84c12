//! A caller of generated runs. What it promises is proved by the contract of the call alone.

ghost use Rattle.std.specs.Prelude.{◌≡◌, ◌⊎◌, IfOk};
ghost use Rattle.hb_rules.specs.Strings.{NoCollision};
ghost use Rattle.quiet_world.specs.Spared.{NoneEndsFull};
ghost use Rattle.hb_app.specs.Statuses.{IsRunStatus};

use hb_app::hb_main;
use hb_base::{OpenGate, Sink, Source};
use hb_rules::Report;
use liar_cast::Liar;
use std::alloc::{AllocError, Global};
use std::sync::Wait;
use std::thread::Threads;

/// Runs the scenario of a number, with this cast, and prints whether its ledgers agree: the status. After 0, 4 and 5 it is that
/// of the report. It is not 4, where the book has not got full and no two hashed strings share a digest: no rule of a generated
/// scenario drops what a correct node posts, and no fault of a disk is planned in it.
pub fn soak<R: Threads + Wait + Sync, S: Source, O: Sink, E: Sink>(
    rt: &R,
    alloc: Global,
    number: u64,
    cast: Vec<Box<dyn Liar>>,
    streams: (&mut S, &mut O, &mut E),
    report: &mut Report,
) -> Result<u8, AllocError>
    ensures told { IfOk result (λ status. IsRunStatus status → report.new.status ≡ status) }
    ensures ends { IfOk result (λ status. IsRunStatus status → NoCollision report.new.config report.new.history.items → NoneEndsFull report.new
        → (status ≡ 0) ⊎ (status ≡ 5)) }
{
    let mut words = Vec::new(alloc);
    words.push(String::from_str(alloc, "soak")?)?;
    words.push(format!(in alloc; "{number}")?)?;
    let (source, out, err) = streams;
    let words = words.as_slice();
    let status = hb_main(rt, alloc, words, source, out, err, cast, &OpenGate, report);
    Ok(status)
}
