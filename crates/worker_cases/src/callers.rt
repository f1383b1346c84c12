//! A caller of runs with workers. What it promises is proved by the contract of the call alone, and so whatever its threads do
//! when.

ghost use Rattle.std.specs.Prelude.{◌≡◌, map, Ok, IfOk};
ghost use Rattle.net_script.specs.Scenario.{told};
ghost use Rattle.script_reader.specs.Reading.{scenario_of};
ghost use Rattle.hb_rules.specs.History.{IsLegal};
ghost use Rattle.hb_rules.specs.Ledger.{AreComparable, BatchesAreEnough, AreUnaltered};
ghost use Rattle.hb_rules.specs.Report.{IsQuiet, StaysWithinPlan};
ghost use Rattle.hb_rules.specs.Strings.{NoCollision};
ghost use Rattle.ledger_text.specs.Text.{run_text};
ghost use Rattle.hb_app.specs.Statuses.{IsRunStatus};

use hb_app::hb_main;
use hb_base::{Bytes, Gate, MemorySink, MemorySource};
use hb_rules::Report;
use liar_cast::Liar;
use std::alloc::{AllocError, Global};
use std::sync::Wait;
use std::thread::Threads;

/// Runs the scenario that the bytes say to this cast, through this gate: the status, and what was printed. It may wait. How
/// many workers run it, and when they enter the gate, no clause tells. After 0, 4 and 5 the report tells a run of exactly that
/// scenario, with this status, whose text was printed. Its history is legal, nothing is left to do, and no more was done than
/// is planned. Where no two hashed strings share a digest, of any two correct nodes' ledgers one begins with the other, each
/// list has the batches of n - f nodes at least, and correct nodes' batches are unaltered.
pub fn run_gated<R: Threads + Wait + Sync, G: Gate>(
    rt: &R,
    alloc: Global,
    input: Bytes,
    cast: Vec<Box<dyn Liar>>,
    gate: &G,
    report: &mut Report,
) -> Result<(u8, MemorySink), AllocError>
    ensures ran { IfOk result (λ answer. IsRunStatus answer.0
        → scenario_of input (map (λ liar. called liar) cast.items) ≡ Ok (told report.new.script)) }
    ensures told { IfOk result (λ answer. IsRunStatus answer.0 → report.new.status ≡ answer.0) }
    ensures text { IfOk result (λ answer. IsRunStatus answer.0 → answer.1.held ≡ run_text report.new) }
    ensures legal { IfOk result (λ answer. IsRunStatus answer.0 → IsLegal report.new.config report.new.history.items) }
    ensures quiet { IfOk result (λ answer. IsRunStatus answer.0 → IsQuiet report.new) }
    ensures plan { IfOk result (λ answer. IsRunStatus answer.0 → StaysWithinPlan report.new) }
    ensures agree { IfOk result (λ answer. IsRunStatus answer.0 → NoCollision report.new.config report.new.history.items
        → AreComparable report.new.config report.new.history.items × BatchesAreEnough report.new.config report.new.history.items
        × AreUnaltered report.new.config report.new.history.items) }
{
    let mut words = Vec::new(alloc);
    words.push(String::from_str(alloc, "run")?)?;
    let mut source = MemorySource::new(input, 4_096, Vec::new(alloc));
    let mut out = MemorySink::new(alloc, Vec::new(alloc));
    let mut err = MemorySink::new(alloc, Vec::new(alloc));
    let status = hb_main(
        rt,
        alloc,
        words.as_slice(),
        &mut source,
        &mut out,
        &mut err,
        cast,
        gate,
        report,
    );
    Ok((status, out))
}
