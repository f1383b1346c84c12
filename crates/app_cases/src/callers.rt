//! Callers of the program, as of one that runs scenarios of its own. What they promise is proved by the contracts of the calls
//! alone.

ghost use Rattle.std.specs.Prelude.{◌≡◌, ◌≢◌, ◌⊎◌, ◌≤◌, [], ◌∷◌, length, map, string_bytes, Some, Ok, IfOk};
ghost use Rattle.net_script.specs.Scenario.{Scenario, told};
ghost use Rattle.script_reader.specs.Reading.{scenario_of};
ghost use Rattle.hb_rules.specs.Ledger.{AreComparable};
ghost use Rattle.hb_rules.specs.Strings.{NoCollision};
ghost use Rattle.ledger_text.specs.Text.{run_text};
ghost use Rattle.quiet_world.specs.Spared.{IsSpared};
ghost use Rattle.trace_text.specs.Text.{trace_text};
ghost use Rattle.trace_reader.specs.Trace.{longest_trace};
ghost use Rattle.history_verdict.specs.declared.verdict.Verdict.TheVariants.{Legal};
ghost use Rattle.verdict_text.specs.Text.{verdict_line};
ghost use Rattle.hb_app.specs.Statuses.{IsRunStatus};

use hb_app::hb_main;
use hb_base::{Bytes, Failed, MemorySink, MemorySource, OpenGate, Sink, Source};
use hb_rules::Report;
use liar_cast::Liar;
use std::alloc::{AllocError, Global};
use std::sync::Wait;
use std::thread::Threads;
use trace_audit::audit_laws;

/// Runs the scenario that the bytes say to this cast: the status, and what was printed. After 0, 4 and 5 the report tells a run
/// of exactly that scenario, whose text was printed. Where no two hashed strings share a digest, its ledgers are comparable,
/// and the status is not 4 if nothing of correct nodes was lost. After 3 the bytes say no scenario.
pub fn run_bytes<R: Threads + Wait + Sync>(
    rt: &R,
    alloc: Global,
    input: Bytes,
    cast: Vec<Box<dyn Liar>>,
    report: &mut Report,
) -> Result<(u8, MemorySink), AllocError>
    ensures ran { IfOk result (λ answer. IsRunStatus answer.0
        → scenario_of input (map (λ liar. called liar) cast.items) ≡ Ok (told report.new.script)) }
    ensures refused { IfOk result (λ answer. answer.0 ≡ 3
        → (s : Scenario) → scenario_of input (map (λ liar. called liar) cast.items) ≡ Ok s → ⊥) }
    ensures text { IfOk result (λ answer. IsRunStatus answer.0 → answer.1.held ≡ run_text report.new) }
    ensures agree { IfOk result (λ answer. IsRunStatus answer.0
        → NoCollision report.new.config report.new.history.items → AreComparable report.new.config report.new.history.items) }
    ensures closes { IfOk result (λ answer. answer.0 ≡ 4
        → NoCollision report.new.config report.new.history.items → IsSpared report.new → ⊥) }
{
    let mut words = Vec::new(alloc);
    words.push(String::from_str(alloc, "run")?)?;
    let mut source = MemorySource::new(input, 4_096, Vec::new(alloc));
    let mut out = MemorySink::new(alloc, Vec::new(alloc));
    let mut err = MemorySink::new(alloc, Vec::new(alloc));
    let status = hb_main(
        rt,
        alloc,
        words.as_slice(),
        &mut source,
        &mut out,
        &mut err,
        cast,
        &OpenGate,
        report,
    );
    Ok((status, out))
}

/// Prints the history of a run, and asks whether it is legal: both statuses, and what was printed of the second. The scenario
/// comes from a source. Say that the first is 0, 4 or 5, that the text is not too long to be read, and that no two different
/// strings that count as hashed share a digest. Then the second is 0, or 7 or 9 where a put failed or memory was wanting, and
/// after 0 the line has the number of the posts.
pub fn trace_and_audit<R: Threads + Wait + Sync, S: Source, E: Sink>(
    rt: &R,
    alloc: Global,
    source: &mut S,
    err: &mut E,
    cast: Vec<Box<dyn Liar>>,
    report: &mut Report,
) -> Result<(u8, u8, MemorySink), AllocError>
    ensures legal { IfOk result (λ answer. IsRunStatus answer.0 → length (trace_text report.new) ≤ longest_trace
        → NoCollision report.new.config report.new.history.items → (answer.1 ≢ 8) × (answer.1 ≢ 3)) }
    ensures status { IfOk result (λ answer. IsRunStatus answer.0 → length (trace_text report.new) ≤ longest_trace
        → NoCollision report.new.config report.new.history.items → (answer.1 ≡ 0) ⊎ (answer.1 ≡ 7) ⊎ (answer.1 ≡ 9)) }
    ensures told { IfOk result (λ answer. IsRunStatus answer.0 → length (trace_text report.new) ≤ longest_trace
        → NoCollision report.new.config report.new.history.items
        → answer.1 ≡ 0 → answer.2.held ≡ verdict_line (Legal (length report.new.history.items))) }
{
    // what this call ensures are the laws of audits
    audit_laws();
    let trace = one_word(alloc, "trace")?;
    let audit = one_word(alloc, "audit")?;
    let mut text = MemorySink::new(alloc, Vec::new(alloc));
    let ran = hb_main(
        rt,
        alloc,
        trace.as_slice(),
        source,
        &mut text,
        err,
        cast,
        &OpenGate,
        report,
    );
    let printed = Bytes::copy(alloc, text.held())?;
    let kept = MemorySource::new(printed, 4_096, Vec::new(alloc));
    let mut again = SureSource { kept };
    let mut verdict = MemorySink::new(alloc, Vec::new(alloc));
    let judged = hb_main(
        rt,
        alloc,
        audit.as_slice(),
        &mut again,
        &mut verdict,
        err,
        Vec::new(alloc),
        &OpenGate,
        report,
    );
    Ok((ran, judged, verdict))
}

// A source of bytes in memory of which no call fails.
#[derive(Drop)]
struct SureSource {
    kept: MemorySource,
    ghost sure: { kept.failing ≡ [] },
}

impl Source for SureSource {
    ghost left = { λ s. Some s.kept.left };

    ghost faults = { λ s. 0 };

    fn take(&mut self, buf: &mut [u8]) -> Result<usize, Failed> {
        self.kept.take(buf)
    }
}

// The words of a call with one word.
fn one_word(alloc: Global, word: &str) -> Result<Vec<String>, AllocError>
    ensures { IfOk result (λ words. map string_bytes words.items ≡ word.now ∷ []) }
{
    let mut words = Vec::new(alloc);
    words.push(String::from_str(alloc, word)?)?;
    Ok(words)
}
