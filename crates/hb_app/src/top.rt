//! The top call.

ghost use Rattle.std.specs.Prelude.{◌≡◌, ℕ, map, string_bytes};
ghost use Rattle.net_script.specs.Scenario.{told};
ghost use Rattle.net_script.specs.Sound.{IsScenario};
ghost use Rattle.hb_app.specs.declared.command.Text.{Text};
ghost use Rattle.hb_app.specs.Commands.{AsksRun, AsksAudit, AsksSoak, AsksNothing};
ghost use Rattle.hb_app.specs.Ends.{EndsRun};
ghost use Rattle.hb_app.specs.Lines.{usage_line};
ghost use Rattle.hb_app.specs.Scene.{scene};
ghost use Rattle.hb_app.specs.Statuses.{RunStatuses, SoakStatuses, AuditStatuses};
ghost use Rattle.hb_app.specs.Streams.{PutsOr7, sink_view};
ghost use Rattle.input_reader.specs.Streams.{source_view};

use crate::alone::{hb_alone, print_and_answer};
use crate::running::run_by_workers;
use crate::task::{Progress, Task};
use crate::telling::{NO_MEMORY, hint};
use hb_base::{Gate, Sink, Source};
use hb_rules::Report;
use liar_cast::Liar;
use std::alloc::Global;
use std::sync::Wait;
use std::thread::Threads;

/// The program `hb_ledger`: what its words ask for, over any input and output, with a cast of liars. `run`, `trace`, `observe`
/// and `accuse` run the scenario on the input. `run` prints the ledger of each correct node, `trace` the history, `observe` the
/// ledgers that observers take from closing votes, and `accuse` the nodes whose own posts contradict each other. `soak N` runs
/// the scenario of a number and prints whether the ledgers agree. `audit` reads the text of a history, as `trace` prints one, and
/// prints that the history is legal, or else the number of a post before which it is. With this post it is not, if no two
/// different strings that count as hashed in the posts up to it have one digest. The status is
///   0 if memory did not run out, some correct node runs, and each that runs closed the last epoch, or the history is legal,
///   2 if the words are unknown,
///   3 if the input is no scenario, or no text of a history,
///   4 if there was a run that is none of 0, 5 and 9,
///   5 if it is neither 0 nor 9, and a lane of a correct node works and has spent its rounds,
///   6 if the input can't be read,
///   7 if the output or the error sink can't be written,
///   8 if a post was found up to which the history is not legal, unless there are two such strings, and
///   9 if memory ran out.
/// All but 0, 4, 5 and 8 tell a line on `err`, where it takes one. The report is of the run; without one it stays, and nothing is
/// written to `out` but a verdict. At most 1,048,577 bytes of the input are taken, one more than a scenario may have, or
/// 67,108,865 by `audit`, one more than the text of a history may have, and the rest is left.
///
/// A scenario may ask for the liars of the cast, by name; each stands for one node. The call is `hb_alone`, which returns; only
/// behind it, on a run that it hands out, does the call start so many worker threads at each node as the scenario asks for, over
/// a shared book, and wait. So its body says; no clause can, since a call that does not return meets each clause.
pub fn hb_main<R: Threads + Wait + Sync, S: Source, O: Sink, E: Sink, G: Gate>(
    rt: &R,
    alloc: Global,
    words: &[String],
    source: &mut S,
    out: &mut O,
    err: &mut E,
    cast: Vec<Box<dyn Liar>>,
    gate: &G,
    report: &mut Report,
) -> u8
    ensures run { (text : Text) → AsksRun (map string_bytes words.now) text → RunStatuses text (map (λ liar. called liar) cast.items)
        (scene (source_view S.left S.faults source.old) (sink_view O.held O.faults out.old) (sink_view E.held E.faults err.old) report.old)
        (scene (source_view S.left S.faults source.new) (sink_view O.held O.faults out.new) (sink_view E.held E.faults err.new) report.new)
        result }
    ensures audit { AsksAudit (map string_bytes words.now) → AuditStatuses
        (scene (source_view S.left S.faults source.old) (sink_view O.held O.faults out.old) (sink_view E.held E.faults err.old) report.old)
        (scene (source_view S.left S.faults source.new) (sink_view O.held O.faults out.new) (sink_view E.held E.faults err.new) report.new)
        result }
    ensures soak { (number : ℕ) → AsksSoak (map string_bytes words.now) number → SoakStatuses number
        (scene (source_view S.left S.faults source.old) (sink_view O.held O.faults out.old) (sink_view E.held E.faults err.old) report.old)
        (scene (source_view S.left S.faults source.new) (sink_view O.held O.faults out.new) (sink_view E.held E.faults err.new) report.new)
        result × (source.new ≡ source.old) }
    ensures usage { AsksNothing (map string_bytes words.now)
        → PutsOr7 (sink_view E.held E.faults err.old) (sink_view E.held E.faults err.new) usage_line 2 result
        × (report.new ≡ report.old) × (out.new ≡ out.old) × (source.new ≡ source.old) }
{
    match hb_alone(alloc, words, source, out, err, cast, gate, report) {
        Progress::Ended(status) => status,
        Progress::Workers(task) => run_and_print(rt, alloc, task, out, err, gate, report),
    }
}

// Runs what is asked for by workers, and prints what is wanted of the run.
fn run_and_print<R: Threads + Wait + Sync, O: Sink, E: Sink, G: Gate>(
    rt: &R,
    alloc: Global,
    task: Task,
    out: &mut O,
    err: &mut E,
    gate: &G,
    report: &mut Report,
) -> u8
    requires scenario { IsScenario (told task.script) }
    ensures { EndsRun task.wanted (told task.script) (sink_view O.held O.faults out.old) (sink_view O.held O.faults out.new)
        (sink_view E.held E.faults err.old) (sink_view E.held E.faults err.new) report.old report.new result }
{
    let Task {
        wanted,
        script,
        cast,
    } = task;
    if run_by_workers(rt, alloc, script, cast, gate, report).is_err() {
        return hint(NO_MEMORY, 9, err);
    }
    print_and_answer(alloc, wanted, report, out, err)
}
