//! The call without threads.

ghost use Rattle.std.specs.Prelude.{◌≡◌, ◌<◌, ◌^◌, ℕ, length, map, string_bytes};
ghost use Rattle.net_script.specs.Scenario.{told};
ghost use Rattle.net_script.specs.Sound.{IsScenario};
ghost use Rattle.scenario_gen.specs.Generated.{generated};
ghost use Rattle.hb_app.specs.declared.command.Text.{Text};
ghost use Rattle.hb_app.specs.declared.task.Task.{Task};
ghost use Rattle.hb_app.specs.declared.task.Wanted.TheVariants.{Soaked};
ghost use Rattle.hb_app.specs.Commands.{AsksRun, AsksAudit, AsksSoak, AsksNothing};
ghost use Rattle.hb_app.specs.Ends.{Begins, Comes, EndsText, IsLeft, IsLeftOfInput};
ghost use Rattle.hb_app.specs.Lines.{usage_line};
ghost use Rattle.hb_app.specs.Scene.{scene};
ghost use Rattle.hb_app.specs.Statuses.{RunStatuses, SoakStatuses, AuditStatuses};
ghost use Rattle.hb_app.specs.Streams.{PutsOr7, sink_view};
ghost use Rattle.input_reader.specs.Streams.{source_view};

use crate::auditing::tell_audit;
use crate::command::{Command, command_of};
use crate::printing::{PrintFault, print};
use crate::reading::read_scenario;
use crate::running::run_alone;
use crate::task::{Progress, Task, Wanted};
use crate::telling::{NO_MEMORY, USAGE, WRITE_FAILED, answer, hint, tell, tell_unread};
use hb_base::{Gate, Sink, Source};
use hb_rules::Report;
use liar_cast::Liar;
use scenario_gen::generate;
use std::alloc::Global;
use trace_audit::audit;

/// The program `hb_ledger` on this thread alone, as far as it comes: it returns. Where it ends, it has done what `hb_main` says.
/// What it hands out instead is a run that asks for workers above 0, with the cast that was given, and with nothing done yet but
/// the reading of the input. A run without workers is never handed out; no clause says that each run with workers is.
pub fn hb_alone<S: Source, O: Sink, E: Sink, G: Gate>(
    alloc: Global,
    words: &[String],
    source: &mut S,
    out: &mut O,
    err: &mut E,
    cast: Vec<Box<dyn Liar>>,
    gate: &G,
    report: &mut Report,
) -> Progress
    ensures run { (text : Text) → AsksRun (map string_bytes words.now) text → Comes result
        (RunStatuses text (map (λ liar. called liar) cast.items)
        (scene (source_view S.left S.faults source.old) (sink_view O.held O.faults out.old) (sink_view E.held E.faults err.old) report.old)
        (scene (source_view S.left S.faults source.new) (sink_view O.held O.faults out.new) (sink_view E.held E.faults err.new) report.new))
        (IsLeftOfInput text (map (λ liar. called liar) cast.items)
        (scene (source_view S.left S.faults source.old) (sink_view O.held O.faults out.old) (sink_view E.held E.faults err.old) report.old)
        (scene (source_view S.left S.faults source.new) (sink_view O.held O.faults out.new) (sink_view E.held E.faults err.new) report.new)) }
    ensures audit { AsksAudit (map string_bytes words.now) → Comes result
        (AuditStatuses
        (scene (source_view S.left S.faults source.old) (sink_view O.held O.faults out.old) (sink_view E.held E.faults err.old) report.old)
        (scene (source_view S.left S.faults source.new) (sink_view O.held O.faults out.new) (sink_view E.held E.faults err.new) report.new))
        (λ task. ⊥) }
    ensures soak { (number : ℕ) → AsksSoak (map string_bytes words.now) number → Comes result
        (SoakStatuses number
        (scene (source_view S.left S.faults source.old) (sink_view O.held O.faults out.old) (sink_view E.held E.faults err.old) report.old)
        (scene (source_view S.left S.faults source.new) (sink_view O.held O.faults out.new) (sink_view E.held E.faults err.new) report.new))
        (IsLeft (Soaked number) (generated number)
        (scene (source_view S.left S.faults source.old) (sink_view O.held O.faults out.old) (sink_view E.held E.faults err.old) report.old)
        (scene (source_view S.left S.faults source.new) (sink_view O.held O.faults out.new) (sink_view E.held E.faults err.new) report.new))
        × (source.new ≡ source.old) }
    ensures usage { AsksNothing (map string_bytes words.now) → Comes result
        (PutsOr7 (sink_view E.held E.faults err.old) (sink_view E.held E.faults err.new) usage_line 2)
        (λ task. ⊥) × (report.new ≡ report.old) × (out.new ≡ out.old) × (source.new ≡ source.old) }
    ensures sound { Comes result (λ status. Unit {0}) (λ task. IsScenario (told task.script)) }
    ensures cast { Comes result (λ status. Unit {0}) (λ task. task.cast ≡ cast) }
{
    match command_of(words) {
        Some(Command::Run(text)) => match read_scenario(alloc, source, cast.as_slice()) {
            Ok(script) => {
                let wanted = Wanted::Word(text);
                let task = Task {
                    wanted,
                    script,
                    cast,
                };
                begin(alloc, task, out, err, gate, report)
            }
            Err(unread) => Progress::Ended(tell_unread(&unread, err)),
        },
        Some(Command::Soak(number)) => match generate(alloc, number) {
            Ok(script) => {
                let wanted = Wanted::Soaked(number);
                let task = Task {
                    wanted,
                    script,
                    cast,
                };
                begin(alloc, task, out, err, gate, report)
            }
            Err(_) => Progress::Ended(hint(NO_MEMORY, 9, err)),
        },
        Some(Command::Audit) => {
            let answer = audit(alloc, source);
            Progress::Ended(tell_audit(answer, out, err))
        }
        None => Progress::Ended(tell(USAGE, 2, err)),
    }
}

// Runs what is asked for, if it asks for no workers.
fn begin<O: Sink, E: Sink, G: Gate>(
    alloc: Global,
    task: Task,
    out: &mut O,
    err: &mut E,
    gate: &G,
    report: &mut Report,
) -> Progress
    requires scenario { IsScenario (told task.script) }
    ensures { Begins task (sink_view O.held O.faults out.old) (sink_view O.held O.faults out.new)
        (sink_view E.held E.faults err.old) (sink_view E.held E.faults err.new) report.old report.new result }
{
    if task.script.workers > 0 {
        return Progress::Workers(task);
    }
    let Task {
        wanted,
        script,
        cast,
    } = task;
    if run_alone(alloc, script, cast, gate, report).is_err() {
        return Progress::Ended(hint(NO_MEMORY, 9, err));
    }
    Progress::Ended(print_and_answer(alloc, wanted, report, out, err))
}

/// Prints what is wanted of a run, and answers its status, or that of what failed.
pub(crate) fn print_and_answer<O: Sink, E: Sink>(
    alloc: Global,
    wanted: Wanted,
    report: &Report,
    out: &mut O,
    err: &mut E,
) -> u8
    requires { length report.now.history.items < 2 ^ 32 }
    ensures { EndsText wanted report.now (sink_view O.held O.faults out.old) (sink_view O.held O.faults out.new)
        (sink_view E.held E.faults err.old) (sink_view E.held E.faults err.new) result }
{
    match print(alloc, wanted, report, out) {
        Ok(()) => answer(report.status, err),
        Err(PrintFault::Sink) => hint(WRITE_FAILED, 7, err),
        Err(PrintFault::Memory) => hint(NO_MEMORY, 9, err),
    }
}
