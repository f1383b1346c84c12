//! Whether reports are quiet: those of runs, and those of which something was taken away.

use crate::calls::{Host, run};
use crate::four::run_four;
use acs_world::common_epochs;
use hb_rules::{End, Fate, Report};
use quiet_check::is_quiet;
use std::alloc::{AllocError, Global};
use std::test::Fail;

// Checks that the report of a run of four nodes, with these keys besides, is quiet, and has so many epochs in common.
fn check_quiet(rt: &impl Host, alloc: Global, keys: &str, epochs: u32) -> Result<(), AllocError> {
    let answer = run_four(rt, alloc, keys)?;
    assert!(rt;
        is_quiet(alloc, &answer.report)? && common_epochs(&answer.report) == epochs,
        "{keys}"
    );
    Ok(())
}

// A run that ended left nothing to do, whatever was lost, doubled, lied or stopped on the way. What was dropped nobody misses,
// though the node that runs without it has closed no epoch.
#[test]
fn reports_of_runs(rt: HostRuntime) -> Result<(), Fail> {
    for &(keys, epochs) in &[
        ("", 1u32),
        (r#","version":2"#, 1),
        (r#","links":[{"to":2,"every":1,"at":0,"shape":"drop"}]"#, 0),
        (
            r#","links":[{"from":3,"every":1,"at":0,"shape":"late"},{"every":2,"at":0,"shape":"twice"}]"#,
            1,
        ),
        (
            r#","order":"mixed","seed":7,"liars":[{"node":3,"name":"bval_both"}]"#,
            1,
        ),
        (r#","faults":[{"node":1,"actor":1,"call":9}]"#, 1),
        (
            r#","stops":[{"node":1,"actor":4,"call":9,"leave":"torn"}]"#,
            1,
        ),
    ] {
        check_quiet(&rt, rt.alloc(), keys, epochs)?;
    }
    Ok(())
}

// Whether one node spends its rounds, and its report is quiet.
fn spends_quietly(rt: &impl Host, alloc: Global, version: u32) -> Result<bool, AllocError> {
    let scenario = format!(in alloc;
        "{{\"nodes\":1,\"faulty\":0,\"epochs\":1,\"rounds\":2,\"seed\":0,\"version\":{version}}}"
    )?;
    let answer = run(rt, alloc, scenario.as_str())?;
    Ok(answer.status == 5 && is_quiet(alloc, &answer.report)?)
}

// A lane that has spent its rounds owes nothing.
#[test]
fn spent_rounds(rt: HostRuntime) -> Result<(), Fail> {
    for version in [1u32, 2] {
        assert!(rt; spends_quietly(&rt, rt.alloc(), version)?);
    }
    Ok(())
}

// What is done to a report.
#[derive(Clone, Copy)]
enum Change {
    LoseTheLastNumber,
    HaveANumberTwice,
    HaveANumberOfNoPost,
    MoveTheLastEnd,
    LoseAnEnd,
    EndWithoutPosts,
    LoseTheLastPost,
}

fn apply(report: &mut Report, change: Change) -> Result<(), AllocError> {
    match change {
        Change::MoveTheLastEnd => {
            if let Some(end) = report.ends.pop() {
                report.ends.insert(0, end)?;
            }
        }
        Change::LoseAnEnd => {
            report.ends.pop();
        }
        Change::LoseTheLastPost => {
            report.history.pop();
        }
        _ => {
            if let Some(end) = report.ends.get_mut(7) {
                apply_to_end(end, change)?;
            }
        }
    }
    Ok(())
}

fn apply_to_end(end: &mut End, change: Change) -> Result<(), AllocError> {
    match change {
        Change::HaveANumberTwice => {
            if let Some(number) = end.got.first().copied() {
                end.got.push(number)?;
            }
        }
        Change::HaveANumberOfNoPost => end.got.push(4_194_304)?,
        Change::EndWithoutPosts => {
            end.fate = Fate::Memory;
            end.got.clear();
        }
        _ => {
            end.got.pop();
        }
    }
    Ok(())
}

// Whether the report of a run of four nodes is quiet after this change.
fn is_quiet_after(rt: &impl Host, alloc: Global, change: Change) -> Result<bool, AllocError> {
    let mut answer = run_four(rt, alloc, "")?;
    apply(&mut answer.report, change)?;
    is_quiet(alloc, &answer.report)
}

// Each actor needs each number once. An actor that has ended needs none. The last post is a Closed, which a desk owes without it.
#[test]
fn changed_reports(rt: HostRuntime) -> Result<(), Fail> {
    for &(what, wanted) in &[
        (Change::LoseTheLastNumber, false),
        (Change::HaveANumberTwice, true),
        (Change::HaveANumberOfNoPost, false),
        (Change::MoveTheLastEnd, false),
        (Change::LoseAnEnd, false),
        (Change::EndWithoutPosts, true),
        (Change::LoseTheLastPost, false),
    ] {
        assert!(rt; is_quiet_after(&rt, rt.alloc(), what)? == wanted);
    }
    Ok(())
}

// A report of no run has none of the ends that its one node has to have.
#[test]
fn no_run(rt: HostRuntime) -> Result<(), Fail> {
    assert!(rt; !is_quiet(rt.alloc(), &Report::empty(rt.alloc()))?);
    Ok(())
}
