//! The status of a run.

ghost use Rattle.std.specs.Prelude.{◌≡◌, not, ◌||◌, ◌&&◌};
ghost use Rattle.std.specs.List.{list_any, list_all, range_with_len};
ghost use Rattle.hb_base.specs.NodeSet.{is_in};
ghost use Rattle.hb_rules.specs.Report.{is_memory_fate, is_running, has_closed_last, has_closed_all, has_spent_lane, works, status_of};
ghost use Rattle.run_status.specs.Closers.{AreClosers};
ghost use Rattle.run_status.specs.Spent.{is_stuck_by, has_spent_by};

use crate::closings::closers;
use crate::spent::{is_stuck, marked};
use hb_base::NodeSet;
use hb_rules::{Fate, Report, running, works};

/// The status of a run:
///   9 where an actor of a correct node found no memory; else
///   0 where some correct node runs, and each that runs has closed the last epoch; else
///   5 where a lane of a correct node works and has spent its rounds; else
///   4.
/// It takes no memory. It goes through the posts once, and where the run has not closed once more.
pub fn status(report: &Report) -> u8
    ensures { result ≡ status_of report.now }
{
    if has_memory_fate(report) {
        9
    } else if has_closed_all(report) {
        0
    } else if has_spent(report) {
        5
    } else {
        4
    }
}

// Whether an actor of a correct node found no memory.
fn has_memory_fate(report: &Report) -> bool
    ensures { result ≡ list_any (λ end. not (is_in report.now.config.liars end.node) && is_memory_fate end.fate) report.now.ends.items }
{
    let liars = report.config.liars();
    report
        .ends
        .iter()
        .any(|end| !liars.has(end.node) && end.fate == Fate::Memory)
}

// Whether some correct node runs, and each that runs has closed the last epoch.
fn has_closed_all(report: &Report) -> bool
    ensures { result ≡ has_closed_all report.now }
{
    runs(report) && all_closed(report, &closers(&report.config, report.history.as_slice()))
}

// Whether some correct node runs.
fn runs(report: &Report) -> bool
    ensures { result ≡ list_any (is_running report.now) (range_with_len 0 report.now.config.n) }
{
    (0..report.config.n()).any(|node| running(report, node))
}

// Whether each correct node that runs is among these, which have closed the last epoch.
fn all_closed(report: &Report, closers: &NodeSet) -> bool
    requires { AreClosers report.now.config report.now.history.items closers.now }
    ensures { result ≡ list_all (λ i. not (is_running report.now i) || has_closed_last report.now i) (range_with_len 0 report.now.config.n) }
{
    (0..report.config.n()).all(|node| !running(report, node) || closers.has(node))
}

// Whether a lane of a correct node works and has spent its rounds.
fn has_spent(report: &Report) -> bool
    ensures { result ≡ list_any (has_spent_lane report.now) (range_with_len 0 report.now.config.n) }
{
    // what this call ensures says that the numbers of the run are sound, so that the table has a place for each lane
    let _sound = report.config.liars();
    let table = marked(&report.config, report.history.as_slice());
    any_spent(report, &table)
}

// Whether it is so by a table of what lanes have done.
fn any_spent(report: &Report, table: &[bool]) -> bool
    ensures { result ≡ list_any (has_spent_by report.now table.now) (range_with_len 0 report.now.config.n) }
{
    (0..report.config.n()).any(|node| has_spent_lane(report, table, node))
}

// Whether a node is correct, and by the table a lane of it works and has spent its rounds.
fn has_spent_lane(report: &Report, table: &[bool], node: u8) -> bool
    ensures { result ≡ has_spent_by report.now table.now node }
{
    !report.config.liars().has(node) && any_lane_spent(report, table, node)
}

// Whether a lane of a node works, and by the table has spent its rounds.
fn any_lane_spent(report: &Report, table: &[bool], node: u8) -> bool
    ensures { result ≡ list_any (λ j. works report.now.ends.items node j && is_stuck_by table.now node j) (range_with_len 0 report.now.config.n) }
{
    (0..report.config.n()).any(|lane| is_spent(report, table, node, lane))
}

// Whether a lane works, and by the table has spent its rounds.
fn is_spent(report: &Report, table: &[bool], node: u8, lane: u8) -> bool
    ensures { result ≡ (works report.now.ends.items node lane && is_stuck_by table.now node lane) }
{
    works(report.ends.as_slice(), node, lane) && is_stuck(table, node, lane)
}
