//! How often the gate of a run is entered: once for each delivery, be it made by a worker or one of the last deliveries.
//!
//! Where each post to another node comes twice, workers deliver it twice, and the last deliveries once. So the entries also tell
//! whether the workers have left anything.

use crate::calls::{Host, check_any, run_with};
use crate::texts::{FOUR, with_workers};
use app_cases::CountingGate;
use hb_rules::Report;
use hb_wire::{Post, reaches};
use std::alloc::{AllocError, Global};
use std::test::Fail;

// How often a post comes to an actor, where one to another node comes so many times.
fn times(n: u8, post: &Post, node: u8, actor: u8, copies: u64) -> u64 {
    if !reaches(n, post, node, actor) {
        return 0;
    }
    if post.from == node { 1 } else { copies }
}

// How often the posts of a history come to an actor.
fn count_due(report: &Report, node: u8, actor: u8, copies: u64) -> u64 {
    let n = report.config.n();
    let mut due = 0u64;
    for post in report.history.as_slice() {
        due = due.saturating_add(times(n, post, node, actor, copies));
    }
    due
}

// The same of all actors but lane 1 of node 1.
fn count_others(report: &Report, copies: u64) -> u64 {
    let n = report.config.n();
    let mut due = 0u64;
    for node in 0..n {
        for actor in 0..n + 1 {
            if node != 1 || actor != 1 {
                due = due.saturating_add(count_due(report, node, actor, copies));
            }
        }
    }
    due
}

// Runs a scenario with these keys besides, in which a post to another node comes so many times, with one worker and with four.
// Each delivery enters the gate once, and lane 1 of node 1 has so many deliveries more.
fn check(
    rt: &impl Host,
    alloc: Global,
    front: &str,
    keys: &str,
    copies: u64,
    more: u64,
) -> Result<(), AllocError> {
    for workers in [1, 4] {
        let scenario = with_workers(alloc, front, keys, workers)?;
        let gate = CountingGate::new(1, 1);
        let answer = run_with(rt, alloc, scenario.as_str(), Vec::new(alloc), &gate)?;
        check_any(rt, alloc, &answer, &[0, 5], scenario.as_str())?;
        let of_lane = count_due(&answer.report, 1, 1, copies).saturating_add(more);
        let of_others = count_others(&answer.report, copies);
        assert!(rt;
            gate.of_actor() == of_lane && gate.of_others() == of_others,
            "{scenario}"
        );
    }
    Ok(())
}

// Sixteen nodes over three epochs, in which each node has some 20,000 deliveries.
const SIXTEEN: &str =
    r#"{"nodes":16,"faulty":5,"epochs":3,"submit":[{"node":0,"tx":"61"},{"node":15,"tx":"62"}]"#;

const TWICE: &str = r#","links":[{"every":1,"at":0,"shape":"twice"}]"#;

// Without stops the workers leave nothing.
#[test]
fn workers_leave_nothing(rt: HostRuntime) -> Result<(), Fail> {
    check(&rt, rt.alloc(), FOUR, "", 1, 0)?;
    check(&rt, rt.alloc(), FOUR, TWICE, 2, 0)?;
    check(&rt, rt.alloc(), SIXTEEN, TWICE, 2, 0)?;
    Ok(())
}

const STOPPED_AND_TWICE: &str =
    r#","links":[{"every":1,"at":0,"shape":"twice"}],"stops":[{"node":1,"actor":1,"call":10,"leave":"new"}]"#;

// What lane 1 of node 1 hears first is the proposal of its desk, which comes once. The calls 7 to 10 of its disk write the entry
// of its shards. It stops there, forgets the proposal, and is restarted; the workers deliver all the rest. So the last deliveries
// bring it the proposal again. Where the entry was lost, the shards are posted only then, and what follows from them is left too.
#[test]
fn what_a_stop_leaves(rt: HostRuntime) -> Result<(), Fail> {
    let lost = r#","stops":[{"node":1,"actor":1,"call":9,"leave":"old"}]"#;
    check(&rt, rt.alloc(), FOUR, lost, 1, 1)?;
    check(&rt, rt.alloc(), FOUR, STOPPED_AND_TWICE, 2, 1)?;
    Ok(())
}
