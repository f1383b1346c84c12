//! How often the gate is entered: once for each delivery, whoever makes it. And that nobody receives a post twice.
//!
//! A lane makes its journal by 6 calls of its disk, and writes its first entry by 4 more when it hears what its desk proposes.
//! That is the first post that comes to it. A stop at the first of these 4 leaves nothing of the entry: the lane is restarted,
//! has forgotten the post, and gets it again. In a run of one node with workers nobody then has anything to do. So all else
//! comes behind them, in the last deliveries.

use crate::CountingGate;
use crate::calls::{Answer, Host, Request, call_through, cast_of};
use crate::four::four_nodes;
use hb_rules::Report;
use hb_wire::{Post, To};
use std::alloc::{AllocError, Global};
use std::test::Fail;

// The scenario of one node, or of the four, with these keys besides.
fn scenario(alloc: Global, nodes: u8, keys: &str) -> Result<String, AllocError> {
    if nodes == 1 {
        return format!(in alloc; "{{\"nodes\":1,\"faulty\":0,\"epochs\":1{keys}}}");
    }
    four_nodes(alloc, keys)
}

// Runs it. How often the gate was entered, and what the run left.
fn run_counted(
    rt: &impl Host,
    alloc: Global,
    nodes: u8,
    keys: &str,
) -> Result<(u64, Answer), AllocError> {
    let gate = CountingGate::new(0, 0);
    let scenario = scenario(alloc, nodes, keys)?;
    let given = Request::new("run", scenario.as_str());
    let answer = call_through(rt, alloc, &given, cast_of(alloc)?, &gate)?;
    let entered = gate.of_actor().saturating_add(gate.of_others());
    Ok((entered, answer))
}

// To how many actors the address of a post leads. A node that lies counts once, for all its actors.
fn deliveries_of(post: &Post, n: u8) -> u64 {
    match post.to {
        To::Book => 0,
        To::Node(_) => 1,
        To::All => u64::from(n),
        To::Home if post.actor == n => u64::from(n),
        To::Home => 1,
    }
}

fn count_deliveries(report: &Report) -> u64 {
    let n = report.config.n();
    let mut count = 0u64;
    for post in report.history.as_slice() {
        count = count.saturating_add(deliveries_of(post, n));
    }
    count
}

// Whether no number stands twice.
fn are_different(numbers: &[u32]) -> bool {
    numbers.iter().enumerate().all(|(place, number)| {
        let (before, _rest) = numbers.split_at(place.min(numbers.len()));
        !before.contains(number)
    })
}

// Whether no actor has received a post twice.
fn is_once(report: &Report) -> bool {
    report
        .ends
        .iter()
        .all(|end| are_different(end.got.as_slice()))
}

const STOP: &str = r#","stops":[{"node":0,"actor":0,"call":7,"leave":"old"}]"#;

// How many nodes, the keys, and how many deliveries are made again. No link drops, doubles or delays.
const ROWS: [(u8, &str, u64); 13] = [
    (1, r#","workers":1"#, 0),
    (1, r#","workers":4"#, 0),
    (
        1,
        r#","workers":1,"stops":[{"node":0,"actor":0,"call":7,"leave":"old"}]"#,
        1,
    ),
    (
        1,
        r#","workers":4,"stops":[{"node":0,"actor":0,"call":7,"leave":"old"}]"#,
        1,
    ),
    (4, "", 0),
    (4, STOP, 1),
    (4, r#","version":2"#, 0),
    (4, r#","order":"mixed","seed":7"#, 0),
    (4, r#","liars":[{"node":3,"name":"silent"}]"#, 0),
    (
        4,
        r#","liars":[{"node":3,"name":"equivocate","hears":0}]"#,
        0,
    ),
    (4, r#","workers":1"#, 0),
    (4, r#","workers":4"#, 0),
    (4, r#","workers":4,"liars":[{"node":3,"name":"silent"}]"#, 0),
];

#[test]
fn each_delivery_enters_once(rt: HostRuntime) -> Result<(), Fail> {
    for &(nodes, keys, again) in &ROWS {
        let (entered, answer) = run_counted(&rt, rt.alloc(), nodes, keys)?;
        let wanted = count_deliveries(&answer.report).saturating_add(again);
        assert!(rt;
            entered == wanted && is_once(&answer.report),
            "{nodes} nodes{keys}"
        );
    }
    Ok(())
}

// The history of one node alone has 33 posts, of which 11 are its own notes.
#[test]
fn one_node_by_hand(rt: HostRuntime) -> Result<(), Fail> {
    for &(keys, wanted) in &[("", 22u64), (STOP, 23)] {
        let (entered, answer) = run_counted(&rt, rt.alloc(), 1, keys)?;
        assert!(rt;
            entered == wanted && answer.report.history.len() == 33,
            "{keys}"
        );
    }
    Ok(())
}
