//! Scenarios with workers, and the texts of runs of four nodes.

use std::alloc::{AllocError, Global};

// Four nodes, of which one may be faulty, with a transaction each, up to what else the scenario has.
pub(crate) const FOUR: &str =
    r#"{"nodes":4,"faulty":1,"epochs":1,"submit":[{"node":0,"tx":"6130"},{"node":1,"tx":"6131"},{"node":2,"tx":"6132"},{"node":3,"tx":"6133"}]"#;

// A scenario that has these keys besides, and so many workers at each node.
pub(crate) fn with_workers(
    alloc: Global,
    scenario: &str,
    keys: &str,
    workers: u8,
) -> Result<String, AllocError> {
    format!(in alloc; "{scenario}{keys},\"workers\":{workers}}}")
}

// The list of one epoch in which all nodes but this one were accepted.
fn ledger_without(alloc: Global, left_out: u8) -> Result<String, AllocError> {
    let mut lines = String::from_str(alloc, "epoch 0 batches 3\n")?;
    for node in 0..4u8 {
        if node != left_out {
            let batch = format!(in alloc; "batch {node} txs 1\ntx 613{node}\n")?;
            lines.push_str(batch.as_str())?;
        }
    }
    Ok(lines)
}

// The text of a run of the four nodes in which all but this one were accepted.
pub(crate) fn text_without(alloc: Global, left_out: u8) -> Result<String, AllocError> {
    let ledger = ledger_without(alloc, left_out)?;
    let mut text = String::from_str(alloc, "run nodes 4 faulty 1 version 1 epochs 1\n")?;
    for node in 0..4u8 {
        text.push_str(format!(in alloc; "node {node} running\n{ledger}")?.as_str())?;
    }
    text.push_str("end 0\n")?;
    Ok(text)
}
