//! The nodes of a run, as they are printed.

ghost use Rattle.std.specs.Prelude.{◌≡◌};
ghost use Rattle.std.specs.List.{flat_map, range_with_len};
ghost use Rattle.script_fault.specs.Line.{Writes};
ghost use Rattle.ledger_text.specs.Text.{end_text, state_text, node_text};

use crate::ledger::put_ledger;
use crate::lines::{put_actor, put_node};
use crate::lists::NodeLedger;
use acs_world::LedgerFinder;
use hb_base::{Failed, Sink};
use hb_rules::{End, Fate, Report, running};
use std::alloc::Global;

/// Prints the nodes in order.
pub(crate) fn put_nodes<O: Sink>(alloc: Global, report: &Report, out: &mut O) -> Result<(), Failed>
    ensures { Writes (O.held out.old) (O.held out.new) (O.faults out.old) (O.faults out.new) result
        (flat_map (node_text report.now) (range_with_len 0 report.now.config.n)) }
{
    let ledgers = LedgerFinder::new(&report.config, report.history.as_slice());
    for node in 0..report.config.n() {
        put_whole_node(alloc, report, &ledgers, node, out)?;
    }
    Ok(())
}

// Prints a node: that it lies, or its state and its ledger.
#[tactic(auto, using(script_fault::proofs::Writing::writes_then, script_fault::proofs::Writing::writes_front), unfolding(crate::specs::Text::node_text))]
fn put_whole_node<O: Sink>(
    alloc: Global,
    report: &Report,
    ledgers: &LedgerFinder,
    node: u8,
    out: &mut O,
) -> Result<(), Failed>
    requires { ledgers.now ≡ record { config = report.now.config; posts = report.now.history.items } }
    ensures { Writes (O.held out.old) (O.held out.new) (O.faults out.old) (O.faults out.new) result (node_text report.now node) }
{
    if report.config.liars().has(node) {
        return put_node(node, "liar", out);
    }
    put_state(report, node, out)?;
    put_ledger(alloc, &NodeLedger { ledgers, node }, out)
}

// Prints whether a node runs, and if not, which of its actors have ended.
#[tactic(auto, using(script_fault::proofs::Writing::writes_then, script_fault::proofs::Writing::writes_front), unfolding(crate::specs::Text::state_text))]
fn put_state<O: Sink>(report: &Report, node: u8, out: &mut O) -> Result<(), Failed>
    ensures { Writes (O.held out.old) (O.held out.new) (O.faults out.old) (O.faults out.new) result (state_text report.now node) }
{
    if running(report, node) {
        return put_node(node, "running", out);
    }
    put_node(node, "ended", out)?;
    put_ends(report.ends.as_slice(), node, out)
}

// Prints the actors of a node that have ended.
fn put_ends<O: Sink>(ends: &[End], node: u8, out: &mut O) -> Result<(), Failed>
    ensures { Writes (O.held out.old) (O.held out.new) (O.faults out.old) (O.faults out.new) result (flat_map (end_text node) ends.now) }
{
    for end in ends {
        put_fate(end, node, out)?;
    }
    Ok(())
}

// Prints an actor, if it is one of this node and has ended.
#[tactic(auto, using(crate::proofs::Order::writes_nothing))]
fn put_fate<O: Sink>(end: &End, node: u8, out: &mut O) -> Result<(), Failed>
    ensures { Writes (O.held out.old) (O.held out.new) (O.faults out.old) (O.faults out.new) result (end_text node end.now) }
{
    if end.node != node || end.fate == Fate::Running {
        return Ok(());
    }
    put_actor(end.actor, end.fate, out)
}
