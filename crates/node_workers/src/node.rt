//! The cells of a node, and a round of a worker among them.

ghost use Rattle.std.specs.Prelude.{◌≡◌};
ghost use Rattle.node_workers.specs.Rounds.{is_did};

use crate::pool::serve_all;
use actor_cell::{Cell, RunName, Served};
use hb_base::Gate;
use hb_rules::Actor;
use liar_cell::LiarCell;
use post_book::NamedBook;
use std::alloc::Global;
use std::sync::Wait;
use std::thread::Threads;
use step_driver::Mouth;

/// What a node has behind locks.
#[derive(Drop)]
pub enum Node<'b, B: NamedBook + Drop, A: Actor<B>, L: Mouth, J: RunName> {
    /// The actors of a correct node, each behind its lock, by their numbers.
    Correct(Vec<Cell<'b, B, A, J>>),
    /// A node that lies.
    Lying(LiarCell<'b, B, L, J>),
}

// Serves each cell once, but those that another worker serves, and tells whether any of them took a number.
fn serve_each<'b, B: NamedBook + Drop, A: Actor<B>, J: RunName, R: Wait, G: Gate>(
    rt: &R,
    alloc: Global,
    cells: &[Cell<'b, B, A, J>],
    gate: &G,
) -> bool {
    let mut took = false;
    for cell in cells {
        took |= is_did(cell.serve(rt, alloc, gate));
    }
    took
}

// Whether a cell that gave this answer took a number.
fn is_did(served: Option<Served>) -> bool
    ensures { result ≡ is_did served }
{
    match served {
        Some(Served::Did) => true,
        Some(Served::Idle | Served::Ended) | None => false,
    }
}

// One round of a worker: it serves each cell of the node once if no other worker does, and begins at the one whose number is the
// worker's modulo their count. It tells whether any of them took a number.
fn round<'b, B: NamedBook + Drop, A: Actor<B>, J: RunName, R: Wait, G: Gate>(
    rt: &R,
    alloc: Global,
    cells: &[Cell<'b, B, A, J>],
    worker: usize,
    gate: &G,
) -> bool {
    if cells.is_empty() {
        return false;
    }
    let (front, back) = cells.split_at(worker % cells.len());
    let took = serve_each(rt, alloc, back, gate);
    serve_each(rt, alloc, front, gate) || took
}

// A round at one of the nodes: its actors make turns, and so does a node that lies. It tells whether any of them took a number.
fn round_at<'b, B: NamedBook + Drop, A: Actor<B>, L: Mouth, J: RunName, R: Wait, G: Gate>(
    rt: &R,
    alloc: Global,
    nodes: &[Node<'b, B, A, L, J>],
    node: usize,
    worker: usize,
    gate: &G,
) -> bool {
    match nodes.get(node) {
        Some(Node::Correct(cells)) => round(rt, alloc, cells.as_slice(), worker, gate),
        Some(Node::Lying(liar)) => is_did(liar.serve(rt, alloc, gate)),
        None => false,
    }
}

/// Runs so many workers for each node until each has found that nobody has anything to do. A worker serves what is at its own
/// node alone, and at a correct one worker w begins each round at actor w modulo their count. It may wait.
pub fn run_nodes<'b, B, A, L, J, R, G>(
    rt: &R,
    alloc: Global,
    nodes: &[Node<'b, B, A, L, J>],
    workers: usize,
    gate: &G,
)
where
    B: NamedBook + Drop + Send,
    B::Seat: Send,
    A: Actor<B> + Send,
    L: Mouth + Send,
    J: RunName + Send + Sync,
    R: Threads + Wait + Sync,
    G: Gate,
{
    serve_all(
        rt,
        nodes.len(),
        workers,
        &|node: usize, worker: usize| { round_at(rt, alloc, nodes, node, worker, gate) },
    );
}
