//! What becomes of a team that was started, over any kind of book that threads may share.
ghost use Rattle.std.specs.Prelude.{◌≡◌, length, All, sum_by, IfOk};
ghost use Rattle.ledger_run.specs.Team.{names_below};
ghost use Rattle.last_deliveries.specs.Settling.{seats_at};
ghost use Rattle.node_workers.specs.Rounds.{locks_of};
ghost use Rattle.returned_players.specs.Leaving.{IsLeft};

use actor_cell::RunName;
use hb_base::Gate;
use hb_rules::Actor;
use net_script::Script;
use node_workers::{Node, run_nodes};
use post_book::NamedBook;
use returned_players::{Left, finish};
use std::alloc::{AllocError, Global};
use std::sync::Wait;
use std::thread::Threads;
use step_driver::Mouth;
use thread_team::{Returned, take_out};

// Lets workers serve what was started, takes it out of its locks, and ends the run.
pub(crate) fn serve_and_finish<'b, B, A, L, J, R, G>(
    rt: &R,
    alloc: Global,
    script: &Script,
    book: B,
    nodes: Vec<Node<'b, B, A, L, J>>,
    gate: &G,
) -> Result<Left<B::Seat>, AllocError>
where
    B: NamedBook + Drop + Send,
    B::Seat: Send,
    A: Actor<B> + Send,
    L: Mouth + Send,
    J: RunName + Send + Sync,
    R: Threads + Wait + Sync,
    G: Gate,
    requires name { B.name book ≡ J.book }
    requires script { J.is_script script.now }
    requires all { sum_by locks_of nodes.items ≡ length (names_below script.now.config script.now.config.n) }
    ensures left { IfOk result (λ left. IsLeft script.now (seats_at B.config B.node B.actor B.seen left.seats.items) left.ends.items) }
    ensures of_book { IfOk result (λ left. All (B.knows book) left.seats.items) }
{
    run_nodes(rt, alloc, nodes.as_slice(), script.workers as usize, gate);
    let Returned {
        players,
        liars,
        noted,
    } = take_out(alloc, script, &book, nodes)?;
    finish::<B, A, G>(alloc, script, book, players, liars, &noted, gate)
}
