//! A whole run on threads.
ghost use Rattle.std.specs.Prelude.{◌≡◌, [], map, All, IfOk, OnOk};
ghost use Rattle.net_script.specs.Scenario.{told};
ghost use Rattle.net_script.specs.Sound.{IsScenario};
ghost use Rattle.ledger_run.specs.Run.{IsRunOf};
ghost use Rattle.ledger_run.specs.Team.{names_below};
ghost use Rattle.run_closing.specs.Joining.{seats_in};
ghost use Rattle.run_closing.specs.Returning.{number_of};
ghost use Rattle.returned_players.specs.Leaving.{IsLeft};

use crate::playing::serve_and_finish;
use actor_cell::{Boxes, RunName};
use coin_deal::deal;
use hb_base::Gate;
use hb_rules::Report;
use ledger_run::{NodeActor, Voice};
use net_script::Script;
use post_book::{FirstSeat, Naming, PostBook, SharedBook, SharedSeat};
use returned_players::Left;
use run_closing::{close_with, closing_laws};
use run_openings::openings_of;
use std::alloc::{AllocError, Global};
use std::marker::Brand;
use std::sync::{Arc, Wait};
use std::thread::Threads;
use thread_team::begin_all;

/// Runs a scenario on threads until nothing is left to do: each actor of each correct node over a disk of its own in memory, and
/// at each node that lies the voice of the script's liar there, with as many workers for each node as the script says. The voices
/// are those of the script's liars, in their order; where one is missing the liar says nothing. Before each delivery the gate is
/// entered. The status of the report is for the caller to set. It may wait. Err is want of memory for what the run stands on; an
/// actor that finds none ends with that fate.
pub fn run_on_threads<R: Threads + Wait + Sync, G: Gate>(
    rt: &R,
    alloc: Global,
    script: Script,
    voices: Vec<Voice>,
    gate: &G,
) -> Result<Report, AllocError>
    requires scenario { IsScenario (told script) }
    ensures ran { IfOk result (IsRunOf script) }
{
    run_named::<Brand, R, G>(rt, alloc, script, voices, gate)
}

// The same, where the config of the run is named.
fn run_named<K: Naming + Send + Sync, R: Threads + Wait + Sync, G: Gate>(
    rt: &R,
    alloc: Global,
    script: Script,
    voices: Vec<Voice>,
    gate: &G,
) -> Result<Report, AllocError>
    requires config { script.config ≡ K.config }
    requires scenario { IsScenario (told script) }
    ensures ran { IfOk result (IsRunOf script) }
{
    // what this call ensures says that the numbers of the run are sound
    let _sound = script.config.liars();
    let (book, mut first) = PostBook::<K>::new(alloc, &script.config)?;
    let Left { ends, seats } = run_over::<K, Brand, R, G>(
        rt, alloc, &script, voices, &book, &mut first, gate,
    )?;
    closing_laws();
    let history = close_with(book, first, seats);
    Ok(Report {
        config: script.config,
        script,
        history,
        ends,
        status: 255,
    })
}

// Runs it over a book that has no post, and whose first seat has made no seat, where the book and the script are named too.
fn run_over<
    'a,
    K: Naming + Send + Sync,
    J: RunName + Send + Sync,
    R: Threads + Wait + Sync,
    G: Gate,
>(
    rt: &'a R,
    alloc: Global,
    script: &Script,
    voices: Vec<Voice>,
    book: &'a PostBook<K>,
    first: &mut FirstSeat<K>,
    gate: &G,
) -> Result<Left<SharedSeat<K>>, AllocError>
    requires config { script.now.config ≡ K.config }
    requires name { book.now ≡ J.book }
    requires script { J.is_script script.now }
    requires scenario { IsScenario (told script.now) }
    requires first { first.old ≡ record { book = book.now; seen = []; given = []; joined = [] } }
    ensures first { OnOk result (first.new ≡ record first.old { given = map number_of (names_below K.config K.config.n) }) }
    ensures left { IfOk result (λ left. IsLeft script.now (seats_in left.seats.items) left.ends.items) }
    ensures of_book { IfOk result (λ left. All (λ seat. seat.book ≡ book.now) left.seats.items) }
{
    let deal = Arc::new(alloc, deal(alloc, &script.config)?)?;
    let (boxes, passes) = Boxes::new(alloc, &script.config)?;
    let openings = openings_of(alloc, book, first, &boxes, passes)?;
    let shared = SharedBook::at(rt, book);
    let nodes = begin_all::<SharedBook<'a, R, K>, J, R>(
        rt, alloc, script, &deal, voices, shared, &boxes, openings,
    )?;
    serve_and_finish::<SharedBook<'a, R, K>, NodeActor<SharedBook<'a, R, K>>, Voice, J, R, G>(
        rt, alloc, script, shared, nodes, gate,
    )
}
