//! A whole run on one thread.

ghost use Rattle.std.specs.Prelude.{◌≡◌, ◌+◌, ◌<◌, ◌≤◌, ◌^◌, [], length, map, filter_map, IfOk, IfSome, OnOk};
ghost use Rattle.hb_base.specs.Limits.{most_posts};
ghost use Rattle.hb_rules.specs.History.{IsLegal};
ghost use Rattle.hb_rules.specs.Report.{IsQuiet, StaysWithinPlan, FollowsPoolRule};
ghost use Rattle.net_script.specs.declared.script.Script.{Script};
ghost use Rattle.step_driver.specs.Waiting.{nothing_waits};
ghost use Rattle.step_driver.specs.Places.{spots, names};
ghost use Rattle.step_driver.specs.Directory.{IsDirectory};
ghost use Rattle.step_driver.specs.Delivering.{IsStage, IsSupplied, Always, But, most_places, weight, AreFollowed, IsBetween};
ghost use Rattle.step_driver.specs.Running.{IsTeam, report_of, EndsFullByCause, end_view, end_of, GoesOn, IsTurn, HasRun};

use crate::coming::count_posts;
use crate::directory::Directory;
use crate::ends::ends_of;
use crate::envelope::Envelope;
use crate::hired::Mouth;
use crate::line::Line;
use crate::place::Place;
use crate::sending::{send, send_again};
use hb_base::Gate;
use hb_rules::{Actor, End, PlainBook};
use hb_wire::Post;
use net_script::Script;
use rand_chacha::ChaCha20Rng;
use seed_words::words_of;
use std::alloc::{AllocError, Global};

/// What a run leaves: the history of all posts, and the end of each actor of each correct node, by node and then actor.
#[derive(Debug, Drop)]
pub struct Done {
    /// All posts, in their order.
    pub history: Vec<Post>,
    /// How the run ended for each actor.
    pub ends: Vec<End>,
}

/// Runs the places on one thread until nothing is left to do. Each place is started, in their order; then posts are delivered
/// one by one, in the script's order, and those that come of them. An actor that a stop has left without power is restarted at
/// once, and all earlier posts that come to it are delivered again. An actor with another refusal ends, and the others go on.
/// Before each delivery the gate is entered. Err is want of memory for the table of the places, for what waits or for the ends.
pub fn run_steps<A: Actor<PlainBook>, L: Mouth, G: Gate>(
    alloc: Global,
    script: &Script,
    places: Vec<Place<A, L>>,
    book: PlainBook,
    gate: &G,
) -> Result<Done, AllocError>
    requires empty { book.posts ≡ [] }
    requires team { IsTeam book.config (names (spots A.seat A.view places.items)) }
    requires stage { IsStage book.config script.now 0 [] (spots A.seat A.view places.items) }
    ensures legal { IfOk result (λ done. IsLegal book.config done.history.items) }
    ensures quiet { IfOk result (λ done. IsQuiet (report_of book.config script.now done)) }
    ensures plan { IfOk result (λ done. StaysWithinPlan (report_of book.config script.now done)) }
    ensures rule { IfOk result (λ done. FollowsPoolRule (report_of book.config script.now done)) }
    ensures full { IfOk result (λ done. EndsFullByCause (report_of book.config script.now done)) }
{
    let mut places = places;
    let mut book = book;
    let ends = run_all(alloc, script, &mut book, &mut places, gate)?;
    Ok(Done {
        history: book.into_history(),
        ends,
    })
}

// Runs the places until nothing is left to do, and answers the ends.
fn run_all<A: Actor<PlainBook>, L: Mouth, G: Gate>(
    alloc: Global,
    script: &Script,
    book: &mut PlainBook,
    places: &mut Vec<Place<A, L>>,
    gate: &G,
) -> Result<Vec<End>, AllocError>
    requires empty { book.old.posts ≡ [] }
    requires team { IsTeam book.old.config (names (spots A.seat A.view places.old.items)) }
    requires stage { IsStage book.old.config script.now 0 [] (spots A.seat A.view places.old.items) }
    ensures ran { OnOk result (HasRun book.old.config script.now book.new.posts (spots A.seat A.view places.new.items)) }
    ensures config { OnOk result (book.new.config ≡ book.old.config) }
    ensures ends { IfOk result (λ ends. map end_view ends.items ≡ filter_map end_of (spots A.seat A.view places.new.items)) }
{
    let config = book.config();
    let directory = Directory::of(alloc, &config, places.as_slice())?;
    let mut line = Line::new(alloc);
    start_all(alloc, script, book, places, &directory, &mut line)?;
    let mut words = words_of(config.seed(), 1);
    run_line(
        alloc, script, book, places, &directory, &mut line, &mut words, gate,
    )?;
    ends_of(alloc, places.as_slice())
}

// Starts what is at each place, in their order.
fn start_all<A: Actor<PlainBook>, L: Mouth>(
    alloc: Global,
    script: &Script,
    book: &mut PlainBook,
    places: &mut Vec<Place<A, L>>,
    directory: &Directory,
    line: &mut Line,
) -> Result<(), AllocError>
    requires listed { IsDirectory book.old.config.n directory.now (names (spots A.seat A.view places.old.items)) }
    requires stage { IsStage book.old.config script.now 0 book.old.posts (spots A.seat A.view places.old.items) }
    requires supplied { IsSupplied Always book.old.config script.now book.old.posts (spots A.seat A.view places.old.items) line.old }
    ensures { OnOk result (GoesOn script.now (length (spots A.seat A.view places.old.items)) book.old book.new
        (spots A.seat A.view places.old.items) (spots A.seat A.view places.new.items) line.old line.new) }
{
    for number in 0..places.len() {
        start_one(alloc, script, book, places, directory, line, number)?;
    }
    Ok(())
}

// Starts what is at one place, and adds the envelopes of what comes of it.
fn start_one<A: Actor<PlainBook>, L: Mouth>(
    alloc: Global,
    script: &Script,
    book: &mut PlainBook,
    places: &mut Vec<Place<A, L>>,
    directory: &Directory,
    line: &mut Line,
    number: usize,
) -> Result<(), AllocError>
    requires within { number < length places.old.items }
    requires listed { IsDirectory book.old.config.n directory.now (names (spots A.seat A.view places.old.items)) }
    requires stage { IsStage book.old.config script.now number book.old.posts (spots A.seat A.view places.old.items) }
    requires supplied { IsSupplied Always book.old.config script.now book.old.posts (spots A.seat A.view places.old.items) line.old }
    ensures { OnOk result (GoesOn script.now (number + 1) book.old book.new
        (spots A.seat A.view places.old.items) (spots A.seat A.view places.new.items) line.old line.new) }
{
    let first = count_posts(book);
    let again = start_at(alloc, script, book, places, number);
    follow(
        script,
        book,
        places.as_slice(),
        directory,
        line,
        first,
        number,
        again,
    )?;
    Ok(())
}

// Delivers all that waits, and what comes of it.
fn run_line<A: Actor<PlainBook>, L: Mouth, G: Gate>(
    alloc: Global,
    script: &Script,
    book: &mut PlainBook,
    places: &mut Vec<Place<A, L>>,
    directory: &Directory,
    line: &mut Line,
    words: &mut ChaCha20Rng,
    gate: &G,
) -> Result<(), AllocError>
    requires listed { IsDirectory book.old.config.n directory.now (names (spots A.seat A.view places.old.items)) }
    requires stage { IsStage book.old.config script.now (length (spots A.seat A.view places.old.items)) book.old.posts (spots A.seat A.view places.old.items) }
    requires supplied { IsSupplied Always book.old.config script.now book.old.posts (spots A.seat A.view places.old.items) line.old }
    requires words { words.old.word_pos + weight book.old.posts (spots A.seat A.view places.old.items) line.old + 1 < 2 ^ 68 }
    ensures goes { OnOk result (GoesOn script.now (length (spots A.seat A.view places.old.items)) book.old book.new
        (spots A.seat A.view places.old.items) (spots A.seat A.view places.new.items) line.old line.new) }
    ensures rests { OnOk result (line.new ≡ nothing_waits) }
{
    'line: loop {
        match line.take(script.order, words) {
            None => return Ok(()),
            Some(taken) => serve(alloc, script, book, places, directory, line, taken, gate)?,
        }
    }
}

// Delivers one envelope, and adds the envelopes of what comes of it.
fn serve<A: Actor<PlainBook>, L: Mouth, G: Gate>(
    alloc: Global,
    script: &Script,
    book: &mut PlainBook,
    places: &mut Vec<Place<A, L>>,
    directory: &Directory,
    line: &mut Line,
    taken: Envelope,
    gate: &G,
) -> Result<(), AllocError>
    requires listed { IsDirectory book.old.config.n directory.now (names (spots A.seat A.view places.old.items)) }
    requires stage { IsStage book.old.config script.now (length (spots A.seat A.view places.old.items)) book.old.posts (spots A.seat A.view places.old.items) }
    requires supplied { IsSupplied (But taken.place taken.post) book.old.config script.now book.old.posts (spots A.seat A.view places.old.items) line.old }
    ensures { OnOk result (GoesOn script.now (length (spots A.seat A.view places.old.items)) book.old book.new
        (spots A.seat A.view places.old.items) (spots A.seat A.view places.new.items) line.old line.new) }
{
    let first = count_posts(book);
    let again = serve_at(alloc, script, book, places, taken, gate);
    follow(
        script,
        book,
        places.as_slice(),
        directory,
        line,
        first,
        taken.place,
        again,
    )?;
    Ok(())
}

// Delivers one envelope. The answer is that of `Place::hear`.
fn serve_at<A: Actor<PlainBook>, L: Mouth, G: Gate>(
    alloc: Global,
    script: &Script,
    book: &mut PlainBook,
    places: &mut Vec<Place<A, L>>,
    taken: Envelope,
    gate: &G,
) -> Option<u32>
    requires stage { IsStage book.old.config script.now (length (spots A.seat A.view places.old.items)) book.old.posts (spots A.seat A.view places.old.items) }
    ensures turn { IsTurn script.now taken.post (length (spots A.seat A.view places.old.items)) taken.place book.old book.new
        (spots A.seat A.view places.old.items) (spots A.seat A.view places.new.items) result }
    ensures place { IfSome result (λ _. taken.place < length (spots A.seat A.view places.new.items)) }
{
    if taken.place >= places.len() {
        return None;
    }
    let place = &mut places[taken.place];
    place.enter(gate);
    place.hear(alloc, script, book, taken.post)
}

// Starts what is at one place. The answer is that of `Place::start`.
fn start_at<A: Actor<PlainBook>, L: Mouth>(
    alloc: Global,
    script: &Script,
    book: &mut PlainBook,
    places: &mut Vec<Place<A, L>>,
    number: usize,
) -> Option<u32>
    requires within { number < length places.old.items }
    requires stage { IsStage book.old.config script.now number book.old.posts (spots A.seat A.view places.old.items) }
    ensures turn { IsTurn script.now (length book.new.posts) (number + 1) number book.old book.new
        (spots A.seat A.view places.old.items) (spots A.seat A.view places.new.items) result }
    ensures place { IfSome result (λ _. number < length (spots A.seat A.view places.new.items)) }
{
    let place = &mut places[number];
    place.start(alloc, script, book)
}

// Adds the envelopes of the posts from number `first` on, and behind them the second deliveries of an actor that was restarted.
fn follow<A: Actor<PlainBook>, L: Mouth>(
    script: &Script,
    book: &PlainBook,
    places: &[Place<A, L>],
    directory: &Directory,
    line: &mut Line,
    first: u32,
    place: usize,
    again: Option<u32>,
) -> Result<(), AllocError>
    requires first { first ≤ length book.now.posts }
    requires few { length (spots A.seat A.view places.now) ≤ most_places }
    requires listed { IsDirectory book.now.config.n directory.now (names (spots A.seat A.view places.now)) }
    requires again { IfSome again (IsBetween first (length book.now.posts)) }
    requires place { IfSome again (λ _. place < length (spots A.seat A.view places.now)) }
    ensures { OnOk result (AreFollowed book.now.config script.now book.now.posts (spots A.seat A.view places.now) first place again line.old line.new) }
{
    let config = book.config();
    let posts = book.history();
    send(script, &config, posts, places, directory, line, first)?;
    match again {
        None => Ok(()),
        Some(stood) => send_again(script, &config, posts, places, line, place, stood),
    }
}
