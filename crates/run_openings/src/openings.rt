//! The seats and passes of a run, by node.
ghost use Rattle.std.specs.Prelude.{◌≡◌, ◌≤◌, ◌+◌, ◌<◌, [], ◌∷◌, ◌++◌, map, length, All, Contains, IfOk, OnOk, true, false, sum_by};
ghost use Rattle.std.specs.List.{range_with_len};
ghost use Rattle.hb_base.specs.NodeSet.{is_in};
ghost use Rattle.actor_cell.specs.Boxes.{owners};
ghost use Rattle.actor_cell.specs.Passes.{AreDealt, ArePassesOf};
ghost use Rattle.post_book.specs.Numbering.{seat_number};
ghost use Rattle.post_book.specs.SharedSeats.{SharedView};
ghost use Rattle.ledger_run.specs.Actors.{new_seat};
ghost use Rattle.ledger_run.specs.Team.{names_below, names_at};
ghost use Rattle.run_closing.specs.Returning.{number_of};
ghost use Rattle.run_openings.specs.Opening.{IsNodeOpening, IsActorOpening, IsLiarOpening, opening_name, opening_names, places_of};
ghost use Rattle.run_openings.specs.Seating.{AreMade};

use crate::opening::{NodeOpening, Opening};
use actor_cell::{Boxes, Passes};
use post_book::{FirstSeat, Naming, PostBook, SharedSeat};
use std::alloc::{AllocError, Global};

/// For each node in order a seat for each of its places, with the passes whose mailbox is that of the place: for the lanes of a
/// correct node and then for its desk, and one for a node that lies. The error is want of memory.
pub fn openings_of<K: Naming>(
    alloc: Global,
    book: &PostBook<K>,
    first: &mut FirstSeat<K>,
    boxes: &Boxes,
    passes: Vec<Passes>,
) -> Result<Vec<NodeOpening<SharedSeat<K>>>, AllocError>
    requires first { first.old ≡ record { book = book.now; seen = []; given = []; joined = [] } }
    requires config { boxes.now.config ≡ K.config }
    requires boxes { length boxes.now.names ≡ length (owners K.config) }
    requires passes { AreDealt boxes.now.names passes.items × All (ArePassesOf boxes.now) passes.items }
    ensures first { OnOk result (first.new ≡ record first.old { given = map number_of (names_below K.config K.config.n) }) }
    ensures openings { IfOk result (λ all. All (IsNodeOpening (λ (seat : SharedView). seat.book ≡ book.now) (λ (seat : SharedView). seat.seat) boxes.now K.config) all.items) }
    ensures names { IfOk result (λ all. map opening_names all.items ≡ map (names_at K.config) (range_with_len 0 K.config.n)) }
    ensures all { IfOk result (λ all. sum_by places_of all.items ≡ length (names_below K.config K.config.n)) }
{
    let mut passes = passes;
    let mut openings = Vec::new(alloc);
    for node in 0..boxes.config().n() {
        let opening = opening_at(alloc, book, first, boxes, &mut passes, node)?;
        openings.push(opening)?;
    }
    Ok(openings)
}

// The seats and passes of a node.
fn opening_at<K: Naming>(
    alloc: Global,
    book: &PostBook<K>,
    first: &mut FirstSeat<K>,
    boxes: &Boxes,
    passes: &mut Vec<Passes>,
    node: u8,
) -> Result<NodeOpening<SharedSeat<K>>, AllocError>
    requires config { boxes.now.config ≡ K.config }
    requires known { node < K.config.n }
    requires made { AreMade K.config boxes.now book.now (names_below K.config node) node 0 first.old passes.old.items }
    ensures made { OnOk result (AreMade K.config boxes.now book.now (names_below K.config (node + 1)) (node + 1) 0 first.new passes.new.items) }
    ensures opening { IfOk result (IsNodeOpening (λ (seat : SharedView). seat.book ≡ book.now) (λ (seat : SharedView). seat.seat) boxes.now K.config) }
    ensures names { IfOk result (λ opening. opening_names opening ≡ names_at K.config node) }
{
    if boxes.config().liars().has(node) {
        return Ok(NodeOpening::Lying(seat_next(book, first, boxes, passes, node, 255)));
    }
    let actors = actors_at(alloc, book, first, boxes, passes, node)?;
    Ok(NodeOpening::Correct(actors))
}

// Those of the lanes of a correct node, and then of its desk.
fn actors_at<K: Naming>(
    alloc: Global,
    book: &PostBook<K>,
    first: &mut FirstSeat<K>,
    boxes: &Boxes,
    passes: &mut Vec<Passes>,
    node: u8,
) -> Result<Vec<Opening<SharedSeat<K>>>, AllocError>
    requires config { boxes.now.config ≡ K.config }
    requires known { node < K.config.n }
    requires honest { is_in K.config.liars node ≡ false }
    requires made { AreMade K.config boxes.now book.now (names_below K.config node) node 0 first.old passes.old.items }
    ensures made { OnOk result (AreMade K.config boxes.now book.now (names_below K.config (node + 1)) (node + 1) 0 first.new passes.new.items) }
    ensures openings { IfOk result (λ all. All (IsActorOpening (λ (seat : SharedView). seat.book ≡ book.now) (λ (seat : SharedView). seat.seat) boxes.now K.config) all.items) }
    ensures names { IfOk result (λ all. map (opening_name false) all.items ≡ names_at K.config node) }
{
    let mut openings = Vec::new(alloc);
    for actor in 0..boxes.config().n() + 1 {
        let opening = seat_next(book, first, boxes, passes, node, actor);
        openings.push(opening)?;
    }
    Ok(openings)
}

// The seat of an actor, or of a node that lies, for which none was made before, with the next passes.
fn seat_next<K: Naming>(
    book: &PostBook<K>,
    first: &mut FirstSeat<K>,
    boxes: &Boxes,
    passes: &mut Vec<Passes>,
    node: u8,
    actor: u8,
) -> Opening<SharedSeat<K>>
    requires book { first.old.book ≡ book.now }
    requires known { node < K.config.n }
    requires liar { is_in K.config.liars node ≡ true → actor ≡ 255 }
    requires fresh { ¬ Contains first.old.given (seat_number node actor) }
    requires left { 0 < length passes.old.items }
    requires passes { All (ArePassesOf boxes.now) passes.old.items }
    ensures first { first.new ≡ record first.old { given = first.old.given ++ seat_number node actor ∷ [] } }
    ensures passes { passes.old.items ≡ result.passes ∷ passes.new.items }
    ensures place { (result.node ≡ node) × (result.actor ≡ actor) }
    ensures seat { (result.seat.book ≡ book.now) × (result.seat.seat ≡ record (new_seat K.config node actor) { seen = first.old.seen }) }
{
    let _ = boxes;
    // this moves the passes that are left, of which there are 272 at most
    let passes = passes.remove(0);
    let seat = book.seat_for(first, node, actor);
    Opening {
        node,
        actor,
        seat,
        passes,
    }
}
