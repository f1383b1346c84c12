//! All that is at the nodes of a run is started, and put behind locks.
ghost use Rattle.std.specs.Prelude.{◌≡◌, ◌<◌, ◌≤◌, true, false, All, length, map, sum_by, IfOk};
ghost use Rattle.std.specs.Arc.{arc_value};
ghost use Rattle.hb_base.specs.NodeSet.{is_in};
ghost use Rattle.net_script.specs.Scenario.{told};
ghost use Rattle.net_script.specs.Sound.{IsScenario};
ghost use Rattle.step_driver.specs.Delivering.{IsPlayer};
ghost use Rattle.ledger_run.specs.Actors.{seat_at, new_seat, running_at};
ghost use Rattle.ledger_run.specs.Voices.{hears_at, without_voice};
ghost use Rattle.run_openings.specs.Opening.{IsActorOpening, IsLiarOpening, IsNodeOpening, places_of};
ghost use Rattle.node_workers.specs.Rounds.{locks_of};

use actor_cell::{Boxes, Cell, Held, Mail, RunName};
use coin_deal::Deal;
use ledger_run::{NodeActor, Voice, desk_of, lane_of, voice_at};
use liar_cell::{HeldLiar, LiarCell};
use net_script::Script;
use node_workers::Node;
use post_book::NamedBook;
use run_openings::{NodeOpening, Opening};
use std::alloc::{AllocError, Global};
use std::sync::{Arc, Wait};

/// Starts all that is at the nodes of a run, in their order, and puts it behind locks. The voices are those of the script's
/// liars, in their order. Err is want of memory for what the run stands on; an actor that finds none when it is started ends with
/// that fate.
pub fn begin_all<'b, B: NamedBook + Drop + Copy, J: RunName, R: Wait>(
    rt: &R,
    alloc: Global,
    script: &'b Script,
    deal: &Arc<Deal, Global>,
    voices: Vec<Voice>,
    book: B,
    boxes: &'b Boxes,
    openings: Vec<NodeOpening<B::Seat>>,
) -> Result<Vec<Node<'b, B, NodeActor<B>, Voice, J>>, AllocError>
    requires name { B.name book ≡ J.book }
    requires script { J.is_script script.now }
    requires scenario { IsScenario (told script.now) }
    requires deal { arc_value deal.now ≡ script.now.config }
    requires boxes { boxes.now.config ≡ script.now.config }
    requires openings { All (IsNodeOpening (B.knows book) (seat_at B.config B.node B.actor B.seen) boxes.now script.now.config) openings.items }
    ensures each { IfOk result (λ nodes. map locks_of nodes.items ≡ map places_of openings.items) }
    ensures count { IfOk result (λ nodes. sum_by locks_of nodes.items ≡ sum_by places_of openings.items) }
{
    let mut voices = voices;
    let mut nodes = Vec::new(alloc);
    for opening in openings {
        let node = begin_node(rt, alloc, script, deal, &mut voices, book, boxes, opening)?;
        nodes.push(node)?;
    }
    Ok(nodes)
}

// Starts what is at one node.
fn begin_node<'b, B: NamedBook + Drop + Copy, J: RunName, R: Wait>(
    rt: &R,
    alloc: Global,
    script: &'b Script,
    deal: &Arc<Deal, Global>,
    voices: &mut Vec<Voice>,
    book: B,
    boxes: &'b Boxes,
    opening: NodeOpening<B::Seat>,
) -> Result<Node<'b, B, NodeActor<B>, Voice, J>, AllocError>
    requires name { B.name book ≡ J.book }
    requires script { J.is_script script.now }
    requires scenario { IsScenario (told script.now) }
    requires deal { arc_value deal.now ≡ script.now.config }
    requires boxes { boxes.now.config ≡ script.now.config }
    requires opening { IsNodeOpening (B.knows book) (seat_at B.config B.node B.actor B.seen) boxes.now script.now.config opening }
    ensures count { IfOk result (λ node. locks_of node ≡ places_of opening) }
{
    match opening {
        NodeOpening::Correct(openings) => {
            let cells = begin_actors(rt, alloc, script, deal, book, boxes, openings)?;
            Ok(Node::Correct(cells))
        }
        NodeOpening::Lying(opening) => {
            let liar = begin_liar(rt, alloc, script, voices, book, boxes, opening);
            Ok(Node::Lying(liar))
        }
    }
}

// Starts the actors of a correct node.
fn begin_actors<'b, B: NamedBook + Drop + Copy, J: RunName, R: Wait>(
    rt: &R,
    alloc: Global,
    script: &'b Script,
    deal: &Arc<Deal, Global>,
    book: B,
    boxes: &'b Boxes,
    openings: Vec<Opening<B::Seat>>,
) -> Result<Vec<Cell<'b, B, NodeActor<B>, J>>, AllocError>
    requires name { B.name book ≡ J.book }
    requires script { J.is_script script.now }
    requires scenario { IsScenario (told script.now) }
    requires deal { arc_value deal.now ≡ script.now.config }
    requires boxes { boxes.now.config ≡ script.now.config }
    requires openings { All (IsActorOpening (B.knows book) (seat_at B.config B.node B.actor B.seen) boxes.now script.now.config) openings.items }
    ensures count { IfOk result (λ cells. length cells.items ≡ length openings.items) }
{
    let mut cells = Vec::new(alloc);
    for opening in openings {
        let cell = begin_actor(rt, alloc, script, deal, book, boxes, opening)?;
        cells.push(cell)?;
    }
    Ok(cells)
}

// Starts an actor.
fn begin_actor<'b, B: NamedBook + Drop, J: RunName, R: Wait>(
    rt: &R,
    alloc: Global,
    script: &'b Script,
    deal: &Arc<Deal, Global>,
    book: B,
    boxes: &'b Boxes,
    opening: Opening<B::Seat>,
) -> Result<Cell<'b, B, NodeActor<B>, J>, AllocError>
    requires name { B.name book ≡ J.book }
    requires script { J.is_script script.now }
    requires scenario { IsScenario (told script.now) }
    requires deal { arc_value deal.now ≡ script.now.config }
    requires boxes { boxes.now.config ≡ script.now.config }
    requires opening { IsActorOpening (B.knows book) (seat_at B.config B.node B.actor B.seen) boxes.now script.now.config opening }
{
    let Opening {
        node,
        actor,
        seat,
        passes,
    } = opening;
    let made = actor_of::<B>(alloc, script, deal, node, actor, seat)?;
    let mail = Mail::new(boxes, passes);
    Ok(Cell::new(Held::begin(rt, alloc, made, script, book, mail)))
}

// An actor of a correct node that was never started: a lane, or the desk.
fn actor_of<B: NamedBook>(
    alloc: Global,
    script: &Script,
    deal: &Arc<Deal, Global>,
    node: u8,
    actor: u8,
    seat: B::Seat,
) -> Result<NodeActor<B>, AllocError>
    requires known { (node < script.now.config.n) × (actor ≤ script.now.config.n) }
    requires honest { is_in script.now.config.liars node ≡ false }
    requires deal { arc_value deal.now ≡ script.now.config }
    requires seat { seat_at B.config B.node B.actor B.seen seat ≡ new_seat script.now.config node actor }
    requires scenario { IsScenario (told script.now) }
    ensures seat { IfOk result (λ a. a.seat ≡ seat) }
    ensures player { IfOk result (λ a. IsPlayer script.now.config script.now false (running_at B.config B.node B.actor B.seen a)) }
{
    if actor < script.config.n() {
        lane_of::<B>(alloc, script, deal, node, actor, seat)
    } else {
        desk_of::<B>(alloc, script, node, seat)
    }
}

// Starts a node that lies, and puts it behind a lock.
fn begin_liar<'b, B: NamedBook + Drop, J: RunName, R: Wait>(
    rt: &R,
    alloc: Global,
    script: &'b Script,
    voices: &mut Vec<Voice>,
    book: B,
    boxes: &'b Boxes,
    opening: Opening<B::Seat>,
) -> LiarCell<'b, B, Voice, J>
    requires name { B.name book ≡ J.book }
    requires script { J.is_script script.now }
    requires boxes { boxes.now.config ≡ script.now.config }
    requires opening { IsLiarOpening (B.knows book) (seat_at B.config B.node B.actor B.seen) boxes.now script.now.config opening }
{
    LiarCell::new(liar_of(rt, alloc, script, voices, book, boxes, opening))
}

// A node that lies, which was started. It is to hear as many posts as the script's liar at this node, whose voice it has.
fn liar_of<'b, B: NamedBook + Drop, J: RunName, R: Wait>(
    rt: &R,
    alloc: Global,
    script: &'b Script,
    voices: &mut Vec<Voice>,
    book: B,
    boxes: &'b Boxes,
    opening: Opening<B::Seat>,
) -> HeldLiar<'b, B, Voice, J>
    requires name { B.name book ≡ J.book }
    requires script { J.is_script script.now }
    requires boxes { boxes.now.config ≡ script.now.config }
    requires opening { IsLiarOpening (B.knows book) (seat_at B.config B.node B.actor B.seen) boxes.now script.now.config opening }
    ensures hears { result.hears ≡ hears_at opening.node script.now.liars.items }
    ensures voices { map (λ voice. voice.liar) voices.new.items ≡ without_voice opening.node script.now.liars.items (map (λ voice. voice.liar) voices.old.items) }
{
    let Opening {
        node,
        actor: _,
        seat,
        passes,
    } = opening;
    let (hears, voice) = voice_at(script, voices, node);
    let mail = Mail::new(boxes, passes);
    HeldLiar::begin(rt, alloc, node, seat, hears, voice, script, book, mail)
}
