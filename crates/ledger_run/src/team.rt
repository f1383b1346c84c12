//! The places of a run: each actor of each correct node, and each node that lies.
ghost use Rattle.std.specs.Prelude.{◌≡◌, ℕ, ◌+◌, ◌<◌, ◌≤◌, true, false, [], ◌∷◌, ◌++◌, length, map, set, slice_index_or, IfOk, IfSome, IfNone, OnOk};
ghost use Rattle.std.specs.Arc.{arc_value};
ghost use Rattle.std.specs.List.{range_with_len};
ghost use Rattle.hb_base.specs.Limits.{most_stops};
ghost use Rattle.hb_base.specs.NodeSet.{is_in};
ghost use Rattle.net_script.specs.Scenario.{told};
ghost use Rattle.net_script.specs.Sound.{IsScenario};
ghost use Rattle.net_script.specs.declared.script.Script.{Script};
ghost use Rattle.step_driver.specs.Places.{spot_of, spots, name_of};
ghost use Rattle.ledger_run.specs.Actors.{node_seat, node_view};
ghost use Rattle.ledger_run.specs.Voices.{hears_at, voice_at, without_voice, StandsAt, NoneAt, IsHiredWith};
ghost use Rattle.ledger_run.specs.Team.{IsReady, AreReady, correct_name, lying_name, names_at, names_below};

use crate::actors::{NodeActor, desk_of, lane_of};
use crate::voice::Voice;
use coin_deal::{Deal, deal};
use hb_rules::{Fate, PlainBook};
use net_script::{LiarAt, Script};
use std::alloc::{AllocError, Global};
use std::sync::Arc;
use step_driver::{Hired, Place, Player};

// A place of a run.
pub(crate) type RunPlace = Place<NodeActor<PlainBook>, Voice>;

// The places of all nodes, by node; at a correct node those of its lanes and then that of its desk. The voices are those of
// the script's liars, in their order.
pub(crate) fn places_of(
    alloc: Global,
    script: &Script,
    voices: Vec<Voice>,
    book: &mut PlainBook,
) -> Result<Vec<RunPlace>, AllocError>
    requires book { book.old ≡ record { config = script.now.config; posts = [] } }
    requires scenario { IsScenario (told script.now) }
    ensures book { book.new ≡ book.old }
    ensures ready { IfOk result (λ places. AreReady script.now (names_below script.now.config script.now.config.n) (spots node_seat node_view places.items)) }
{
    let deal = Arc::new(alloc, deal(alloc, &script.config)?)?;
    let mut voices = voices;
    let mut places = Vec::new(alloc);
    for node in 0..script.config.n() {
        add_node(alloc, script, &deal, &mut voices, book, &mut places, node)?;
    }
    Ok(places)
}

// Adds the places of a node.
fn add_node(
    alloc: Global,
    script: &Script,
    deal: &Arc<Deal, Global>,
    voices: &mut Vec<Voice>,
    book: &mut PlainBook,
    places: &mut Vec<RunPlace>,
    node: u8,
) -> Result<(), AllocError>
    requires known { node < script.now.config.n }
    requires deal { arc_value deal.now ≡ script.now.config }
    requires book { book.old ≡ record { config = script.now.config; posts = [] } }
    requires scenario { IsScenario (told script.now) }
    requires ready { AreReady script.now (names_below script.now.config node) (spots node_seat node_view places.old.items) }
    ensures book { book.new ≡ book.old }
    ensures ready { OnOk result (AreReady script.now (names_below script.now.config (node + 1)) (spots node_seat node_view places.new.items)) }
{
    if script.config.liars().has(node) {
        let place = lying_place(alloc, script, voices, book, node);
        places.push(place)?;
        return Ok(());
    }
    add_lanes(alloc, script, deal, book, places, node)?;
    let place = desk_place(alloc, script, book, node)?;
    places.push(place)?;
    Ok(())
}

// Adds the places of the lanes of a correct node.
fn add_lanes(
    alloc: Global,
    script: &Script,
    deal: &Arc<Deal, Global>,
    book: &mut PlainBook,
    places: &mut Vec<RunPlace>,
    node: u8,
) -> Result<(), AllocError>
    requires known { node < script.now.config.n }
    requires honest { is_in script.now.config.liars node ≡ false }
    requires deal { arc_value deal.now ≡ script.now.config }
    requires book { book.old ≡ record { config = script.now.config; posts = [] } }
    requires scenario { IsScenario (told script.now) }
    requires ready { AreReady script.now (names_below script.now.config node) (spots node_seat node_view places.old.items) }
    ensures book { book.new ≡ book.old }
    ensures ready { OnOk result (AreReady script.now
        (names_below script.now.config node ++ map (correct_name node) (range_with_len 0 script.now.config.n))
        (spots node_seat node_view places.new.items)) }
{
    for lane in 0..script.config.n() {
        let place = lane_place(alloc, script, deal, book, node, lane)?;
        places.push(place)?;
    }
    Ok(())
}

// The place of a lane of a correct node.
fn lane_place(
    alloc: Global,
    script: &Script,
    deal: &Arc<Deal, Global>,
    book: &mut PlainBook,
    node: u8,
    lane: u8,
) -> Result<RunPlace, AllocError>
    requires known { node < script.now.config.n }
    requires lane { lane < script.now.config.n }
    requires honest { is_in script.now.config.liars node ≡ false }
    requires deal { arc_value deal.now ≡ script.now.config }
    requires book { book.old ≡ record { config = script.now.config; posts = [] } }
    requires scenario { IsScenario (told script.now) }
    ensures book { book.new ≡ book.old }
    ensures ready { IfOk result (λ place. IsReady script.now (spot_of node_seat node_view place)) }
    ensures named { IfOk result (λ place. name_of (spot_of node_seat node_view place) ≡ correct_name node lane) }
{
    let seat = book.seat(node, lane);
    let actor = lane_of::<PlainBook>(alloc, script, deal, node, lane, seat)?;
    Ok(Place::Correct(Player {
        actor,
        fate: Fate::Running,
    }))
}

// The place of the desk of a correct node.
fn desk_place(
    alloc: Global,
    script: &Script,
    book: &mut PlainBook,
    node: u8,
) -> Result<RunPlace, AllocError>
    requires known { node < script.now.config.n }
    requires honest { is_in script.now.config.liars node ≡ false }
    requires book { book.old ≡ record { config = script.now.config; posts = [] } }
    requires scenario { IsScenario (told script.now) }
    ensures book { book.new ≡ book.old }
    ensures ready { IfOk result (λ place. IsReady script.now (spot_of node_seat node_view place)) }
    ensures named { IfOk result (λ place. name_of (spot_of node_seat node_view place) ≡ correct_name node script.now.config.n) }
{
    let actor = script.config.n();
    let seat = book.seat(node, actor);
    let actor = desk_of::<PlainBook>(alloc, script, node, seat)?;
    Ok(Place::Correct(Player {
        actor,
        fate: Fate::Running,
    }))
}

// The place of a node that lies. Its voice is that of the script's liar at this node.
fn lying_place(
    alloc: Global,
    script: &Script,
    voices: &mut Vec<Voice>,
    book: &mut PlainBook,
    node: u8,
) -> RunPlace
    requires known { node < script.now.config.n }
    requires liar { is_in script.now.config.liars node ≡ true }
    requires book { book.old ≡ record { config = script.now.config; posts = [] } }
    ensures book { book.new ≡ book.old }
    ensures ready { IsReady script.now (spot_of node_seat node_view result) }
    ensures named { name_of (spot_of node_seat node_view result) ≡ lying_name node }
    ensures voice { IsHiredWith (λ voice. voice.liar) result (hears_at node script.now.liars.items) (voice_at node script.now.liars.items (map (λ voice. voice.liar) voices.old.items)) }
{
    let seat = book.seat(node, 255);
    let (hears, voice) = voice_at(script, voices, node);
    Place::Lying(Hired::new(alloc, seat, hears, voice))
}

/// How many posts the liar at a node hears, and its voice, which is taken out. The voices are those of the script's liars, in
/// their order. Where the script has no liar at this node these are 0 and a voice that says nothing.
pub fn voice_at(script: &Script, voices: &mut Vec<Voice>, node: u8) -> (u32, Voice)
    ensures hears { result.0 ≡ hears_at node script.now.liars.items }
    ensures voice { result.1.liar ≡ voice_at node script.now.liars.items (map (λ voice. voice.liar) voices.old.items) }
    ensures left { map (λ voice. voice.liar) voices.new.items ≡ without_voice node script.now.liars.items (map (λ voice. voice.liar) voices.old.items) }
{
    match place_of(script.liars.as_slice(), node) {
        None => (0, Voice::silent()),
        Some(place) => (script.liars[place].hears, take_voice(voices, place)),
    }
}

// Takes out the voice at a place. It is silent where no voice is there.
fn take_voice(voices: &mut Vec<Voice>, place: usize) -> Voice
    ensures voice { result.liar ≡ slice_index_or (map (λ voice. voice.liar) voices.old.items) place None }
    ensures left { map (λ voice. voice.liar) voices.new.items ≡ set (map (λ voice. voice.liar) voices.old.items) place None }
{
    if place >= voices.len() {
        return Voice::silent();
    }
    let voice = &mut voices[place];
    voice.taken()
}

// The place of the liar at a node.
fn place_of(liars: &[LiarAt], node: u8) -> Option<usize>
    ensures found { IfSome result (λ place. StandsAt node liars.now place) }
    ensures none { IfNone result (NoneAt node liars.now (length liars.now)) }
{
    for place in 0..liars.len() {
        if liars[place].node == node {
            return Some(place);
        }
    }
    None
}
