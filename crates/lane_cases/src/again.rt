//! Nodes that are rebuilt from what they had cast after each of their calls. They owe nothing where nothing is heard, and cast
//! the same votes once all is heard again.

ghost use Rattle.std.specs.Prelude.{◌≡◌};
ghost use Rattle.std.specs.Arc.{arc_value};

use crate::node::Node;
use crate::text::text_of;
use crate::world::{AGREEMENT, CORRECT, LIAR, Order, Said, World, config_of, input_of, run};
use coin_deal::{Deal, deal};
use hb_base::Config;
use hb_wire::{Vals, Vote};
use std::alloc::{AllocError, Global};
use std::sync::Arc;
use std::test::Fail;

// So many fronts of votes that stood after a call, the nodes' inputs first, are in the run of each split in an order that is
// drawn.
const FRONTS: [(u8, [u32; 8]); 2] = [
    (1, [24, 33, 27, 30, 26, 31, 33, 26]),
    (2, [35, 35, 35, 37, 37, 36, 37, 30]),
];

// What a node was told, and what it had cast: its input, the votes that it heard, by their numbers among all that was said, its
// own votes, and how many they were after each call.
#[derive(Clone, Copy)]
struct Past<'a> {
    number: u8,
    input: bool,
    said: &'a [Said],
    heard: &'a [usize],
    votes: &'a [Vote],
    cast: &'a [usize],
}

fn past_of(world: &World, split: u8, number: u8) -> Option<Past<'_>> {
    let node = world.nodes.get(number as usize)?;
    let record = world.records.get(number as usize)?;
    Some(Past {
        number,
        input: input_of(split, number),
        said: &world.said,
        heard: &record.heard,
        votes: node.votes(),
        cast: &record.cast,
    })
}

// Whether a node owes nothing by what it has cast. That one node is left with both bits makes nothing due, but has all rows
// gone through.
fn is_at_rest(node: &mut Node) -> Result<bool, Fail> {
    node.hear(
        LIAR,
        &Vote::Conf {
            epoch: AGREEMENT.epoch,
            round: 0,
            vals: Vals::Both,
        },
    )?;
    Ok(node.votes().is_empty())
}

// Tells a node all again.
fn tell(node: &mut Node, past: Past<'_>) -> Result<(), Fail> {
    node.input(past.input)?;
    for &k in past.heard {
        if let Some(said) = past.said.get(k) {
            node.hear(said.from, &said.vote)?;
        }
    }
    Ok(())
}

// Whether these votes read like those.
fn are_alike(alloc: Global, votes: &[Vote], wanted: &[Vote]) -> Result<bool, AllocError> {
    let text = text_of(alloc, votes)?;
    Ok(text.as_slice() == text_of(alloc, wanted)?.as_slice())
}

// Whether a node that is rebuilt from this front of its votes is at rest, and then comes to the rest of them.
fn comes_back(
    alloc: Global,
    config: &Config,
    deal: &Arc<Deal, Global>,
    past: Past<'_>,
    count: usize,
) -> Result<bool, Fail>
    requires { arc_value deal.now ≡ config.now }
{
    let own = past.votes.get(..count).ok_or("no such front")?;
    let rest = past.votes.get(count..).ok_or("no such rest")?;
    let mut node = Node::new(alloc, config, deal, AGREEMENT, past.number, own)?;
    let is_at_rest = is_at_rest(&mut node)?;
    tell(&mut node, past)?;
    Ok(is_at_rest && are_alike(alloc, node.votes(), rest)?)
}

// How many fronts a node has had, if it comes back from each.
fn fronts_of(
    alloc: Global,
    config: &Config,
    deal: &Arc<Deal, Global>,
    past: Past<'_>,
) -> Result<Option<u32>, Fail>
    requires { arc_value deal.now ≡ config.now }
{
    let mut fronts: u32 = 0;
    let mut last = 0;
    for &count in past.cast {
        if count != last {
            if !comes_back(alloc, config, deal, past, count)? {
                return Ok(None);
            }
            fronts = fronts.saturating_add(1);
            last = count;
        }
    }
    Ok(Some(fronts))
}

// How many fronts the nodes have had in a run, if each comes back from each of its own.
fn fronts_in(
    alloc: Global,
    config: &Config,
    deal: &Arc<Deal, Global>,
    split: u8,
    order: Order,
) -> Result<u32, Fail>
    requires { arc_value deal.now ≡ config.now }
{
    let world = run(alloc, config, deal, split, order)?;
    let mut fronts: u32 = 0;
    for number in 0..CORRECT {
        let past = past_of(&world, split, number).ok_or("no such node")?;
        let more = fronts_of(alloc, config, deal, past)?.ok_or("it does not come back")?;
        fronts = fronts.saturating_add(more);
    }
    Ok(fronts)
}

#[test]
fn rebuilt_nodes_come_back(rt: HostRuntime) -> Result<(), Fail> {
    let alloc = rt.alloc();
    for &(version, wants) in &FRONTS {
        let config = config_of(version)?;
        let deal = Arc::new(alloc, deal(alloc, &config)?)?;
        for split in 0..8 {
            let order = Order::Drawn(split as u64);
            let fronts = fronts_in(alloc, &config, &deal, split, order)?;
            let want = wants[split as usize];
            assert!(rt; fronts == want, "version {version}, split {split}");
        }
    }
    Ok(())
}
