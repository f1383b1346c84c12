//! One agreement among four nodes of which node 3 lies, as a driver of one thread delivers the votes in some order.

ghost use Rattle.std.specs.Prelude.{◌≡◌, ◌<◌};
ghost use Rattle.std.specs.Arc.{arc_value};

use crate::node::{Agreement, Node};
use coin_deal::Deal;
use hb_base::{Config, NodeSet};
use hb_wire::{Vals, Vote};
use merkle_branch::{Branch, MAX_HEIGHT};
use std::alloc::{AllocError, Global};
use std::sync::Arc;
use std::test::Fail;

pub(crate) const CORRECT: u8 = 3;

pub(crate) const ROUNDS: u8 = 3;

pub(crate) const AGREEMENT: Agreement = Agreement { lane: 2, epoch: 1 };

pub(crate) const LIAR: u8 = 3;

// More envelopes than a run has, and more votes than a call makes due.
const MOST_STEPS: u32 = 4000;

const MOST_VOTES: u32 = 100;

// Which envelope comes next: the first, the last, or one that is drawn.
#[derive(Clone, Copy, Debug)]
pub(crate) enum Order {
    First,
    Last,
    Drawn(u64),
}

impl Order {
    // The place of the next of so many envelopes.
    fn next(&mut self, count: usize) -> usize
        requires { 0 < count }
        ensures { result < count }
    {
        match self {
            Order::First => 0,
            Order::Last => count - 1,
            Order::Drawn(state) => {
                let drawn = state
                    .wrapping_mul(6_364_136_223_846_793_005)
                    .wrapping_add(1_442_695_040_888_963_407);
                *state = drawn;
                (drawn >> 33) as usize % count
            }
        }
    }
}

// The coins of these numbers are 0, 1 and 1 in the three rounds of the agreement.
pub(crate) fn config_of(version: u8) -> Result<Config, Fail> {
    let mut liars = NodeSet::new();
    liars.add(LIAR);
    Ok(Config::new(4, 1, 2, ROUNDS, 1, 7, version, liars).ok_or("no config")?)
}

// A vote that goes to all nodes, and who has cast it.
#[derive(Drop)]
pub(crate) struct Said {
    pub(crate) from: u8,
    pub(crate) vote: Vote,
}

// A vote on its way to a correct node.
#[derive(Clone, Copy, Debug)]
struct Envelope {
    number: usize,
    to: u8,
}

// What a node has heard: the numbers of the votes, and after each call, the first of which is its input, how many votes it
// has cast.
#[derive(Drop)]
pub(crate) struct Record {
    pub(crate) heard: Vec<usize>,
    pub(crate) cast: Vec<usize>,
}

// The correct nodes, what was said, what is on its way, and in which rounds the liar has lied.
#[derive(Drop)]
pub(crate) struct World {
    config: Config,
    pub(crate) nodes: Vec<Node>,
    pub(crate) records: Vec<Record>,
    pub(crate) said: Vec<Said>,
    envelopes: Vec<Envelope>,
    supported: [bool; ROUNDS as usize],
    shown: [bool; ROUNDS as usize],
}

impl World {
    fn new(alloc: Global, config: Config, deal: &Arc<Deal, Global>) -> Result<World, Fail>
        requires { arc_value deal.now ≡ config }
    {
        let mut world = World {
            config,
            nodes: Vec::new(alloc),
            records: Vec::new(alloc),
            said: Vec::new(alloc),
            envelopes: Vec::new(alloc),
            supported: [false; ROUNDS as usize],
            shown: [false; ROUNDS as usize],
        };
        for number in 0..CORRECT {
            let node = Node::new(alloc, &config, deal, AGREEMENT, number, &[])?;
            world.nodes.push(node)?;
            world.records.push(Record {
                heard: Vec::new(alloc),
                cast: Vec::new(alloc),
            })?;
        }
        Ok(world)
    }

    // The inputs, of which a split has the bit of each node, and all envelopes in this order.
    fn go(&mut self, split: u8, mut order: Order) -> Result<(), Fail> {
        for number in 0..CORRECT {
            self.begin(number, input_of(split, number))?;
        }
        for _ in 0..MOST_STEPS {
            let count = self.envelopes.len();
            if count == 0 {
                return Ok(());
            }
            let envelope = self.envelopes.remove(order.next(count));
            self.deliver(envelope)?;
        }
        Err("no end".into())
    }

    fn begin(&mut self, number: u8, bit: bool) -> Result<(), AllocError> {
        if let Some(node) = self.nodes.get_mut(number as usize) {
            node.input(bit)?;
        }
        self.post(number)
    }

    fn deliver(&mut self, envelope: Envelope) -> Result<(), AllocError> {
        let to = envelope.to as usize;
        if let Some(said) = self.said.get(envelope.number) {
            if let Some(node) = self.nodes.get_mut(to) {
                node.hear(said.from, &said.vote)?;
            }
        }
        if let Some(record) = self.records.get_mut(to) {
            record.heard.push(envelope.number)?;
        }
        self.post(envelope.to)
    }

    // Posts what a node has cast by a call.
    fn post(&mut self, number: u8) -> Result<(), AllocError> {
        for _ in 0..MOST_VOTES {
            match self.next_of(number)? {
                Some(vote) => self.say(number, vote)?,
                None => break,
            }
        }
        self.mark(number)
    }

    fn next_of(&mut self, number: u8) -> Result<Option<Vote>, AllocError> {
        match self.nodes.get_mut(number as usize) {
            Some(node) => node.post(),
            None => Ok(None),
        }
    }

    // Marks in the record that a call is over.
    fn mark(&mut self, number: u8) -> Result<(), AllocError> {
        let count = match self.nodes.get(number as usize) {
            Some(node) => node.votes().len(),
            None => 0,
        };
        if let Some(record) = self.records.get_mut(number as usize) {
            record.cast.push(count)?;
        }
        Ok(())
    }

    // A correct node says a vote. On the first Bval of a round the liar says both bits of all that it can, in each kind of
    // vote, and shows a share of zeros; on the first share it shows the same as its own.
    fn say(&mut self, from: u8, vote: Vote) -> Result<(), AllocError> {
        match vote {
            Vote::Bval { round, .. } => {
                self.send(from, vote)?;
                self.lie(round)
            }
            Vote::Coin { round, .. } => {
                let copy = vote.clone()?;
                self.send(from, vote)?;
                if is_first(&mut self.shown, round) {
                    self.send(LIAR, copy)?;
                }
                Ok(())
            }
            Vote::Aux { .. } | Vote::Conf { .. } => self.send(from, vote),
            _ => Ok(()),
        }
    }

    fn lie(&mut self, round: u8) -> Result<(), AllocError> {
        if !is_first(&mut self.supported, round) {
            return Ok(());
        }
        let epoch = AGREEMENT.epoch;
        for bit in [false, true] {
            self.send(LIAR, Vote::Bval { epoch, round, bit })?;
        }
        for bit in [false, true] {
            self.send(LIAR, Vote::Aux { epoch, round, bit })?;
        }
        if self.config.version() == 2 {
            for vals in [Vals::Zero, Vals::One, Vals::Both] {
                self.send(LIAR, Vote::Conf { epoch, round, vals })?;
            }
        }
        self.send(LIAR, zero_share(round))
    }

    fn send(&mut self, from: u8, vote: Vote) -> Result<(), AllocError> {
        let number = self.said.len();
        self.said.push(Said { from, vote })?;
        for to in 0..CORRECT {
            self.envelopes.push(Envelope { number, to })?;
        }
        Ok(())
    }
}

// Whether a round is not marked yet, which then is.
fn is_first(marks: &mut [bool], round: u8) -> bool {
    match marks.get_mut(round as usize) {
        Some(mark) => {
            let is_first = !*mark;
            *mark = true;
            is_first
        }
        None => false,
    }
}

fn zero_share(round: u8) -> Vote {
    Vote::Coin {
        epoch: AGREEMENT.epoch,
        round,
        share: 0,
        salt: [0; 16],
        branch: Branch {
            len: 2,
            digests: [[0; 32]; MAX_HEIGHT],
        },
    }
}

// The input of a node, by a split.
pub(crate) fn input_of(split: u8, number: u8) -> bool {
    number < CORRECT && split / (1 << number) % 2 == 1
}

// A run with these inputs in this order, up to its end.
pub(crate) fn run(
    alloc: Global,
    config: &Config,
    deal: &Arc<Deal, Global>,
    split: u8,
    order: Order,
) -> Result<World, Fail>
    requires { arc_value deal.now ≡ config.now }
{
    let mut world = World::new(alloc, *config, deal)?;
    world.go(split, order)?;
    Ok(world)
}
