//! To which places the address of a post leads.

ghost use Rattle.std.specs.Prelude.{◌≡◌, ◌+◌, ◌==◌, ◌≤◌, [], ◌∷◌, ◌++◌, length, nat_lt, slice_index_or, IfOk, OnOk};
ghost use Rattle.step_driver.specs.Places.{spots, spot_of, names, name_of};
ghost use Rattle.step_driver.specs.Directory.{no_places, IsDirectory, IsEntered, IsGrown, AreAsBefore, led_to};

use crate::hired::Mouth;
use crate::place::Place;
use hb_base::Config;
use hb_rules::{Actor, PlainBook};
use hb_wire::{Post, To};
use std::alloc::{AllocError, Global};
use std::marker::Model;

// Some places, by their indices, rising.
#[derive(Drop)]
pub(crate) struct Group {
    places: Vec<usize>,
}

impl Model for Group {
    ghost use Rattle.std.specs.Prelude.{ℕ, List};

    ghost Value = { List ℕ };

    ghost view = { λ group. group.places.items };
}

impl Group {
    // No place. It takes no memory.
    fn new(alloc: Global) -> Group
        ensures { result ≡ [] }
    {
        Group {
            places: Vec::new(alloc),
        }
    }

    // Adds one behind the others.
    fn push(&mut self, place: usize) -> Result<(), AllocError>
        ensures { OnOk result (self.new ≡ self.old ++ place ∷ []) }
    {
        self.places.push(place)?;
        Ok(())
    }

    fn places(&self) -> &[usize]
        ensures { result.now ≡ self.now }
    {
        self.places.as_slice()
    }
}

// The places of a run in groups: those of each node, and those where each number of an actor is, which are one of each node. It
// is made once, before the run.
#[derive(Drop)]
pub(crate) struct Directory {
    of_node: Vec<Group>,
    of_actor: Vec<Group>,
}

impl Model for Directory {
    ghost use Rattle.step_driver.specs.Directory.{Groups};

    ghost Value = { Groups };

    ghost view = { λ directory. record { of_node = directory.of_node.items; of_actor = directory.of_actor.items } };
}

impl Directory {
    // The directory of these places.
    pub(crate) fn of<A: Actor<PlainBook>, L: Mouth>(
        alloc: Global,
        config: &Config,
        places: &[Place<A, L>],
    ) -> Result<Directory, AllocError>
        ensures { IfOk result (λ directory. IsDirectory config.now.n directory (names (spots A.seat A.view places.now))) }
    {
        let mut directory = Directory {
            of_node: Vec::new(alloc),
            of_actor: Vec::new(alloc),
        };
        for number in 0..places.len() {
            let place = &places[number];
            directory.enter(config, place, number)?;
        }
        Ok(directory)
    }

    // Enters one place more.
    fn enter<A: Actor<PlainBook>, L: Mouth>(
        &mut self,
        config: &Config,
        place: &Place<A, L>,
        number: usize,
    ) -> Result<(), AllocError>
        ensures { OnOk result (IsEntered config.now.n (name_of (spot_of A.seat A.view place.now)) number self.old self.new) }
    {
        match place {
            Place::Correct(player) => {
                add_to(&mut self.of_node, player.node(), number)?;
                add_to(&mut self.of_actor, player.actor(), number)
            }
            Place::Lying(hired) => {
                add_to(&mut self.of_node, hired.node(), number)?;
                add_to_each(&mut self.of_actor, config.n() + 1, number)
            }
        }
    }

    // The places to which the address of a post leads, rising: those of its node or of the one that it names, or those where its
    // actor's number is.
    pub(crate) fn led_to(&self, post: &Post) -> &[usize]
        ensures { result.now ≡ led_to self.now post.now }
    {
        match post.to {
            To::Book => &[],
            To::Home => group_of(self.of_node.as_slice(), post.from),
            To::All => group_of(self.of_actor.as_slice(), post.actor),
            To::Node(target) => group_of(self.of_node.as_slice(), target),
        }
    }
}

// The places of one group.
fn group_of(groups: &[Group], number: u8) -> &[usize]
    ensures { result.now ≡ slice_index_or groups.now number no_places }
{
    match groups.get(number as usize) {
        None => &[],
        Some(group) => group.places(),
    }
}

// Makes groups until there are so many.
fn widen(groups: &mut Vec<Group>, count: usize) -> Result<(), AllocError>
    ensures same { OnOk result (AreAsBefore groups.old.items groups.new.items) }
    ensures long { OnOk result (count ≤ length groups.new.items) }
{
    for _number in groups.len()..count {
        let group = Group::new(*groups.allocator());
        groups.push(group)?;
    }
    Ok(())
}

// Adds a place to one group.
fn add_to(groups: &mut Vec<Group>, number: u8, place: usize) -> Result<(), AllocError>
    ensures { OnOk result (IsGrown (λ i. number == i) place groups.old.items groups.new.items) }
{
    widen(groups, number as usize + 1)?;
    let group = &mut groups[number as usize];
    group.push(place)
}

// Adds a place to the first groups.
fn add_to_each(groups: &mut Vec<Group>, count: u8, place: usize) -> Result<(), AllocError>
    ensures { OnOk result (IsGrown (λ i. nat_lt i count) place groups.old.items groups.new.items) }
{
    for number in 0..count {
        add_to(groups, number, place)?;
    }
    Ok(())
}
