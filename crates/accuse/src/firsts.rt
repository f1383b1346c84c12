//! First posts by their places.
ghost use Rattle.std.specs.Prelude.{◌≡◌, [], OnOk};
ghost use Rattle.std.specs.Option.{option_or};
ghost use Rattle.hb_rules.specs.Slots.{when};
ghost use Rattle.accuse.specs.declared.place.Place.{Place};
ghost use Rattle.accuse.specs.Places.{first_at, same_place};

use crate::place::Place;
use std::alloc::{AllocError, Global};
use std::collections::BTreeMap;
use std::marker::Model;

// The number of the first post at each place. A look-up takes time logarithmic in the number of places. Clauses see the places
// with their numbers.
#[derive(Drop)]
pub(crate) struct Firsts {
    posts: BTreeMap<Place, u32>,
}

impl Model for Firsts {
    ghost use Rattle.std.specs.Prelude.{ℕ, List};
    ghost use Rattle.accuse.specs.declared.place.Place.{Place};

    ghost Value = { List (Place × ℕ) };

    ghost view = { λ f. f.posts.entries };
}

impl Firsts {
    // No post. It takes no memory.
    pub(crate) fn new(alloc: Global) -> Firsts
        ensures { result ≡ [] }
    {
        Firsts {
            posts: BTreeMap::new(alloc),
        }
    }

    // The first post at a place.
    pub(crate) fn first(&self, place: Place) -> Option<u32>
        ensures { result ≡ first_at self.now place }
    {
        self.posts.get(&place).copied()
    }

    // Takes in a later post at a place, which is its first if it has none.
    pub(crate) fn note(&mut self, place: Place, post: u32) -> Result<(), AllocError>
        ensures { OnOk result ((other : Place) → first_at self.new other
            ≡ option_or (first_at self.old other) (when (same_place place other) post)) }
    {
        match self.first(place) {
            Some(_) => Ok(()),
            None => {
                self.posts.insert(place, post)?;
                Ok(())
            }
        }
    }
}
