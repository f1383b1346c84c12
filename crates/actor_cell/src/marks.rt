//! Sets of actors.
ghost use Rattle.std.specs.Prelude.{◌≡◌, ℕ, ◌<◌, ◌==◌, ◌&&◌, ◌||◌, false};
ghost use Rattle.hb_base.specs.Limits.{most_nodes};
ghost use Rattle.actor_cell.specs.Marks.{is_marked, most_actors};

use hb_base::NodeSet;
use hb_base::limits::MOST_NODES;
use std::marker::Model;

// Actors of a node: a lane for each node of a run, and the desk.
const MOST_ACTORS: usize = MOST_NODES as usize + 1;

/// A set of actors, each by its node, below 16, and its number, at most 16. Clauses see for each number the set of nodes whose
/// actor of this number is in it.
#[derive(Clone, Copy, Debug, PartialEq, Eq)]
pub struct Marks {
    nodes: [NodeSet; MOST_ACTORS],
}

impl Model for Marks {
    ghost use Rattle.std.specs.Prelude.{List, Bool};

    ghost Value = { List (List Bool) };

    ghost view = { λ m. m.nodes };

    ghost inverse = { λ nodes. record { nodes = nodes } };
}

impl Marks {
    /// The set with no actor.
    pub fn new() -> Marks
        ensures { (i x : ℕ) → is_marked result i x ≡ false }
    {
        Marks {
            nodes: [NodeSet::new(); MOST_ACTORS],
        }
    }

    /// Adds an actor, which may be in the set already.
    pub fn note(&mut self, node: u8, actor: u8)
        requires { (node < most_nodes) × (actor < most_actors) }
        ensures { (i x : ℕ) → is_marked self.new i x ≡ (((i == node) && (x == actor)) || is_marked self.old i x) }
    {
        self.nodes[actor as usize].add(node);
    }

    /// Adds all actors of another set.
    pub fn add_all(&mut self, other: &Marks)
        ensures { (i x : ℕ) → i < most_nodes → x < most_actors → is_marked self.new i x ≡ (is_marked other.now i x || is_marked self.old i x) }
    {
        for actor in 0..MOST_ACTORS as u8 {
            self.add_numbered(other, actor);
        }
    }

    // Adds the actors of another set that have this number.
    fn add_numbered(&mut self, other: &Marks, actor: u8)
        requires { actor < most_actors }
        ensures { (i x : ℕ) → i < most_nodes → is_marked self.new i x ≡ (((x == actor) && is_marked other.now i x) || is_marked self.old i x) }
    {
        for node in 0..MOST_NODES {
            if other.has(node, actor) {
                self.note(node, actor);
            }
        }
    }

    /// Whether an actor is in the set. None of a node from 16 on is, and none with a number from 17 on.
    pub fn has(&self, node: u8, actor: u8) -> bool
        ensures { result ≡ is_marked self.now node actor }
    {
        match self.nodes.get(actor as usize) {
            None => false,
            Some(set) => set.has(node),
        }
    }
}
