//! The votes that an actor has to cast.
ghost use Rattle.std.specs.Prelude.{◌≡◌, ◌+◌, ◌-◌, ◌^◌, ◌≤◌, min, [], ◌∷◌, ◌++◌, length, OnOk, OnErr, IsOk};
ghost use Rattle.hb_rules.specs.Room.{KeepsRoom};

use hb_wire::Vote;
use std::alloc::{AllocError, Global};
use std::marker::Model;

/// The votes that an actor has to cast, in order, and room for more. Clauses see a `DueView`.
#[derive(Debug, Drop)]
pub struct Due {
    votes: Vec<Vote>,
}

impl Model for Due {
    ghost use Rattle.std.specs.Prelude.{vec_capacity, vec_len, ◌-◌};
    ghost use Rattle.hb_rules.specs.Room.{DueView};

    ghost Value = { DueView };

    ghost view = { λ d. record { votes = d.votes.items; spare = vec_capacity d.votes - vec_len d.votes } };
}

impl Due {
    /// No vote. It takes no memory.
    pub fn new(alloc: Global) -> Due
        ensures { result.votes ≡ [] }
    {
        Due {
            votes: Vec::new(alloc),
        }
    }

    /// Makes room for so many votes more. It changes no vote.
    pub fn reserve(&mut self, more: u32) -> Result<(), AllocError>
        ensures votes { self.new.votes ≡ self.old.votes }
        ensures room { OnOk result (more ≤ self.new.spare) }
        ensures no_less { self.old.spare ≤ self.new.spare }
        ensures enough { more ≤ self.old.spare → IsOk result }
        ensures keeps_room { KeepsRoom self.old self.new }
    {
        self.votes.reserve(more as usize)
    }

    /// Adds a vote behind the others. With room it succeeds and takes no memory. Want of memory changes no vote.
    pub fn push(&mut self, vote: Vote) -> Result<(), AllocError>
        ensures ok { OnOk result (self.new.votes ≡ self.old.votes ++ vote ∷ []) }
        ensures err { OnErr result (self.new.votes ≡ self.old.votes) }
        ensures enough { 1 ≤ self.old.spare → IsOk result }
        ensures room { self.old.spare ≤ self.new.spare + 1 }
        ensures keeps_room { KeepsRoom self.old self.new }
    {
        self.votes.push(vote)?;
        Ok(())
    }

    /// Adds a vote behind the others, for which there is room.
    pub fn push_reserved(&mut self, vote: Vote)
        requires { 1 ≤ self.old.spare }
        ensures votes { self.new.votes ≡ self.old.votes ++ vote ∷ [] }
        ensures room { self.new.spare + 1 ≡ self.old.spare }
        ensures keeps_room { KeepsRoom self.old self.new }
    {
        self.votes.push_reserved(vote);
    }

    /// For how many votes there is room, up to the greatest u32.
    pub fn spare(&self) -> u32
        ensures { result ≡ min self.now.spare (2 ^ 32 - 1) }
    {
        let spare = self.votes.capacity() - self.votes.len();
        spare.min(u32::MAX as usize) as u32
    }

    /// The votes, lent.
    pub fn votes(&self) -> &[Vote]
        ensures { result.now ≡ self.now.votes }
    {
        self.votes.as_slice()
    }

    /// Forgets all votes, and keeps their room: what they took is room for others.
    pub fn clear(&mut self)
        ensures votes { self.new.votes ≡ [] }
        ensures room { self.new.spare ≡ self.old.spare + length self.old.votes }
        ensures keeps_room { KeepsRoom self.old self.new }
    {
        self.votes.clear();
    }
}
