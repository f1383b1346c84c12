//! An actor behind a lock.

use crate::held::Held;
use crate::run_name::RunName;
use crate::served::Served;
use hb_base::Gate;
use hb_rules::Actor;
use post_book::NamedBook;
use std::alloc::Global;
use std::sync::{Mutex, Wait};

// How many turns at most an actor makes under its lock, but for the first time.
const TURNS: u32 = 32;

// What lies under the lock: an actor, and how many turns at most it makes the next time.
#[derive(Drop)]
struct Locked<'b, B: NamedBook + Drop, A: Actor<B>, J: RunName> {
    held: Held<'b, B, A, J>,
    turns: u32,
}

/// An actor among threads: a lock round a `Held`, whose type says what holds of it whenever the lock is free.
#[derive(Drop)]
pub struct Cell<'b, B: NamedBook + Drop, A: Actor<B>, J: RunName> {
    lock: Mutex<Locked<'b, B, A, J>>,
}

impl<'b, B: NamedBook + Drop, A: Actor<B>, J: RunName> Cell<'b, B, A, J> {
    /// Puts it behind a lock. It takes no memory.
    pub fn new(held: Held<'b, B, A, J>) -> Cell<'b, B, A, J> {
        Cell {
            lock: Mutex::new(Locked { held, turns: 1 }),
        }
    }

    /// Takes it out of the lock. It takes no memory.
    pub fn into_held(self) -> Held<'b, B, A, J> {
        let Cell { lock } = self;
        let Locked { held, turns: _ } = lock.into_inner();
        held
    }

    /// Some calls of `Held::turn` under the lock, as long as each takes a number, and the answer of the first: one the first
    /// time, so that each actor of a node begins before one goes on, and later up to 32. None where another thread has the lock:
    /// then nothing is done. No clause can name what lies under a lock. So nothing is promised, but that what lies there keeps
    /// what its type says.
    pub fn serve<R: Wait, G: Gate>(&self, rt: &R, alloc: Global, gate: &G) -> Option<Served> {
        let mut locked = self.lock.try_lock()?;
        let first = locked.held.turn(rt, alloc, gate);
        let mut last = first;
        for _ in 1..locked.turns {
            if last != Served::Did {
                break;
            }
            last = locked.held.turn(rt, alloc, gate);
        }
        locked.turns = TURNS;
        Some(first)
    }
}
