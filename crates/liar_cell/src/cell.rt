//! A node that lies, behind a lock.

use crate::held::HeldLiar;
use actor_cell::{RunName, Served};
use hb_base::Gate;
use post_book::NamedBook;
use std::alloc::Global;
use std::sync::{Mutex, Wait};
use step_driver::Mouth;

/// A node that lies among threads: a lock round a `HeldLiar`, whose type says what holds of it whenever the lock is free.
#[derive(Drop)]
pub struct LiarCell<'b, B: NamedBook + Drop, L: Mouth, J: RunName> {
    lock: Mutex<HeldLiar<'b, B, L, J>>,
}

impl<'b, B: NamedBook + Drop, L: Mouth, J: RunName> LiarCell<'b, B, L, J> {
    /// Puts it behind a lock. It takes no memory.
    pub fn new(held: HeldLiar<'b, B, L, J>) -> LiarCell<'b, B, L, J> {
        LiarCell {
            lock: Mutex::new(held),
        }
    }

    /// Takes it out of the lock. It takes no memory.
    pub fn into_liar(self) -> HeldLiar<'b, B, L, J> {
        let LiarCell { lock } = self;
        lock.into_inner()
    }

    /// One `HeldLiar::turn` under the lock, and its answer. None where another thread has the lock: then nothing is done. No
    /// clause can name what lies under a lock. So nothing is promised, but that what lies there keeps what its type says.
    pub fn serve<R: Wait, G: Gate>(&self, rt: &R, alloc: Global, gate: &G) -> Option<Served> {
        Some(self.lock.try_lock()?.turn(rt, alloc, gate))
    }
}
