//! A gate that counts who enters.

use hb_base::Gate;
use std::sync::atomic::{AtomicU64, Ordering};

/// A gate that lets everybody through, and counts the entries of one actor apart from those of all others.
#[derive(Drop)]
pub struct CountingGate {
    node: u8,
    actor: u8,
    by_actor: AtomicU64,
    by_others: AtomicU64,
}

impl CountingGate {
    /// Nobody has entered. The entries of this actor of this node are counted apart.
    pub fn new(node: u8, actor: u8) -> CountingGate {
        CountingGate {
            node,
            actor,
            by_actor: AtomicU64::new(0),
            by_others: AtomicU64::new(0),
        }
    }

    /// How often that actor has entered.
    pub fn of_actor(&self) -> u64 {
        self.by_actor.load(Ordering::SeqCst)
    }

    /// How often all others have.
    pub fn of_others(&self) -> u64 {
        self.by_others.load(Ordering::SeqCst)
    }
}

impl Gate for CountingGate {
    fn enter(&self, node: u8, actor: u8) {
        if node == self.node && actor == self.actor {
            self.by_actor.fetch_add(1, Ordering::SeqCst);
        } else {
            self.by_others.fetch_add(1, Ordering::SeqCst);
        }
    }
}
