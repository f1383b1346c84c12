//! A gate that counts.

use hb_base::Gate;
use std::sync::atomic::{AtomicU64, Ordering};

/// A gate that lets everybody through, and counts who entered.
#[derive(Drop)]
pub struct CountingGate {
    entered: AtomicU64,
}

impl CountingGate {
    /// Nobody has entered.
    pub fn new() -> CountingGate {
        CountingGate {
            entered: AtomicU64::new(0),
        }
    }

    /// How often somebody has entered.
    pub fn entered(&self) -> u64 {
        self.entered.load(Ordering::SeqCst)
    }
}

impl Gate for CountingGate {
    fn enter(&self, _node: u8, _actor: u8) {
        self.entered.fetch_add(1, Ordering::SeqCst);
    }
}
