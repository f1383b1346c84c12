//! The transactions of a ledger so far, each once.

ghost use Rattle.std.specs.Prelude.{◌≡◌, ℕ, [], ◌∷◌, ◌++◌, ◌<◌, ◌≤◌, ◌↔◌, IsTrue, IfOk, length, slice_index_or};
ghost use Rattle.tx_pool.specs.Pool.{is_among};
ghost use Rattle.ledger_text.specs.Chains.{chains, chain_of};
ghost use Rattle.ledger_text.specs.Seen.{txs_of, IsSeen, IsAdded};

use std::alloc::{AllocError, Global};

// How many chains there are: a prime.
const CHAINS: usize = 8_191;

// How many transactions fit: those of 32 epochs with 16 batches of 64 each.
const MOST_SEEN: usize = 32_768;

/// Transactions, each once. Those with one hash are a chain, which leads from each to the one before it, so it is found fast
/// whether a transaction is among them. Where memory is wanting no more of them fit.
#[derive(Drop)]
pub(crate) struct Seen<'a> {
    txs: Vec<&'a [u8]>,
    earlier: Vec<u16>,
    // Of each chain the number of its last transaction, from 1 on; empty where there was no memory for them.
    latest: Vec<u16>,
    // How many fit.
    room: usize,
}

impl<'a> Seen<'a> {
    /// None.
    pub(crate) fn new(alloc: Global) -> Seen<'a>
        ensures none { txs_of result ≡ [] }
        ensures chained { IsSeen result }
    {
        let (latest, room) = match no_starts(alloc) {
            Ok(latest) => (latest, MOST_SEEN),
            Err(_) => (Vec::new(alloc), 0),
        };
        Seen {
            txs: Vec::new(alloc),
            earlier: Vec::new(alloc),
            latest,
            room,
        }
    }

    /// Whether no more fits.
    pub(crate) fn is_full(&self) -> bool
        ensures { IsTrue result ↔ (self.now.room ≤ length (txs_of self.now)) }
    {
        self.room <= self.txs.len()
    }

    /// Whether a transaction is among them.
    pub(crate) fn has(&self, tx: &[u8]) -> bool
        requires { IsSeen self.now }
        ensures { result ≡ is_among (txs_of self.now) tx.now }
    {
        let txs = self.txs.as_slice();
        if txs.is_empty() {
            return false;
        }
        let earlier = self.earlier.as_slice();
        let mut number = self.latest[chain_of(tx)];
        while number > 0 {
            let place = number as usize - 1;
            if tx == txs[place] {
                return true;
            }
            number = earlier[place];
        }
        false
    }

    /// Adds a transaction at the end, if it fits. Where there is no memory for it, no more fit.
    pub(crate) fn add(&mut self, tx: &'a [u8])
        requires { IsSeen self.old }
        ensures chained { IsSeen self.new }
        ensures txs { IsAdded self.old.room (txs_of self.old) self.new.room (txs_of self.new) tx.now }
    {
        if self.is_full() {
            self.room = self.txs.len();
            return;
        }
        if self.txs.reserve(1).is_err() || self.earlier.reserve(1).is_err() {
            self.room = self.txs.len();
            return;
        }
        let chain = chain_of(tx);
        self.earlier.push_reserved(self.latest[chain]);
        self.txs.push_reserved(tx);
        self.latest[chain] = self.txs.len() as u16;
    }
}

// No chain has begun.
fn no_starts(alloc: Global) -> Result<Vec<u16>, AllocError>
    ensures wide { IfOk result (λ latest. length latest.items ≡ chains) }
    ensures none { IfOk result (λ latest. (chain : ℕ) → chain < chains → slice_index_or latest.items chain 0 ≡ 0) }
{
    vec![in alloc; 0; CHAINS]
}

// The chain of a transaction.
#[tactic(auto, unfolding(crate::specs::Chains::chain_of))]
fn chain_of(tx: &[u8]) -> usize
    ensures value { result ≡ chain_of tx.now }
    ensures low { result < chains }
{
    let mut hash = 0;
    for byte in tx {
        hash = (hash * 257 + *byte as usize) % CHAINS;
    }
    hash
}
