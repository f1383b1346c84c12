//! How each transaction stands that a pool was told of.
ghost use Rattle.std.specs.Prelude.{◌≡◌, [], None, Some, false, true, IsSome, unwrap_or, OnOk, OnErr};
ghost use Rattle.std.specs.Option.{option_map};
ghost use Rattle.tx_pool.specs.Marks.{mark};
ghost use Rattle.tx_pool.specs.Standings.{standing_of, IsClean, Sets, Stays, Settles, Reserves, HaveRoom, unreserved, Releases};
ghost use Rattle.tx_pool.specs.Standings.{first_with, other_at, is_first, with_standing, SetsFirst, SetsOther};

use crate::marks::{are_same, mark_of};
use hb_base::Bytes;
use std::alloc::{AllocError, Global};
use std::collections::BTreeMap;
use std::marker::Model;

/// How a transaction stands.
#[derive(Clone, Copy, Debug)]
pub enum Standing {
    /// It was submitted, and is not settled.
    Pooled,
    /// It is settled.
    Settled,
    /// It counts as not there. Its place is kept while a settlement asks for memory.
    Reserved,
}

// The first transaction that came with its mark. It shares the bytes that were given.
#[derive(Drop)]
struct First {
    tx: Bytes,
    standing: Standing,
}

/// How each transaction stands that a pool was told of.
///
/// Transactions are found by a mark, a hash of their bytes. A look-up searches for the mark, which compares numbers, and then
/// compares the bytes once with those that have the mark. Who picks the bytes can make marks equal. Such transactions are the
/// others, which are found by their bytes, no less surely. They are searched where the first search did not find the
/// transaction, and mostly there are none. Each search takes time logarithmic in the number of transactions, and copies nothing.
#[derive(Drop)]
pub struct Standings {
    by_mark: BTreeMap<u64, First>,
    others: BTreeMap<Vec<u8>, Standing>,
}

impl Model for Standings {
    ghost use Rattle.tx_pool.specs.Standings.{Table};

    ghost Value = { Table };

    ghost view = { λ s. record { firsts = s.by_mark.entries; others = s.others.entries } };
}

impl Standings {
    /// No transaction.
    pub fn new(alloc: Global) -> Standings
        ensures { result ≡ record { firsts = []; others = [] } }
    {
        Standings {
            by_mark: BTreeMap::new(alloc),
            others: BTreeMap::new(alloc),
        }
    }

    /// How a transaction stands, None where it has no place.
    pub fn get(&self, tx: &[u8]) -> Option<Standing>
        ensures { result ≡ standing_of self.now tx.now }
    {
        if let Some(first) = self.by_mark.get(&mark_of(tx)) {
            if are_same(tx, first.tx.as_slice()) {
                return Some(first.standing);
            }
        }
        self.others.get(tx).copied()
    }

    /// Gives a standing to a transaction that has none: a search for the mark, and the insertion. It shares the bytes where they
    /// are the first with their mark, and else copies them.
    pub fn insert(
        &mut self,
        alloc: Global,
        tx: &Bytes,
        standing: Standing,
    ) -> Result<(), AllocError>
        requires { standing_of self.old tx.now ≡ None }
        ensures ok { OnOk result (Sets self.old self.new tx.now (Some standing)) }
        ensures err { OnErr result (self.new ≡ self.old) }
    {
        let mark = mark_of(tx.as_slice());
        if self.by_mark.contains_key(&mark) {
            let copy = Vec::from_slice(alloc, tx.as_slice())?;
            self.others.insert(copy, standing)?;
        } else {
            let tx = tx.clone()?;
            self.by_mark.insert(mark, First { tx, standing })?;
        }
        Ok(())
    }

    /// Settles these transactions. Where it finds no memory it gives back what it took, and all stand as before.
    pub fn settle(&mut self, alloc: Global, txs: &[Bytes]) -> Result<(), AllocError>
        requires { IsClean self.old }
        ensures ok { OnOk result (Settles self.old self.new txs.now) }
        ensures err { OnErr result (Stays self.old self.new) }
    {
        match self.reserve_all(alloc, txs) {
            Ok(()) => {
                self.set_settled(txs);
                Ok(())
            }
            Err(error) => {
                self.release_all(txs);
                Err(error)
            }
        }
    }

    // Gives each of these transactions a place, so that it can be settled without memory.
    fn reserve_all(&mut self, alloc: Global, txs: &[Bytes]) -> Result<(), AllocError>
        ensures reserves { Reserves self.old self.new txs.now }
        ensures room { OnOk result (HaveRoom self.new txs.now) }
    {
        for tx in txs {
            self.reserve(alloc, tx)?;
        }
        Ok(())
    }

    // Gives back the places that were reserved for these transactions.
    fn release_all(&mut self, txs: &[Bytes])
        ensures { Releases self.old self.new txs.now }
    {
        for tx in txs {
            self.release(tx.as_slice());
        }
    }

    // Settles transactions that have a place.
    fn set_settled(&mut self, txs: &[Bytes])
        requires room { HaveRoom self.old txs.now }
        ensures { Settles self.old self.new txs.now }
    {
        for tx in txs {
            self.set(tx.as_slice(), Standing::Settled);
        }
    }

    // Reserves a place for a transaction that has none.
    fn reserve(&mut self, alloc: Global, tx: &Bytes) -> Result<(), AllocError>
        ensures ok { OnOk result (Sets self.old self.new tx.now (Some (unwrap_or (standing_of self.old tx.now) Standing.Reserved))) }
        ensures err { OnErr result (self.new ≡ self.old) }
    {
        match self.get(tx.as_slice()) {
            Some(_) => Ok(()),
            None => self.insert(alloc, tx, Standing::Reserved),
        }
    }

    // Gives the place of a transaction back, if it is reserved.
    fn release(&mut self, tx: &[u8])
        ensures { Sets self.old self.new tx.now (unreserved (standing_of self.old tx.now)) }
    {
        if let Some(Standing::Reserved) = self.get(tx) {
            self.remove(tx);
        }
    }

    // Changes the standing of a transaction that has one. It needs no memory.
    fn set(&mut self, tx: &[u8], standing: Standing)
        requires { IsSome (standing_of self.old tx.now) }
        ensures { Sets self.old self.new tx.now (Some standing) }
    {
        let mark = mark_of(tx);
        if self.is_first(mark, tx) {
            self.set_first(mark, standing);
        } else {
            self.set_other(tx, standing);
        }
    }

    // Gives the place of a transaction back.
    fn remove(&mut self, tx: &[u8])
        ensures { Sets self.old self.new tx.now None }
    {
        self.remove_first(tx);
        self.remove_other(tx);
    }

    // Whether this transaction is the first with this mark.
    fn is_first(&self, mark: u64, tx: &[u8]) -> bool
        ensures { result ≡ is_first (first_with self.now mark) tx.now }
    {
        match self.by_mark.get(&mark) {
            Some(first) => are_same(tx, first.tx.as_slice()),
            None => false,
        }
    }

    fn set_first(&mut self, mark: u64, standing: Standing)
        requires { IsSome (first_with self.old mark) }
        ensures { SetsFirst self.old self.new mark (option_map (with_standing standing) (first_with self.old mark)) }
    {
        if let Some(first) = self.by_mark.get_mut(&mark) {
            first.standing = standing;
        }
    }

    fn set_other(&mut self, tx: &[u8], standing: Standing)
        requires { IsSome (other_at self.old tx.now) }
        ensures { SetsOther self.old self.new tx.now (Some standing) }
    {
        if let Some(place) = self.others.get_mut(tx) {
            *place = standing;
        }
    }

    // Takes a transaction out of the firsts, if it is one. It stands then as the others tell.
    fn remove_first(&mut self, tx: &[u8])
        ensures apart { is_first (first_with self.new (mark tx.now)) tx.now ≡ false }
        ensures is { Sets self.old self.new tx.now (other_at self.old tx.now) }
    {
        let mark = mark_of(tx);
        if self.is_first(mark, tx) {
            let _ = self.by_mark.remove(&mark);
        }
    }

    fn remove_other(&mut self, tx: &[u8])
        ensures { SetsOther self.old self.new tx.now None }
    {
        let _ = self.others.remove(tx);
    }
}
