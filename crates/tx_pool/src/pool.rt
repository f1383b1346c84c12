//! The pool, told of submissions and settlements.
ghost use Rattle.std.specs.Prelude.{◌≡◌, ℕ, ◌<◌, true, false, ◌||◌, List, [], ◌∷◌, ◌++◌, take, filter, bytes_eq, vec_len, vec_capacity};
ghost use Rattle.std.specs.Prelude.{IfOk, OnOk, OnErr, if◌then◌else◌};
ghost use Rattle.std.specs.List.{AllByRecursion, IsDistinct};
ghost use Rattle.hb_base.specs.Limits.{IsTransaction};
ghost use Rattle.tx_pool.specs.Pool.{is_among, is_known, without};
ghost use Rattle.tx_pool.specs.Standings.{standing_of, is_pooled};
ghost use Rattle.tx_pool.specs.Calls.{Call, Submit, Settle, IsPoolOf};

use crate::standings::{Standing, Standings};
use hb_base::Bytes;
use std::alloc::{AllocError, Global};
use std::marker::Model;

/// What a submission did.
#[derive(Clone, Copy, Debug, PartialEq, Eq)]
pub enum Submitted {
    /// The transaction is pooled now, behind the others.
    Added,
    /// The same bytes were pooled or settled already. Nothing changed.
    Known,
}

/// The transactions that were submitted to a node and are not settled, in the order in which they came, and those that
/// are settled. Clauses see a `PoolView`.
///
/// The list that it lends and the ordered map that finds a transaction share the bytes with whoever gave them. Only where the
/// marks of two transactions are equal is the later one copied.
#[derive(Drop)]
pub struct Pool {
    pooled: Vec<Bytes>,
    standings: Standings,
}

impl Model for Pool {
    ghost use Rattle.tx_pool.specs.Pool.{PoolView};
    ghost use Rattle.tx_pool.specs.Standings.{settled_of, IsTied};

    ghost Value = { PoolView };

    ghost view = { λ p. record { pooled = p.pooled.items; settled = settled_of p.standings } };

    ghost invariant = { λ p. IsTied p.pooled.items p.standings };
}

impl Pool {
    /// A pool that was told nothing. It asks for no memory.
    pub fn new(alloc: Global) -> Pool
        ensures empty { result ≡ record { pooled = []; settled = [] } }
        ensures told { IsPoolOf [] result }
    {
        Pool {
            pooled: Vec::new(alloc),
            standings: Standings::new(alloc),
        }
    }

    /// Pools a transaction of 1 to 256 bytes behind the others, unless the same bytes are pooled or settled.
    ///
    /// It takes one look-up, in time logarithmic in the number of transactions that the pool was told of. Where the bytes
    /// are new it takes one insertion besides, and shares them, or copies them where another transaction has their mark. Each of
    /// the two is two searches at most (`Standings`). The list doubles where it is full.
    pub fn submit(&mut self, tx: &Bytes) -> Result<Submitted, AllocError>
        requires { IsTransaction tx.now }
        ensures answer { IfOk result (λ answer. answer ≡ (if is_known self.old tx.now then Submitted.Known else Submitted.Added)) }
        ensures pooled { OnOk result (self.new.pooled ≡ (if is_known self.old tx.now then self.old.pooled else self.old.pooled ++ tx.now ∷ [])) }
        ensures settled { OnOk result (self.new.settled ≡ self.old.settled) }
        ensures told { OnOk result ((calls : List Call) → IsPoolOf calls self.old → IsPoolOf (calls ++ Submit tx.now ∷ []) self.new) }
        ensures err { OnErr result (self.new ≡ self.old) }
    {
        if self.standings.get(tx.as_slice()).is_some() {
            return Ok(Submitted::Known);
        }
        let alloc = *self.pooled.allocator();
        let shared = tx.clone()?;
        self.pooled.reserve(1)?;
        self.standings.insert(alloc, tx, Standing::Pooled)?;
        push_within(&mut self.pooled, shared);
        Ok(Submitted::Added)
    }

    /// The first `count` pooled transactions, or all where there are fewer. Their bytes are shared with the pool, not copied,
    /// and it looks at no others.
    pub fn oldest(&self, count: u8) -> Result<Vec<Bytes>, AllocError>
        ensures first { IfOk result (λ txs. txs.items ≡ take count self.now.pooled) }
        ensures fit { IfOk result (λ txs. AllByRecursion IsTransaction txs.items) }
    {
        let count = self.pooled.len().min(count as usize);
        Vec::from_clones(*self.pooled.allocator(), &self.pooled.as_slice()[..count])
    }

    /// Settles these transactions, also those that were never submitted: they are no longer pooled, and never will be.
    ///
    /// For each of them it takes a look-up, an insertion if the pool was not told of it before, and two searches more to settle
    /// it. Then it takes one look-up for each that is pooled, in one pass. Bytes that are inserted are shared or copied as by
    /// `submit`. Where memory is wanting, each of them is looked up once more, and what was inserted is removed.
    pub fn settle(&mut self, txs: &[Bytes]) -> Result<(), AllocError>
        ensures pooled { OnOk result (self.new.pooled ≡ without txs.now self.old.pooled) }
        ensures settled { OnOk result ((tx : List ℕ) → is_among self.new.settled tx ≡ (is_among self.old.settled tx || is_among txs.now tx)) }
        ensures told { OnOk result ((calls : List Call) → IsPoolOf calls self.old → IsPoolOf (calls ++ Settle txs.now ∷ []) self.new) }
        ensures err { OnErr result (self.new ≡ self.old) }
    {
        let alloc = *self.pooled.allocator();
        self.standings.settle(alloc, txs)?;
        keep_pooled(&mut self.pooled, &self.standings);
        Ok(())
    }

    /// The pooled transactions, lent, in the order in which they came. Each stands once, has 1 to 256 bytes, and is not
    /// settled.
    pub fn pooled(&self) -> &[Bytes]
        ensures items { result.now ≡ self.now.pooled }
        ensures once { IsDistinct bytes_eq self.now.pooled }
        ensures fit { AllByRecursion IsTransaction self.now.pooled }
        ensures apart { (tx : List ℕ) → is_among self.now.pooled tx ≡ true → is_among self.now.settled tx ≡ false }
    {
        self.pooled.as_slice()
    }
}

// Adds a transaction where there is room for one more, so that it can't fail.
fn push_within(pooled: &mut Vec<Bytes>, tx: Bytes)
    requires { vec_len pooled.old < vec_capacity pooled.old }
    ensures { pooled.new.items ≡ pooled.old.items ++ tx ∷ [] }
{
    let _ = pooled.push(tx);
}

// Keeps the transactions that stand as pooled, in their order.
fn keep_pooled(pooled: &mut Vec<Bytes>, standings: &Standings)
    ensures { pooled.new.items ≡ filter (λ tx. is_pooled (standing_of standings.now tx)) pooled.old.items }
{
    pooled.retain(|tx| matches!(standings.get(tx.as_slice()), Some(Standing::Pooled)));
}
