ghost use Rattle.std.specs.Prelude.{◌≡◌, ℕ, ◌+◌, ◌<◌, ◌≤◌, [], ◌∷◌, ◌++◌, take, length, IfOk, OnOk};
ghost use Rattle.hb_base.specs.Limits.{most_batch};
ghost use Rattle.hb_wire.specs.Batches.{batch_bytes};
ghost use Rattle.tx_pool.specs.Pool.{without};
ghost use Rattle.hb_rules.specs.Pool.{transactions_in};
ghost use Rattle.acs_core.specs.Subset.{node_epoch_of};
ghost use Rattle.epoch_core.specs.Tables.{acs_of, list_of, ArePlaced};
ghost use Rattle.epoch_core.specs.Closing.{kept, proposals_after, closed_transactions, MayClose, ClosesAll};

use crate::pending::Pending;
use crate::table::Table;
use hb_base::{Bytes, Config};
use hb_wire::{Item, Vote, read_batch, write_batch};
use std::alloc::{AllocError, Global};
use tx_pool::Pool;

// Adds the transactions of the batches of a list.
fn add_batches(alloc: Global, list: &[Item], gone: &mut Vec<Bytes>) -> Result<(), AllocError>
    ensures { OnOk result (gone.new.items ≡ gone.old.items ++ transactions_in list.now) }
{
    for item in list {
        let mut batch = read_batch(alloc, &item.value)?;
        gone.append(&mut batch)?;
    }
    Ok(())
}

// Adds the transactions with which a vote closes an epoch.
pub(crate) fn add_transactions(
    alloc: Global,
    vote: &Vote,
    gone: &mut Vec<Bytes>,
) -> Result<(), AllocError>
    ensures { OnOk result (gone.new.items ≡ gone.old.items ++ closed_transactions vote.now) }
{
    match vote {
        Vote::Closed { list, .. } => add_batches(alloc, list.as_slice(), gone),
        _ => Ok(()),
    }
}

// Settles the transactions with which a vote closes an epoch.
fn settle(alloc: Global, vote: &Vote, pool: &mut Pool) -> Result<(), AllocError>
    ensures { OnOk result (pool.new.pooled ≡ without (closed_transactions vote.now) pool.old.pooled) }
{
    let mut gone = Vec::new(alloc);
    add_transactions(alloc, vote, &mut gone)?;
    pool.settle(&gone)
}

// The value that the pool gives: the batch of its first `batch` transactions, or of all.
pub(crate) fn value_of(alloc: Global, pool: &Pool, batch: u8) -> Result<Bytes, AllocError>
    requires { batch ≤ most_batch }
    ensures { IfOk result (λ value. value ≡ batch_bytes (take batch pool.now.pooled)) }
{
    let oldest = pool.oldest(batch)?;
    write_batch(alloc, &oldest)
}

// Proposes for an epoch, if the run has it.
fn propose(
    alloc: Global,
    config: &Config,
    epoch: u8,
    pool: &Pool,
    proposals: &mut Vec<Vote>,
) -> Result<(), AllocError>
    ensures { OnOk result (proposals.new.items ≡ proposals.old.items ++ proposals_after config.now epoch pool.now.pooled) }
{
    if epoch >= config.epochs() {
        return Ok(());
    }
    let value = value_of(alloc, pool, config.batch())?;
    proposals.push(Vote::Propose { epoch, value })?;
    Ok(())
}

// Closes an epoch with this vote: settles its transactions, and proposes for the next.
fn close_with(
    alloc: Global,
    config: &Config,
    epoch: u8,
    closing: Vote,
    pool: &mut Pool,
    pending: &mut Pending,
) -> Result<(), AllocError>
    requires { epoch < config.now.epochs }
    ensures pooled { OnOk result (pool.new.pooled ≡ without (closed_transactions closing) pool.old.pooled) }
    ensures closings { OnOk result (pending.new.closings.items ≡ pending.old.closings.items ++ closing ∷ []) }
    ensures proposals { OnOk result (pending.new.proposals.items
        ≡ pending.old.proposals.items ++ proposals_after config.now (epoch + 1) pool.new.pooled) }
{
    let epochs = config.epochs();
    prove!(epochs <= 32);
    settle(alloc, &closing, pool)?;
    pending.closings.push(closing)?;
    propose(alloc, config, epoch + 1, pool, &mut pending.proposals)
}

// Closes an epoch, if its common subset is complete. Whether it did.
fn close(
    alloc: Global,
    config: &Config,
    epoch: u8,
    table: &Table,
    pool: &mut Pool,
    pending: &mut Pending,
) -> Result<bool, AllocError>
    requires epoch { epoch < config.now.epochs }
    ensures { IfOk result (λ is_closed. (i : ℕ) → node_epoch_of (acs_of config.now i epoch table.now) ≡ record { config = config.now; node = i; epoch = epoch }
        → MayClose config.now epoch (list_of config.now i epoch table.now) (kept pool.old pending.old) (kept pool.new pending.new) is_closed) }
{
    let n = config.n();
    prove!(1 <= n);
    match table.closed()? {
        Some(closing) => {
            close_with(alloc, config, epoch, closing, pool, pending)?;
            Ok(true)
        }
        None => Ok(false),
    }
}

// Closes epochs from this one on, one after the other, until one is not complete or the run has no more. The epoch that is
// open then, or how many there are.
pub(crate) fn close_all(
    alloc: Global,
    config: &Config,
    tables: &[Table],
    from: u8,
    pool: &mut Pool,
    pending: &mut Pending,
) -> Result<u8, AllocError>
    requires from { from ≤ config.now.epochs }
    requires count { length tables.now ≡ config.now.epochs }
    ensures { IfOk result (λ closed. (i : ℕ) → ArePlaced config.now i tables.now
        → ClosesAll config.now i tables.now from closed (kept pool.old pending.old) (kept pool.new pending.new)) }
{
    for epoch in from..config.epochs() {
        if !close(alloc, config, epoch, &tables[epoch as usize], pool, pending)? {
            return Ok(epoch);
        }
    }
    Ok(config.epochs())
}
