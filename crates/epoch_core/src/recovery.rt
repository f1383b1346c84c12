ghost use Rattle.std.specs.Prelude.{◌≡◌, ℕ, ◌<◌, ◌≤◌, true, false, None, IfOk, OnOk, Some};
ghost use Rattle.std.specs.List.{list_any, flat_map};
ghost use Rattle.hb_base.specs.Limits.{most_batch};
ghost use Rattle.tx_pool.specs.Pool.{without};
ghost use Rattle.hb_rules.specs.Claims.{is_any_closing, is_any_proposal};
ghost use Rattle.epoch_core.specs.Tables.{AreUnheard};
ghost use Rattle.epoch_core.specs.Closing.{closed_transactions, first_value};

use crate::closing::{add_transactions, value_of};
use crate::table::Table;
use hb_base::Bytes;
use hb_rules::{has_no_more, has_proposal, is_closed};
use hb_wire::Vote;
use std::alloc::{AllocError, Global};
use tx_pool::Pool;

// How many epochs are closed one after the other by these votes, of so many.
pub(crate) fn closed_by(own: &[Vote], epochs: u8) -> u8
    ensures most { result ≤ epochs }
    ensures below { (e : ℕ) → e < result → list_any (is_any_closing e) own.now ≡ true }
    ensures next { result < epochs → list_any (is_any_closing result) own.now ≡ false }
{
    for epoch in 0..epochs {
        if !is_closed(epoch, own) {
            return epoch;
        }
    }
    epochs
}

// The value of the first proposal, if it is not among these votes: what the pool gives before anything is settled.
pub(crate) fn unproposed(
    alloc: Global,
    own: &[Vote],
    pool: &Pool,
    batch: u8,
) -> Result<Option<Bytes>, AllocError>
    requires { batch ≤ most_batch }
    ensures { IfOk result (λ value. value ≡ first_value batch pool.now.pooled (list_any (is_any_proposal 0) own.now)) }
{
    if has_proposal(0, own) {
        return Ok(None);
    }
    let value = value_of(alloc, pool, batch)?;
    Ok(Some(value))
}

// Settles the transactions with which these votes close epochs.
pub(crate) fn settle_all(alloc: Global, own: &[Vote], pool: &mut Pool) -> Result<(), AllocError>
    ensures { OnOk result (pool.new.pooled ≡ without (flat_map closed_transactions own.now) pool.old.pooled) }
{
    let mut gone = Vec::new(alloc);
    for vote in own {
        add_transactions(alloc, vote, &mut gone)?;
    }
    pool.settle(&gone)
}

// The tables of so many epochs of which nothing was heard, where these votes were cast.
pub(crate) fn unheard(alloc: Global, own: &[Vote], epochs: u8) -> Result<Vec<Table>, AllocError>
    ensures { IfOk result (λ tables. AreUnheard own.now epochs tables.items) }
{
    let mut tables = Vec::with_capacity(alloc, epochs as usize)?;
    for epoch in 0..epochs {
        tables.push(Table::Unheard(has_no_more(epoch, own)))?;
    }
    Ok(tables)
}
