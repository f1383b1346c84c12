//! A ledger, as it is printed.

ghost use Rattle.std.specs.Prelude.{◌≡◌, ◌<◌, ◌∷◌, ◌++◌, length, take, slice_index_or, [], OnOk};
ghost use Rattle.hb_wire.specs.Batches.{batch_of, IsBatch};
ghost use Rattle.hb_wire.specs.Lists.{listed};
ghost use Rattle.hb_rules.specs.Pool.{transactions_in};
ghost use Rattle.script_fault.specs.Line.{Writes};
ghost use Rattle.acs_world.specs.Closures.{closure_of, IsClosureAt};
ghost use Rattle.ledger_text.specs.Places.{in_lists, before_batch, IsSpot};
ghost use Rattle.ledger_text.specs.Seen.{Remembers};
ghost use Rattle.ledger_text.specs.Text.{in_order, alone, tx_text, batch_text, item_text, transactions_of, list_text, lists_text};

use crate::lines::{put_batch, put_epoch, put_tx};
use crate::lists::Ledger;
use crate::search::{Spot, is_known};
use crate::seen::Seen;
use acs_world::{Closing, count_of};
use hb_base::{Failed, Sink};
use hb_wire::{batch_at, batch_len, item};
use std::alloc::Global;

/// Prints a ledger, each line by one put: each list with its epoch, each batch of it, and each transaction where it stands for
/// the first time. It remembers those that it has printed; where memory is wanting for that, it looks for them in the ledger,
/// so that it prints the same. After an error a front of the text was written, and the sink's count of faults rose.
pub fn put_ledger<'a, L: Ledger, O: Sink>(
    alloc: Global,
    ledger: &'a L,
    out: &mut O,
) -> Result<(), Failed>
    ensures { Writes (O.held out.old) (O.held out.new) (O.faults out.old) (O.faults out.new) result (lists_text (L.lists ledger.now)) }
{
    let mut seen: Seen<'a> = Seen::new(alloc);
    for place in 0..ledger.count() {
        let Some(closing) = ledger.at(place) else {
            return Ok(());
        };
        put_list(ledger, &mut seen, place, closing, out)?;
    }
    Ok(())
}

// Prints the list at a place.
#[tactic(auto, using(script_fault::proofs::Writing::writes_then, script_fault::proofs::Writing::writes_front), unfolding(crate::specs::Text::list_text))]
fn put_list<'a, L: Ledger, O: Sink>(
    ledger: &'a L,
    seen: &mut Seen<'a>,
    place: usize,
    closing: Closing<'a>,
    out: &mut O,
) -> Result<(), Failed>
    requires list { IsClosureAt (L.lists ledger.now) place closing.epoch closing.rest.now }
    requires seen { Remembers seen.old (in_lists (L.lists ledger.now) place) }
    ensures seen { OnOk result (Remembers seen.new (in_lists (L.lists ledger.now) place ++ transactions_in (listed closing.entry.rest.now))) }
    ensures text { Writes (O.held out.old) (O.held out.new) (O.faults out.old) (O.faults out.new) result
        (list_text (in_lists (L.lists ledger.now) place) (closure_of closing.entry.epoch (listed closing.entry.rest.now))) }
{
    put_epoch(closing.epoch, count_of(closing.rest), out)?;
    let spot = Spot {
        place,
        rest: closing.rest,
        index: 0,
    };
    put_batches(ledger, seen, spot, out)
}

// Prints the batches of the list of a spot.
fn put_batches<'a, L: Ledger, O: Sink>(
    ledger: &'a L,
    seen: &mut Seen<'a>,
    spot: Spot<'a>,
    out: &mut O,
) -> Result<(), Failed>
    requires spot { IsSpot (L.lists ledger.now) spot }
    requires seen { Remembers seen.old (in_lists (L.lists ledger.now) spot.place) }
    ensures seen { OnOk result
        (Remembers seen.new (in_lists (L.lists ledger.now) spot.entry.place ++ transactions_in (listed spot.entry.rest.now))) }
    ensures text { Writes (O.held out.old) (O.held out.new) (O.faults out.old) (O.faults out.new) result
        (in_order item_text transactions_of (in_lists (L.lists ledger.now) spot.entry.place) (listed spot.entry.rest.now)) }
{
    for index in 0..count_of(spot.rest) {
        let (lane, value) = item(spot.rest, index);
        let batch = Spot { index, ..spot };
        put_value(ledger, seen, batch, lane, value, out)?;
    }
    Ok(())
}

// Prints the batch of a spot, which is that of a lane, by its bytes.
#[tactic(auto, using(script_fault::proofs::Writing::writes_then, script_fault::proofs::Writing::writes_front), unfolding(crate::specs::Text::batch_text))]
fn put_value<'a, L: Ledger, O: Sink>(
    ledger: &'a L,
    seen: &mut Seen<'a>,
    spot: Spot<'a>,
    lane: u8,
    value: &'a [u8],
    out: &mut O,
) -> Result<(), Failed>
    requires spot { IsSpot (L.lists ledger.now) spot }
    requires seen { Remembers seen.old (before_batch (L.lists ledger.now) spot) }
    ensures seen { OnOk result (Remembers seen.new (before_batch (L.lists ledger.now) spot.entry ++ batch_of value.now)) }
    ensures text { Writes (O.held out.old) (O.held out.new) (O.faults out.old) (O.faults out.new) result
        (batch_text lane (before_batch (L.lists ledger.now) spot.entry) value.now) }
{
    put_batch(lane, batch_len(value), out)?;
    put_transactions(ledger, seen, spot, value, out)
}

// Prints the transactions of a batch that are new in the ledger.
fn put_transactions<'a, L: Ledger, O: Sink>(
    ledger: &'a L,
    seen: &mut Seen<'a>,
    spot: Spot<'a>,
    value: &'a [u8],
    out: &mut O,
) -> Result<(), Failed>
    requires spot { IsSpot (L.lists ledger.now) spot }
    requires seen { Remembers seen.old (before_batch (L.lists ledger.now) spot) }
    ensures seen { OnOk result (Remembers seen.new (before_batch (L.lists ledger.now) spot.entry ++ batch_of value.now)) }
    ensures text { Writes (O.held out.old) (O.held out.new) (O.faults out.old) (O.faults out.new) result
        (in_order tx_text alone (before_batch (L.lists ledger.now) spot.entry) (batch_of value.now)) }
{
    for t in 0..batch_len(value) {
        put_transaction(ledger, seen, spot, value, t, out)?;
    }
    Ok(())
}

// Prints a transaction of a batch, if it is new in the ledger.
fn put_transaction<'a, L: Ledger, O: Sink>(
    ledger: &'a L,
    seen: &mut Seen<'a>,
    spot: Spot<'a>,
    value: &'a [u8],
    t: u8,
    out: &mut O,
) -> Result<(), Failed>
    requires spot { IsSpot (L.lists ledger.now) spot }
    requires inside { t < length (batch_of value.now) }
    requires batch { IsBatch (batch_of value.now) }
    requires seen { Remembers seen.old (before_batch (L.lists ledger.now) spot ++ take t (batch_of value.now)) }
    ensures seen { OnOk result (Remembers seen.new
        ((before_batch (L.lists ledger.now) spot.entry ++ take t (batch_of value.now)) ++ slice_index_or (batch_of value.now) t [] ∷ [])) }
    ensures text { Writes (O.held out.old) (O.held out.new) (O.faults out.old) (O.faults out.new) result
        (tx_text (before_batch (L.lists ledger.now) spot.entry ++ take t (batch_of value.now)) (slice_index_or (batch_of value.now) t [])) }
{
    let tx = batch_at(value, t);
    if is_known(ledger, seen, spot, value, t, tx) {
        return Ok(());
    }
    seen.add(tx);
    put_tx(tx, out)
}
