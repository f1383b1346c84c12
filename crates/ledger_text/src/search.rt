//! Whether a transaction stands before a place of a ledger.

ghost use Rattle.std.specs.Prelude.{◌≡◌, ◌++◌, ◌≤◌, ◌||◌, length, take};
ghost use Rattle.tx_pool.specs.Pool.{is_among};
ghost use Rattle.hb_wire.specs.Batches.{batch_of};
ghost use Rattle.hb_wire.specs.Glances.{IsClosedRest};
ghost use Rattle.hb_wire.specs.Lists.{listed};
ghost use Rattle.ledger_text.specs.Places.{in_lists, in_batches, before_batch, IsSpot};
ghost use Rattle.ledger_text.specs.Seen.{Remembers};

use crate::lists::Ledger;
use crate::seen::Seen;
use acs_world::count_of;
use hb_wire::{batch_at, batch_len, item};

/// A batch of a ledger: the place of its list in the ledger, what the vote of the list has behind kind and epoch, and the number
/// of the batch in its list.
#[derive(Clone, Copy, Debug)]
pub(crate) struct Spot<'a> {
    pub(crate) place: usize,
    pub(crate) rest: &'a [u8],
    pub(crate) index: u8,
}

/// Whether a transaction stands in the ledger before the batch, or among the first transactions of the batch. It is looked for
/// among those that were seen, and where no more of them fit, it goes through all transactions before.
pub(crate) fn is_known<'a, L: Ledger>(
    ledger: &L,
    seen: &Seen<'a>,
    spot: Spot<'a>,
    value: &'a [u8],
    t: u8,
    tx: &[u8],
) -> bool
    requires spot { IsSpot (L.lists ledger.now) spot }
    requires inside { t ≤ length (batch_of value.now) }
    requires seen { Remembers seen.now (before_batch (L.lists ledger.now) spot ++ take t (batch_of value.now)) }
    ensures { result ≡ is_among (before_batch (L.lists ledger.now) spot.entry ++ take t (batch_of value.now)) tx.now }
{
    if seen.has(tx) {
        return true;
    }
    if !seen.is_full() {
        return false;
    }
    stands_before(ledger, spot, value, t, tx)
}

// Whether a transaction stands in the ledger before the batch, or among the first transactions of the batch. It goes through
// all transactions before.
fn stands_before<L: Ledger>(ledger: &L, spot: Spot, value: &[u8], t: u8, tx: &[u8]) -> bool
    requires spot { IsSpot (L.lists ledger.now) spot }
    requires inside { t ≤ length (batch_of value.now) }
    ensures { result ≡ (is_among (in_lists (L.lists ledger.now) spot.entry.place) tx.now
        || (is_among (in_batches spot.entry.rest.now spot.entry.index) tx.now || is_among (take t (batch_of value.now)) tx.now)) }
{
    stands_in_lists(ledger, spot.place, tx)
        || stands_in_batches(spot.rest, spot.index, tx)
        || stands_in_batch(value, t, tx)
}

// Whether a transaction stands in the first lists of a ledger.
fn stands_in_lists<L: Ledger>(ledger: &L, count: usize, tx: &[u8]) -> bool
    requires { count ≤ length (L.lists ledger.now) }
    ensures { result ≡ is_among (in_lists (L.lists ledger.now) count) tx.now }
{
    for place in 0..count {
        let Some(closing) = ledger.at(place) else {
            return false;
        };
        if stands_in_batches(closing.rest, count_of(closing.rest), tx) {
            return true;
        }
    }
    false
}

// Whether a transaction stands in the first batches of a list.
fn stands_in_batches(rest: &[u8], count: u8, tx: &[u8]) -> bool
    requires list { IsClosedRest rest.now (listed rest.now) }
    requires inside { count ≤ length (listed rest.now) }
    ensures { result ≡ is_among (in_batches rest.now count) tx.now }
{
    for j in 0..count {
        let (_, value) = item(rest, j);
        if stands_in_batch(value, batch_len(value), tx) {
            return true;
        }
    }
    false
}

// Whether a transaction is among the first of a batch.
fn stands_in_batch(value: &[u8], count: u8, tx: &[u8]) -> bool
    requires { count ≤ length (batch_of value.now) }
    ensures { result ≡ is_among (take count (batch_of value.now)) tx.now }
{
    for t in 0..count {
        if tx == batch_at(value, t) {
            return true;
        }
    }
    false
}
