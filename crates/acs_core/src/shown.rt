ghost use Rattle.std.specs.Prelude.{◌≡◌, ◌+◌, ◌<◌, ◌≤◌, ◌++◌, length, slice_set, Some, None, true, IfOk, if◌then◌else◌};
ghost use Rattle.std.specs.Option.{option_and_then, option_map};
ghost use Rattle.hb_base.specs.Counting.{count_nodes};
ghost use Rattle.hb_base.specs.Limits.{most_nodes};
ghost use Rattle.hb_rules.specs.Claims.{is_bit};
ghost use Rattle.hb_rules.specs.DeskRows.{items_of};
ghost use Rattle.acs_core.specs.Shown.{shown_at, with_decision, with_value, accepted_of};

use hb_base::Bytes;
use hb_wire::{Item, Items};
use std::alloc::{AllocError, Global};

// What a lane has shown of an epoch: its first decision, and the value of its first delivery.
#[derive(Debug, Drop)]
pub(crate) struct Shown {
    pub(crate) decision: Option<bool>,
    pub(crate) value: Option<Bytes>,
}

// Takes a lane's decision, unless it has shown one.
pub(crate) fn note_decision(lanes: &mut [Shown], lane: u8, bit: bool)
    requires { lane < length lanes.old }
    ensures { lanes.new ≡ slice_set lanes.old lane (with_decision (shown_at lanes.old lane) bit) }
{
    let shown = &mut lanes[lane as usize];
    shown.decision = shown.decision.or(Some(bit));
}

// Takes the value that a lane delivers, unless it has delivered one.
pub(crate) fn note_value(lanes: &mut [Shown], lane: u8, value: Bytes)
    requires { lane < length lanes.old }
    ensures { lanes.new ≡ slice_set lanes.old lane (with_value (shown_at lanes.old lane) value) }
{
    let shown = &mut lanes[lane as usize];
    shown.value = shown.value.take().or(Some(value));
}

// How many lanes have decided 1.
pub(crate) fn count_accepted(lanes: &[Shown]) -> u8
    requires { length lanes.now ≤ most_nodes }
    ensures { result ≡ count_nodes (length lanes.now) (λ j. is_bit true (shown_at lanes.now j).decision) }
{
    let mut count = 0u8;
    for shown in lanes {
        if matches!(shown.decision, Some(true)) {
            count += 1;
        }
    }
    count
}

// Adds a lane's item to those of the lanes below it, if it has one. Whether it is known what the lane comes to.
fn add_item(items: &mut Items, node: u8, shown: &Shown) -> Result<bool, AllocError>
    ensures { IfOk result (λ known. option_map (λ more. items.old ++ more) (option_and_then (items_of node shown.now.value) shown.now.decision)
        ≡ (if known then Some items.new else None)) }
{
    match (shown.decision, &shown.value) {
        (Some(true), Some(value)) => {
            items.push(Item {
                node,
                value: value.clone()?,
            })?;
            Ok(true)
        }
        (Some(false), _) => Ok(true),
        _ => Ok(false),
    }
}

// The items of the lanes that decided 1, rising: None where one has not decided, or has decided 1 and not delivered.
pub(crate) fn accepted(alloc: Global, lanes: &[Shown]) -> Result<Option<Items>, AllocError>
    requires { length lanes.now ≤ most_nodes }
    ensures { IfOk result (λ items. items ≡ accepted_of lanes.now (length lanes.now)) }
{
    let mut items = Items::new(alloc);
    let mut node = 0u8;
    for shown in lanes {
        if !add_item(&mut items, node, shown)? {
            return Ok(None);
        }
        node += 1;
    }
    Ok(Some(items))
}
