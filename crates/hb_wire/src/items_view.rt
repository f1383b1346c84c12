//! The items of a closed vote, still where they were read.

ghost use Rattle.std.specs.Prelude.{◌≡◌, ℕ, ◌+◌, ◌≤◌, length, drop, IfOk};
ghost use Rattle.hb_wire.specs.Reading.{first_item, first_length};
ghost use Rattle.hb_wire.specs.Lists.{listed, item, IsList};

use crate::items::{Item, Items};
use hb_base::Bytes;
use std::alloc::{AllocError, Global};
use std::marker::Model;

/// A list of items in the bytes of a vote. A contract sees the list.
#[derive(Debug, Drop)]
pub struct ItemsView<'a> {
    pub(crate) bytes: &'a [u8],
}

impl<'a> Model for ItemsView<'a> {
    ghost use Rattle.std.specs.Prelude.{List};
    ghost use Rattle.hb_wire.specs.declared.items.Item.{Item};
    ghost use Rattle.hb_wire.specs.Lists.{listed, IsList};

    ghost Value = { List Item };

    ghost view = { λ list. listed list.bytes.now };

    ghost invariant = { λ list. IsList list.bytes.now };
}

impl ItemsView<'_> {
    /// The list, with a copy of each value. Err where there is no memory for it.
    pub fn to_items(&self, alloc: Global) -> Result<Items, AllocError>
        ensures { IfOk result (λ items. items ≡ self.now) }
    {
        items_of(alloc, self.bytes)
    }
}

// The first item, and the bytes behind it.
pub(crate) fn front_item(bytes: &[u8]) -> ((u8, &[u8]), &[u8])
    requires { 5 + first_length bytes.now ≤ length bytes.now }
    ensures first { item result.0.0 result.0.1.now ≡ first_item bytes.now }
    ensures rest { result.1.now ≡ drop (5 + first_length bytes.now) bytes.now }
{
    let len = u32::from_be_bytes([bytes[1], bytes[2], bytes[3], bytes[4]]) as usize;
    let (front, rest) = bytes.split_at(5 + len);
    ((bytes[0], &front[5..]), rest)
}

fn items_of(alloc: Global, list: &[u8]) -> Result<Items, AllocError>
    requires { IsList list.now }
    ensures { IfOk result (λ items. items ≡ listed list.now) }
{
    let mut items = Items::new(alloc);
    let mut rest = &list[1..];
    'items: for _ in 0..list[0] {
        let ((node, value), after) = front_item(rest);
        let value = Bytes::copy(alloc, value)?;
        items.push(Item { node, value })?;
        rest = after;
    }
    Ok(items)
}
