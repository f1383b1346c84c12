//! The batches that a closed epoch accepts.

ghost use Rattle.std.specs.Prelude.{◌≡◌, List, [], ◌∷◌, ◌++◌, OnOk, OnErr};
ghost use Rattle.std.specs.Cmp.{partial_equiv_from_equiv};
ghost use Rattle.std.specs.Cmp.Lexicographic.{pointwise, lists_per, lists_equiv};
ghost use Rattle.hb_wire.specs.Lists.{same_item, same_item_equiv};

use hb_base::Bytes;
use std::alloc::{AllocError, Global};
use std::marker::Model;

/// A node and the value of its broadcast, of at most 16,514 bytes in a vote.
#[derive(Debug, PartialEq, Eq, Drop)]
pub struct Item {
    pub node: u8,
    pub value: Bytes,
}

impl Clone for Item {
    ghost is_clone = { λ item copy. copy ≡ item };

    fn clone(&self) -> Result<Item, AllocError> {
        Ok(Item {
            node: self.node,
            value: self.value.clone()?,
        })
    }
}

/// A list of items, as a closed vote has it. It takes any items; those of a vote have rising nodes. A contract sees the
/// list.
#[derive(Debug, Drop)]
pub struct Items {
    items: Vec<Item>,
}

impl Model for Items {
    ghost use Rattle.std.specs.Prelude.{List};
    ghost use Rattle.hb_wire.specs.declared.items.Item.{Item};

    ghost Value = { List Item };

    ghost view = { λ list. list.items.items };
}

// Lists compare as their items do, one by one.
impl PartialEq for Items {
    ghost eq = { pointwise same_item };

    ghost laws = { lists_per (partial_equiv_from_equiv same_item_equiv) };

    fn eq(&self, other: &Items) -> bool {
        self.as_slice() == other.as_slice()
    }
}

impl Eq for Items {
    ghost laws = { lists_equiv same_item_equiv };
}

impl Items {
    /// No item.
    pub fn new(alloc: Global) -> Items
        ensures { result ≡ [] }
    {
        Items {
            items: Vec::new(alloc),
        }
    }

    /// Adds an item at the end. After an error the list is as it was.
    pub fn push(&mut self, item: Item) -> Result<(), AllocError>
        ensures ok { OnOk result (self.new ≡ self.old ++ item ∷ []) }
        ensures err { OnErr result (self.new ≡ self.old) }
    {
        self.items.push(item)?;
        Ok(())
    }

    /// The items, lent.
    pub fn as_slice(&self) -> &[Item]
        ensures { result.now ≡ self.now }
    {
        self.items.as_slice()
    }
}

impl Clone for Items {
    ghost is_clone = { λ list copy. copy ≡ list };

    fn clone(&self) -> Result<Items, AllocError> {
        let mut items = Items::new(*self.items.allocator());
        for item in self.as_slice() {
            items.push(item.clone()?)?;
        }
        Ok(items)
    }
}
