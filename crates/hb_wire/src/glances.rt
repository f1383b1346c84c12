//! What can be seen of a vote's bytes without a copy.

ghost use Rattle.std.specs.Prelude.{◌≡◌, ℕ, ◌≤◌, ◌<◌, List, slice_index_or, IsSomeAnd, IfSome, IfNone, None};
ghost use Rattle.hb_base.specs.Limits.{most_nodes};
ghost use Rattle.hb_wire.specs.declared.items.Item.{Item};
ghost use Rattle.hb_wire.specs.Reading.{vote_at};
ghost use Rattle.hb_wire.specs.Glances.{IsGlance, HasItemAt, IsClosedRest};
ghost use Rattle.hb_wire.specs.Lists.{item as item_of, IsList, listed};

use crate::glimpse::Glance;
use crate::items_view::front_item;
use crate::reading::view;

/// What stands at the front of the bytes, if they spell a vote among n nodes under this version of the rules, and None
/// where they spell none. It takes no memory.
pub fn glance<'a>(n: u8, version: u8, bytes: &'a [u8]) -> Option<Glance<'a>>
    requires some { 1 ≤ n }
    requires few { n ≤ most_nodes }
    ensures none { IfNone result (vote_at n version bytes.now ≡ None) }
    ensures seen { IfSome result (λ g. IsSomeAnd (vote_at n version bytes.now) (λ vote. IsGlance bytes.now vote g.kind g.epoch g.rest.now)) }
{
    match bytes {
        [kind, epoch, rest @ ..] => match view(n, version, bytes) {
            None => None,
            Some(_) => Some(Glance {
                kind: *kind,
                epoch: *epoch,
                rest,
            }),
        },
        _ => None,
    }
}

// Item j of a list, with the count in front.
fn nth_item(list: &[u8], j: u8) -> (u8, &[u8])
    requires whole { IsList list.now }
    requires inside { j < slice_index_or list.now 0 0 }
    ensures { (d : Item) → slice_index_or (listed list.now) j d ≡ item_of result.0 result.1.now }
{
    let mut left = &list[1..];
    'items: for _ in 0..j {
        left = front_item(left).1;
    }
    front_item(left).0
}

/// The node and the value of item j, from 0 on, of a closed vote, of which `rest` is what stands behind the first two
/// bytes. It takes no memory.
pub fn item(rest: &[u8], j: u8) -> (u8, &[u8])
    requires { HasItemAt rest.now j }
    ensures { (items : List Item) → IsClosedRest rest.now items → (d : Item) → slice_index_or items j d ≡ item_of result.0 result.1.now }
{
    nth_item(rest, j)
}
