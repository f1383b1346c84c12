//! Whether a list is the one with which an epoch may be closed.
ghost use Rattle.std.specs.Prelude.{◌≡◌, ◌↔◌, IsTrue};
ghost use Rattle.std.specs.Option.{option_map};
ghost use Rattle.hb_base.specs.Numbers.{Numbers};
ghost use Rattle.hb_wire.specs.declared.items.Item.{Item};
ghost use Rattle.hb_rules.specs.Desk.{IsAccepted};
ghost use Rattle.desk_judge.specs.Accepting.{after_lane};

use crate::heard::{has_decided, has_delivered};
use hb_rules::Heard;
use hb_wire::Item;

// What is left of a list behind a lane, if it has the lane right.
fn after_lane<'a>(epoch: u8, heard: &[Heard], lane: u8, list: &'a [Item]) -> Option<&'a [Item]>
    ensures { option_map (λ rest. rest.now) result ≡ after_lane epoch heard.now lane list.now }
{
    match list.split_first() {
        Some((item, rest)) if item.node == lane => {
            let is_right = has_decided(epoch, lane, true, heard)
                && has_delivered(epoch, lane, item.value.as_slice(), heard);
            if is_right { Some(rest) } else { None }
        }
        _ => {
            let is_right = has_decided(epoch, lane, false, heard);
            if is_right { Some(list) } else { None }
        }
    }
}

// Whether a list has, rising, exactly those of the n lanes that have decided 1, each with a value that it has delivered, and
// all others have decided 0.
pub(crate) fn is_accepted(n: u8, epoch: u8, heard: &[Heard], list: &[Item]) -> bool
    ensures { (c : Numbers) → c.n ≡ n → IsTrue result ↔ IsAccepted c epoch heard.now list.now }
{
    let mut rest = list;
    for lane in 0..n {
        match after_lane(epoch, heard, lane, rest) {
            Some(later) => rest = later,
            None => return false,
        }
    }
    rest.is_empty()
}
