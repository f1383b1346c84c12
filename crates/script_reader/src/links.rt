//! The key `links`.
ghost use Rattle.std.specs.Prelude.{◌≡◌, ◌≤◌, IfOk};
ghost use Rattle.std.specs.List.{All};
ghost use Rattle.serde_json.specs.View.{view};
ghost use Rattle.script_reader.specs.Fault.{Gives};
ghost use Rattle.net_script.specs.Sound.{IsLink};
ghost use Rattle.script_reader.specs.Entries.{link_at, links_at};

use crate::entries::{Entry, list_at, read_entries};
use crate::fields::{check_entry, node_or_any, number_at};
use crate::words::shape_at;
use hb_base::limits::MOST_LINKS;
use net_script::Link;
use script_fault::{KeyName, ListName, ScriptFault, Spot};
use serde_json::Value;
use std::alloc::Global;

// The rules of a scenario of n nodes.
#[tactic(auto, using(crate::proofs::Items::count_items_view), unfolding(crate::specs::Entries::links_at))]
pub(crate) fn links_at(alloc: Global, value: &Value, n: u8) -> Result<Vec<Link>, ScriptFault>
    requires { 1 ≤ n }
    ensures gives { Gives (λ links. links.items) result (links_at n (view value.now)) }
    ensures sound { IfOk result (λ links. All (IsLink n) links.items) }
{
    let values = list_at(value, KeyName::Links)?;
    if values.len() > MOST_LINKS as usize {
        return Err(ScriptFault::OutOfRange {
            place: Spot::top().at(KeyName::Links),
            value: values.len() as u64,
        });
    }
    read_entries(alloc, n, values)
}

impl Entry for Link {
    ghost reads = { link_at };

    ghost is_sound = { IsLink };

    #[tactic(auto, unfolding(crate::specs::Entries::link_at))]
    fn read(
        alloc: Global,
        n: u8,
        _earlier: &[Link],
        index: u32,
        value: &Value,
    ) -> Result<Link, ScriptFault> {
        let list = ListName::Links;
        let spot = Spot { list, index };
        check_entry(alloc, value, spot)?;
        let from = node_or_any(value, spot.at(KeyName::From), n)?;
        let to = node_or_any(value, spot.at(KeyName::To), n)?;
        let every = number_at(value, spot.at(KeyName::Every), 1, 65_536)? as u32;
        let at = number_at(value, spot.at(KeyName::At), 0, u64::from(every - 1))? as u32;
        let shape = shape_at(alloc, value, spot.at(KeyName::Shape))?;
        Ok(Link {
            from,
            to,
            every,
            at,
            shape,
        })
    }
}
