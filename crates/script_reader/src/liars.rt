//! The key `liars`.
ghost use Rattle.std.specs.Prelude.{◌≡◌, ◌≤◌, ◌==◌, [], ◌++◌, ◌∷◌, take, drop, count_by, bytes_eq, IfOk, length};
ghost use Rattle.std.specs.List.{list_any, All};
ghost use Rattle.serde_json.specs.View.{view};
ghost use Rattle.script_reader.specs.Fault.{Gives};
ghost use Rattle.net_script.specs.Sound.{IsLiar};
ghost use Rattle.script_reader.specs.Entries.{liar_at, liars_at, each_once, all_cast};

use crate::entries::{Entry, list_at, read_entries};
use crate::fields::{check_entry, node_at, number_or};
use crate::words::name_at;
use hb_base::LiarName;
use hb_base::limits::MOST_POSTS;
use net_script::LiarAt;
use script_fault::{KeyName, ListName, ScriptFault, Spot};
use serde_json::Value;
use std::alloc::Global;

// The liars of a scenario of n nodes: at most f, each at a node of its own, and each with a box of the cast.
#[tactic(auto, unfolding(crate::specs::Entries::liars_at))]
pub(crate) fn liars_at(
    alloc: Global,
    value: &Value,
    n: u8,
    f: u8,
    cast: &[LiarName],
) -> Result<Vec<LiarAt>, ScriptFault>
    requires { 1 ≤ n }
    ensures gives { Gives (λ liars. liars.items) result (liars_at n f cast.now (view value.now)) }
    ensures sound { IfOk result (λ liars. All (IsLiar n) liars.items) }
    ensures few { IfOk result (λ liars. length liars.items ≤ f) }
{
    let values = list_at(value, KeyName::Liars)?;
    let liars = read_entries::<LiarAt>(alloc, n, values)?;
    if liars.len() > f as usize {
        return Err(ScriptFault::TooManyLiars {
            named: liars.len() as u64,
            f,
        });
    }
    each_once(liars.as_slice())?;
    all_cast(cast, liars.as_slice())?;
    Ok(liars)
}

// Whether no liar's node is that of an earlier one. There are at most as many liars as nodes may be faulty.
fn each_once(liars: &[LiarAt]) -> Result<(), ScriptFault>
    ensures { Gives (λ x. x) result (each_once [] liars.now) }
{
    for (i, liar) in liars.iter().enumerate() {
        if names_node(&liars[..i], liar.node) {
            return Err(ScriptFault::LiarTwice { node: liar.node });
        }
    }
    Ok(())
}

fn names_node(liars: &[LiarAt], node: u8) -> bool
    ensures { result ≡ list_any (λ other. other.node == node) liars.now }
{
    liars.iter().any(|other| other.node == node)
}

// Whether the cast has a box for each liar, those before it served.
fn all_cast(cast: &[LiarName], liars: &[LiarAt]) -> Result<(), ScriptFault>
    ensures { Gives (λ x. x) result (all_cast cast.now [] liars.now) }
{
    for (i, liar) in liars.iter().enumerate() {
        if count_boxes(cast, &liar.name) < count_named(&liars[..i + 1], &liar.name) {
            return Err(ScriptFault::NoSuchLiar { name: liar.name });
        }
    }
    Ok(())
}

fn count_boxes(cast: &[LiarName], name: &LiarName) -> usize
    ensures { result ≡ count_by (λ other. bytes_eq other name.now) cast.now }
{
    cast.iter()
        .filter(|other| other.as_bytes() == name.as_bytes())
        .count()
}

fn count_named(liars: &[LiarAt], name: &LiarName) -> usize
    ensures { result ≡ count_by (λ other. bytes_eq other.name name.now) liars.now }
{
    liars
        .iter()
        .filter(|other| other.name.as_bytes() == name.as_bytes())
        .count()
}

impl Entry for LiarAt {
    ghost reads = { liar_at };

    ghost is_sound = { IsLiar };

    #[tactic(auto, unfolding(crate::specs::Entries::liar_at))]
    fn read(
        alloc: Global,
        n: u8,
        _earlier: &[LiarAt],
        index: u32,
        value: &Value,
    ) -> Result<LiarAt, ScriptFault> {
        let list = ListName::Liars;
        let spot = Spot { list, index };
        let most = u64::from(MOST_POSTS);
        check_entry(alloc, value, spot)?;
        let node = node_at(value, spot.at(KeyName::Node), n)?;
        let name = name_at(alloc, value, spot.at(KeyName::Name))?;
        let hears = number_or(most, value, spot.at(KeyName::Hears), 0, most)? as u32;
        Ok(LiarAt { node, name, hears })
    }
}
