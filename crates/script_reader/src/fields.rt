//! What stands at a place of a scenario.
ghost use Rattle.std.specs.Prelude.{◌≡◌, ◌<◌, ◌≤◌, IfOk, IfSome, option_map};
ghost use Rattle.serde_json.specs.View.{view, items_view, members_view};
ghost use Rattle.script_reader.specs.Fault.{Gives};
ghost use Rattle.script_fault.specs.Place.{key_text, required_keys};
ghost use Rattle.script_reader.specs.Fields.{found, have_all, is_one_of, is_known, no_other, entry_at, required, number_of, number_at, number_if};
ghost use Rattle.script_reader.specs.Fields.{number_or, node_at, node_if, node_or_any, text_of, text_at};

use hb_base::Bytes;
use script_fault::{KeyName, ListName, Place, ScriptFault, Spot};
use serde_json::{Map, Value};
use std::alloc::Global;

// Whether a value is an object that has the keys of an entry of this list, and no others.
#[tactic(auto, unfolding(crate::specs::Fields::entry_at))]
pub(crate) fn check_entry(alloc: Global, value: &Value, spot: Spot) -> Result<(), ScriptFault>
    ensures { Gives (λ x. x) result (entry_at spot.list spot.index (view value.now)) }
{
    let Some(members) = value.as_object() else {
        return Err(ScriptFault::WrongKind {
            place: spot.at(KeyName::Itself),
        });
    };
    have_all(value, spot, spot.list.required_keys())?;
    no_other(alloc, members, spot)
}

fn have_all(value: &Value, spot: Spot, keys: &[KeyName]) -> Result<(), ScriptFault>
    ensures { Gives (λ x. x) result (have_all spot.list spot.index keys.now (view value.now)) }
{
    for key in keys {
        let place = spot.at(*key);
        if found(value, place).is_none() {
            return Err(ScriptFault::Missing { place });
        }
    }
    Ok(())
}

fn no_other(alloc: Global, members: &Map<String, Value>, spot: Spot) -> Result<(), ScriptFault>
    ensures { Gives (λ x. x) result (no_other spot.list spot.index (members_view members.now.entries)) }
{
    for (key, _) in members.iter() {
        if !is_known(spot.list, key.as_str()) {
            let Spot { list, index } = spot;
            let key = Bytes::copy(alloc, key.as_bytes())?;
            return Err(ScriptFault::Unknown { list, index, key });
        }
    }
    Ok(())
}

fn is_known(list: ListName, text: &str) -> bool
    ensures { result ≡ is_known list text.now }
{
    is_one_of(list.required_keys(), text) || is_one_of(list.optional_keys(), text)
}

fn is_one_of(keys: &[KeyName], text: &str) -> bool
    ensures { result ≡ is_one_of keys.now text.now }
{
    for key in keys {
        if text == key.text() {
            return true;
        }
    }
    false
}

// What an object has at the key of a place.
pub(crate) fn found(value: &Value, place: Place) -> Option<&Value>
    ensures { option_map (λ v. view v.now) result ≡ found place (view value.now) }
{
    value.get(place.key.text())
}

// The same, where the key must be there.
fn required(value: &Value, place: Place) -> Result<&Value, ScriptFault>
    ensures { Gives (λ v. view v.now) result (required place (view value.now)) }
{
    found(value, place).ok_or(ScriptFault::Missing { place })
}

// A whole number from low to high.
#[tactic(auto, unfolding(crate::specs::Fields::number_of))]
fn number_of(value: &Value, place: Place, low: u64, high: u64) -> Result<u64, ScriptFault>
    ensures gives { Gives (λ n. n) result (number_of place low high (view value.now)) }
    ensures bounds { IfOk result (λ n. (low ≤ n) × (n ≤ high)) }
{
    let Some(number) = value.as_u64() else {
        return Err(ScriptFault::NotNumber { place });
    };
    if low <= number && number <= high {
        Ok(number)
    } else {
        Err(ScriptFault::OutOfRange {
            place,
            value: number,
        })
    }
}

// The whole number from low to high that an object must have at a place.
#[tactic(auto, unfolding(crate::specs::Fields::number_at))]
pub(crate) fn number_at(
    value: &Value,
    place: Place,
    low: u64,
    high: u64,
) -> Result<u64, ScriptFault>
    ensures gives { Gives (λ n. n) result (number_at place low high (view value.now)) }
    ensures bounds { IfOk result (λ n. (low ≤ n) × (n ≤ high)) }
{
    let value = required(value, place)?;
    number_of(value, place, low, high)
}

// The same, where another number stands for one that is not there.
#[tactic(auto, unfolding(crate::specs::Fields::number_or))]
pub(crate) fn number_or(
    usual: u64,
    value: &Value,
    place: Place,
    low: u64,
    high: u64,
) -> Result<u64, ScriptFault>
    requires { (low ≤ usual) × (usual ≤ high) }
    ensures gives { Gives (λ n. n) result (number_or usual place low high (view value.now)) }
    ensures bounds { IfOk result (λ n. (low ≤ n) × (n ≤ high)) }
{
    match found(value, place) {
        None => Ok(usual),
        Some(value) => number_of(value, place, low, high),
    }
}

// The node of n that an entry names.
#[tactic(auto, unfolding(crate::specs::Fields::node_at))]
pub(crate) fn node_at(value: &Value, place: Place, n: u8) -> Result<u8, ScriptFault>
    requires { 1 ≤ n }
    ensures gives { Gives (λ node. node) result (node_at place n (view value.now)) }
    ensures below { IfOk result (λ node. node < n) }
{
    let node = number_at(value, place, 0, u64::from(n - 1))?;
    Ok(node as u8)
}

// A node of n, where one is named.
#[tactic(auto, unfolding(crate::specs::Fields::node_or_any))]
pub(crate) fn node_or_any(value: &Value, place: Place, n: u8) -> Result<Option<u8>, ScriptFault>
    requires { 1 ≤ n }
    ensures gives { Gives (λ node. node) result (node_or_any place n (view value.now)) }
    ensures below { IfOk result (λ named. IfSome named (λ node. node < n)) }
{
    match found(value, place) {
        None => Ok(None),
        Some(value) => {
            let node = number_of(value, place, 0, u64::from(n - 1))?;
            Ok(Some(node as u8))
        }
    }
}

// The text that a value must be.
#[tactic(auto, unfolding(crate::specs::Fields::text_of))]
pub(crate) fn text_of(value: &Value, place: Place) -> Result<&str, ScriptFault>
    ensures { Gives (λ text. text.now) result (text_of place (view value.now)) }
{
    value.as_str().ok_or(ScriptFault::WrongKind { place })
}

// The text that an object must have at a place.
#[tactic(auto, unfolding(crate::specs::Fields::text_at))]
pub(crate) fn text_at(value: &Value, place: Place) -> Result<&str, ScriptFault>
    ensures { Gives (λ text. text.now) result (text_at place (view value.now)) }
{
    let value = required(value, place)?;
    text_of(value, place)
}
