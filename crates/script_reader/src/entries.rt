//! The entries of a list, one after another.
ghost use Rattle.std.specs.Prelude.{◌≡◌, ◌≤◌, ℕ, List, Result, [], IfOk};
ghost use Rattle.std.specs.List.{All};
ghost use Rattle.serde_json.specs.Data.{Data};
ghost use Rattle.serde_json.specs.View.{view, items_view};
ghost use Rattle.script_fault.specs.declared.fault.ScriptFault.{ScriptFault};
ghost use Rattle.script_reader.specs.Fault.{Gives};
ghost use Rattle.script_reader.specs.Fields.{list_at};
ghost use Rattle.script_reader.specs.Entries.{read_entries};

use crate::fields::found;
use script_fault::{KeyName, ScriptFault, Spot};
use serde_json::Value;
use std::alloc::Global;

// What an entry of a list of a scenario is read as.
pub(crate) trait Entry: Sized + Drop {
    // The entry that a value is, in a scenario of so many nodes, behind these entries of its list, at this index.
    ghost reads: { ℕ → List Self → ℕ → Data → Result Self ScriptFault };

    // What holds of each entry, in a scenario of so many nodes.
    ghost is_sound: { ℕ → Self → Type 0 };

    fn read(
        alloc: Global,
        n: u8,
        earlier: &[Self],
        index: u32,
        value: &Value,
    ) -> Result<Self, ScriptFault>
        requires { 1 ≤ n }
        ensures gives { Gives (λ x. x) result (reads n earlier.now index (view value.now)) }
        ensures sound { IfOk result (is_sound n) };
}

#[tactic(auto, unfolding(crate::specs::Entries::entries_from))]
pub(crate) fn read_entries<E: Entry>(
    alloc: Global,
    n: u8,
    values: &[Value],
) -> Result<Vec<E>, ScriptFault>
    requires { 1 ≤ n }
    ensures gives { Gives (λ entries. entries.items) result (read_entries (E.reads n) (items_view values.now)) }
    ensures sound { IfOk result (λ entries. All (E.is_sound n) entries.items) }
{
    let mut entries = Vec::new(alloc);
    let mut index = 0u32;
    for value in values {
        let entry = E::read(alloc, n, entries.as_slice(), index, value)?;
        entries.push(entry)?;
        index = index.saturating_add(1);
    }
    Ok(entries)
}

// The list at a key of the scenario, empty where the key is not there.
#[tactic(auto, unfolding(crate::specs::Fields::list_at))]
pub(crate) fn list_at(value: &Value, key: KeyName) -> Result<&[Value], ScriptFault>
    ensures { Gives (λ values. items_view values.now) result (list_at key (view value.now)) }
{
    let place = Spot::top().at(key);
    match found(value, place) {
        None => Ok(&[]),
        Some(value) => match value.as_array() {
            Some(list) => Ok(list.as_slice()),
            None => Err(ScriptFault::WrongKind { place }),
        },
    }
}
