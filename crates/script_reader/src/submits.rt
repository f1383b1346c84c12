//! The key `submit`.
ghost use Rattle.std.specs.Prelude.{◌≡◌, ◌≤◌, IfOk};
ghost use Rattle.std.specs.List.{All};
ghost use Rattle.serde_json.specs.View.{view};
ghost use Rattle.script_reader.specs.Fault.{Gives};
ghost use Rattle.net_script.specs.Sound.{IsSubmit};
ghost use Rattle.script_reader.specs.Entries.{submit_at, submits_at};

use crate::entries::{Entry, list_at, read_entries};
use crate::fields::{check_entry, node_at};
use crate::words::transaction_at;
use net_script::Submit;
use script_fault::{KeyName, ListName, ScriptFault, Spot};
use serde_json::Value;
use std::alloc::Global;

#[tactic(auto, unfolding(crate::specs::Entries::submits_at))]
pub(crate) fn submits_at(alloc: Global, value: &Value, n: u8) -> Result<Vec<Submit>, ScriptFault>
    requires { 1 ≤ n }
    ensures gives { Gives (λ submit. submit.items) result (submits_at n (view value.now)) }
    ensures sound { IfOk result (λ submit. All (IsSubmit n) submit.items) }
{
    let values = list_at(value, KeyName::Submit)?;
    read_entries(alloc, n, values)
}

impl Entry for Submit {
    ghost reads = { submit_at };

    ghost is_sound = { IsSubmit };

    #[tactic(auto, unfolding(crate::specs::Entries::submit_at))]
    fn read(
        alloc: Global,
        n: u8,
        _earlier: &[Submit],
        index: u32,
        value: &Value,
    ) -> Result<Submit, ScriptFault> {
        let list = ListName::Submit;
        let spot = Spot { list, index };
        check_entry(alloc, value, spot)?;
        let node = node_at(value, spot.at(KeyName::Node), n)?;
        let tx = transaction_at(alloc, value, spot.at(KeyName::Tx))?;
        Ok(Submit { node, tx })
    }
}
