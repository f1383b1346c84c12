//! The keys of a scenario that hold numbers, and its order.
ghost use Rattle.std.specs.Prelude.{◌≡◌, ◌≤◌, ◌^◌, ◌-◌, ◌*◌, ◌<◌, IfOk};
ghost use Rattle.serde_json.specs.View.{view};
ghost use Rattle.hb_base.specs.Limits.{most_nodes, most_faulty, most_epochs};
ghost use Rattle.hb_base.specs.Numbers.{IsBetween};
ghost use Rattle.script_reader.specs.Fault.{Gives};
ghost use Rattle.script_reader.specs.Reading.{sizes_at, with_usual, head_at};
ghost use Rattle.script_reader.specs.Bounds.{AreBounded};

use crate::fields::{check_entry, number_at, number_or};
use crate::words::order_or_fifo;
use hb_base::limits::{
    LATEST_VERSION, MOST_BATCH, MOST_EPOCHS, MOST_FAULTY, MOST_NODES, MOST_ROUNDS, MOST_WORKERS,
};
use net_script::Order;
use script_fault::{KeyName, ScriptFault, Spot};
use serde_json::Value;
use std::alloc::Global;

// The numbers of a scenario.
#[derive(Clone, Copy)]
pub(crate) struct Sizes {
    pub(crate) nodes: u8,
    pub(crate) faulty: u8,
    pub(crate) epochs: u8,
    pub(crate) rounds: u8,
    pub(crate) batch: u8,
    pub(crate) seed: u64,
    pub(crate) version: u8,
    pub(crate) workers: u8,
}

// What a scenario says besides its lists.
#[derive(Clone, Copy)]
pub(crate) struct Head {
    pub(crate) sizes: Sizes,
    pub(crate) order: Order,
}

#[tactic(auto, unfolding(crate::specs::Reading::sizes_at))]
fn sizes_at(value: &Value) -> Result<Sizes, ScriptFault>
    ensures gives { Gives (λ sizes. sizes) result (sizes_at (view value.now)) }
    ensures bounded { IfOk result AreBounded }
{
    let top = Spot::top();
    let nodes = number_at(value, top.at(KeyName::Nodes), 1, u64::from(MOST_NODES))? as u8;
    let faulty = number_at(value, top.at(KeyName::Faulty), 0, u64::from(MOST_FAULTY))? as u8;
    let epochs = number_at(value, top.at(KeyName::Epochs), 1, u64::from(MOST_EPOCHS))? as u8;
    with_usual(value, nodes, faulty, epochs)
}

// These numbers, and those that may be missing.
#[tactic(auto, unfolding(crate::specs::Reading::with_usual))]
fn with_usual(value: &Value, nodes: u8, faulty: u8, epochs: u8) -> Result<Sizes, ScriptFault>
    requires nodes { IsBetween 1 most_nodes nodes }
    requires faulty { IsBetween 0 most_faulty faulty }
    requires epochs { IsBetween 1 most_epochs epochs }
    ensures gives { Gives (λ sizes. sizes) result (with_usual nodes faulty epochs (view value.now)) }
    ensures bounded { IfOk result AreBounded }
{
    let top = Spot::top();
    let most_rounds = u64::from(MOST_ROUNDS);
    let most_batch = u64::from(MOST_BATCH);
    let latest = u64::from(LATEST_VERSION);
    let most_workers = u64::from(MOST_WORKERS);
    let rounds = number_or(most_rounds, value, top.at(KeyName::Rounds), 1, most_rounds)? as u8;
    let batch = number_or(most_batch, value, top.at(KeyName::Batch), 1, most_batch)? as u8;
    let seed = number_or(0, value, top.at(KeyName::Seed), 0, u64::MAX)?;
    let version = number_or(1, value, top.at(KeyName::Version), 1, latest)? as u8;
    let workers = number_or(0, value, top.at(KeyName::Workers), 0, most_workers)? as u8;
    Ok(Sizes {
        nodes,
        faulty,
        epochs,
        rounds,
        batch,
        seed,
        version,
        workers,
    })
}

// What comes before the lists: the keys, the numbers and the order, and whether there are more than three times as many
// nodes as may be faulty.
#[tactic(auto, unfolding(crate::specs::Reading::head_at))]
pub(crate) fn head_at(alloc: Global, value: &Value) -> Result<Head, ScriptFault>
    ensures gives { Gives (λ head. head) result (head_at (view value.now)) }
    ensures bounded { IfOk result (λ head. AreBounded head.sizes) }
    ensures enough { IfOk result (λ head. 3 * head.sizes.faulty < head.sizes.nodes) }
{
    let top = Spot::top();
    check_entry(alloc, value, top)?;
    let sizes = sizes_at(value)?;
    let order = order_or_fifo(alloc, value, top.at(KeyName::Order))?;
    if u16::from(sizes.nodes) <= 3 * u16::from(sizes.faulty) {
        return Err(ScriptFault::TooFewNodes {
            n: sizes.nodes,
            f: sizes.faulty,
        });
    }
    Ok(Head { sizes, order })
}
