//! The keys `stops` and `faults`.
ghost use Rattle.std.specs.Prelude.{◌≡◌, ◌≤◌, IfOk, count_by};
ghost use Rattle.std.specs.List.{All};
ghost use Rattle.serde_json.specs.View.{view};
ghost use Rattle.script_reader.specs.Fault.{Gives};
ghost use Rattle.script_reader.specs.Bounds.{IsStop, IsCall};
ghost use Rattle.script_reader.specs.Entries.{is_call_of, is_stop_of, stop_of, room_for, call_at, stop_at, stops_at, fault_at, faults_at};

use crate::entries::{Entry, list_at, read_entries};
use crate::fields::{check_entry, node_at, number_at};
use crate::words::leave_at;
use disk_model::{Leave, Stop};
use hb_base::limits::{MOST_FAULTS, MOST_STOPS};
use script_fault::{KeyName, ListName, ScriptFault, Spot};
use serde_json::Value;
use std::alloc::Global;

// A device call of an actor's disk.
#[derive(Clone, Copy)]
pub(crate) struct CallAt {
    pub(crate) node: u8,
    pub(crate) actor: u8,
    pub(crate) call: u32,
}

impl CallAt {
    pub(crate) fn is_of(&self, node: u8, actor: u8) -> bool
        ensures { result ≡ is_call_of node actor self.now }
    {
        self.node == node && self.actor == actor
    }
}

// A device call at which an actor's disk stops.
#[derive(Clone, Copy)]
pub(crate) struct StopAt {
    pub(crate) at: CallAt,
    pub(crate) leave: Leave,
}

impl StopAt {
    // The stop, as the disk is told of it.
    pub(crate) fn stop(&self) -> Stop
        ensures { result ≡ stop_of self.now }
    {
        Stop {
            call: self.at.call,
            leave: self.leave,
        }
    }
}

#[tactic(auto, unfolding(crate::specs::Entries::stops_at))]
pub(crate) fn stops_at(alloc: Global, value: &Value, n: u8) -> Result<Vec<StopAt>, ScriptFault>
    requires { 1 ≤ n }
    ensures gives { Gives (λ stops. stops.items) result (stops_at n (view value.now)) }
    ensures sound { IfOk result (λ stops. All (IsStop n) stops.items) }
{
    let values = list_at(value, KeyName::Stops)?;
    read_entries(alloc, n, values)
}

#[tactic(auto, unfolding(crate::specs::Entries::faults_at))]
pub(crate) fn faults_at(alloc: Global, value: &Value, n: u8) -> Result<Vec<CallAt>, ScriptFault>
    requires { 1 ≤ n }
    ensures gives { Gives (λ faults. faults.items) result (faults_at n (view value.now)) }
    ensures sound { IfOk result (λ faults. All (IsCall n) faults.items) }
{
    let values = list_at(value, KeyName::Faults)?;
    read_entries(alloc, n, values)
}

// No actor has more than four entries, so that the earlier ones are at most 1,088, however long the list is.
impl Entry for StopAt {
    ghost reads = { stop_at };

    ghost is_sound = { IsStop };

    #[tactic(auto, unfolding(crate::specs::Entries::stop_at))]
    fn read(
        alloc: Global,
        n: u8,
        earlier: &[StopAt],
        index: u32,
        value: &Value,
    ) -> Result<StopAt, ScriptFault> {
        let list = ListName::Stops;
        let spot = Spot { list, index };
        check_entry(alloc, value, spot)?;
        let at = call_at(value, spot, n)?;
        let leave = leave_at(alloc, value, spot.at(KeyName::Leave))?;
        check_room(MOST_STOPS, count_stops(earlier, at.node, at.actor), spot)?;
        Ok(StopAt { at, leave })
    }
}

impl Entry for CallAt {
    ghost reads = { fault_at };

    ghost is_sound = { IsCall };

    #[tactic(auto, unfolding(crate::specs::Entries::fault_at))]
    fn read(
        alloc: Global,
        n: u8,
        earlier: &[CallAt],
        index: u32,
        value: &Value,
    ) -> Result<CallAt, ScriptFault> {
        let list = ListName::Faults;
        let spot = Spot { list, index };
        check_entry(alloc, value, spot)?;
        let at = call_at(value, spot, n)?;
        check_room(MOST_FAULTS, count_faults(earlier, at.node, at.actor), spot)?;
        Ok(at)
    }
}

// The device call that an entry names.
#[tactic(auto, unfolding(crate::specs::Entries::call_at))]
fn call_at(value: &Value, spot: Spot, n: u8) -> Result<CallAt, ScriptFault>
    requires { 1 ≤ n }
    ensures gives { Gives (λ at. at) result (call_at spot.list spot.index n (view value.now)) }
    ensures sound { IfOk result (IsCall n) }
{
    let node = node_at(value, spot.at(KeyName::Node), n)?;
    let actor = number_at(value, spot.at(KeyName::Actor), 0, u64::from(n))? as u8;
    let call = number_at(value, spot.at(KeyName::Call), 1, 1_000_000)? as u32;
    Ok(CallAt { node, actor, call })
}

// Whether an actor with so many entries may have one more.
fn check_room(most: u8, count: usize, spot: Spot) -> Result<(), ScriptFault>
    ensures { Gives (λ x. x) result (room_for most spot.list spot.index count) }
{
    if count < most as usize {
        return Ok(());
    }
    Err(ScriptFault::OutOfRange {
        place: spot.at(KeyName::Actor),
        value: u64::from(most) + 1,
    })
}

fn count_stops(stops: &[StopAt], node: u8, actor: u8) -> usize
    ensures { result ≡ count_by (is_stop_of node actor) stops.now }
{
    stops
        .iter()
        .filter(|stop| stop.at.is_of(node, actor))
        .count()
}

fn count_faults(faults: &[CallAt], node: u8, actor: u8) -> usize
    ensures { result ≡ count_by (is_call_of node actor) faults.now }
{
    faults
        .iter()
        .filter(|fault| fault.is_of(node, actor))
        .count()
}
