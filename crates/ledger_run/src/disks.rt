//! The disks of the actors.
ghost use Rattle.std.specs.Prelude.{◌≡◌, ◌≤◌, ◌==◌, ◌&&◌, [], ◌++◌, IfOk, OnOk, length, if◌then◌else◌};
ghost use Rattle.hb_base.specs.Limits.{most_stops};
ghost use Rattle.disk_model.specs.Memory.{new_disk};
ghost use Rattle.hb_rules.specs.Report.{stops_of, faults_of};
ghost use Rattle.ledger_run.specs.Team.{planned_stops};

use disk_model::{MemoryDisk, Plan, Stop};
use net_script::{ActorPlan, Script};
use std::alloc::{AllocError, Global};

// The disk of an actor, which is empty and on, and meets what the script plans for it.
pub(crate) fn disk_of(
    alloc: Global,
    script: &Script,
    node: u8,
    actor: u8,
) -> Result<MemoryDisk, AllocError>
    requires few { stops_of script.now node actor ≤ most_stops }
    ensures { IfOk result (λ disk. disk ≡ new_disk (planned_stops script.now node actor) (faults_of script.now node actor)) }
{
    let plan = plan_of(alloc, script, node, actor)?;
    Ok(MemoryDisk::new(alloc, plan))
}

// What the script plans for the disk of an actor.
fn plan_of(alloc: Global, script: &Script, node: u8, actor: u8) -> Result<Plan, AllocError>
    ensures stops { IfOk result (λ plan. plan.stops.items ≡ planned_stops script.now node actor) }
    ensures faults { IfOk result (λ plan. plan.faults.items ≡ faults_of script.now node actor) }
{
    let mut stops = Vec::new(alloc);
    let mut faults = Vec::new(alloc);
    for entry in &script.plans {
        add_planned(entry, node, actor, &mut stops, &mut faults)?;
    }
    Ok(Plan { stops, faults })
}

// Adds what an entry plans, if it is of the actor.
fn add_planned(
    entry: &ActorPlan,
    node: u8,
    actor: u8,
    stops: &mut Vec<Stop>,
    faults: &mut Vec<u32>,
) -> Result<(), AllocError>
    ensures stops { OnOk result (stops.new.items ≡ stops.old.items ++ (if (entry.now.node == node) && (entry.now.actor == actor) then entry.now.plan.stops.items else [])) }
    ensures faults { OnOk result (faults.new.items ≡ faults.old.items ++ (if (entry.now.node == node) && (entry.now.actor == actor) then entry.now.plan.faults.items else [])) }
{
    if entry.node == node && entry.actor == actor {
        stops.extend_from_slice(&entry.plan.stops)?;
        faults.extend_from_slice(&entry.plan.faults)?;
    }
    Ok(())
}
