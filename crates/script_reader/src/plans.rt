//! What happens to the disks of a run.
ghost use Rattle.std.specs.Prelude.{◌≡◌, ◌≤◌, ◌<◌, ◌+◌, ◌++◌, ℕ, true, IfOk, OnOk, length, map};
ghost use Rattle.std.specs.List.{All, flat_map, range_with_len};
ghost use Rattle.hb_base.specs.Limits.{most_nodes};
ghost use Rattle.hb_base.specs.NodeSet.{is_in};
ghost use Rattle.net_script.specs.Scenario.{planned};
ghost use Rattle.net_script.specs.Sound.{IsLiar};
ghost use Rattle.script_reader.specs.Bounds.{HasAtMost};
ghost use Rattle.net_script.specs.Sound.{nodes_of};
ghost use Rattle.script_reader.specs.Plans.{stops_of, faults_of, actor_plan, node_plans, plans_of};

use crate::lists::Lists;
use crate::stops::{CallAt, StopAt};
use disk_model::{Plan, Stop};
use hb_base::NodeSet;
use net_script::{ActorPlan, LiarAt};
use std::alloc::{AllocError, Global};

// The nodes of the liars.
#[tactic(auto, using(crate::proofs::Counts::none_marked, crate::proofs::Counts::one_more_marked))]
pub(crate) fn nodes_of(n: u8, liars: &[LiarAt]) -> NodeSet
    requires nodes { n ≤ most_nodes }
    requires known { All (IsLiar n) liars.now }
    ensures exact { result ≡ nodes_of liars.now }
    ensures known { (node : ℕ) → is_in result node ≡ true → node < n }
    ensures few { HasAtMost (length liars.now) result }
{
    let mut nodes = NodeSet::new();
    for liar in liars {
        nodes.add(liar.node);
    }
    nodes
}

// The plans of the actors of all nodes that don't lie, by node and then actor.
#[tactic(auto, unfolding(crate::specs::Plans::plans_of))]
pub(crate) fn plans_of(
    alloc: Global,
    n: u8,
    liars: &NodeSet,
    lists: &Lists,
) -> Result<Vec<ActorPlan>, AllocError>
    requires { n ≤ most_nodes }
    ensures { IfOk result (λ plans. map planned plans.items ≡ plans_of n liars.now lists.now.stops.items lists.now.faults.items) }
{
    let mut plans = Vec::new(alloc);
    for node in 0..n {
        add_node(&mut plans, n, node, liars, lists)?;
    }
    Ok(plans)
}

#[tactic(auto, unfolding(crate::specs::Plans::node_plans))]
fn add_node(
    plans: &mut Vec<ActorPlan>,
    n: u8,
    node: u8,
    liars: &NodeSet,
    lists: &Lists,
) -> Result<(), AllocError>
    requires { n ≤ most_nodes }
    ensures { OnOk result (map planned plans.new.items
        ≡ map planned plans.old.items ++ node_plans n liars.now lists.now.stops.items lists.now.faults.items node) }
{
    if liars.has(node) {
        return Ok(());
    }
    add_actors(plans, n, node, lists)
}

fn add_actors(plans: &mut Vec<ActorPlan>, n: u8, node: u8, lists: &Lists) -> Result<(), AllocError>
    requires { n ≤ most_nodes }
    ensures { OnOk result (map planned plans.new.items
        ≡ map planned plans.old.items
        ++ flat_map (actor_plan lists.now.stops.items lists.now.faults.items node) (range_with_len 0 (n + 1))) }
{
    for actor in 0..n + 1 {
        add_actor(plans, node, actor, lists)?;
    }
    Ok(())
}

#[tactic(auto, unfolding(crate::specs::Plans::actor_plan))]
fn add_actor(
    plans: &mut Vec<ActorPlan>,
    node: u8,
    actor: u8,
    lists: &Lists,
) -> Result<(), AllocError>
    ensures { OnOk result (map planned plans.new.items
        ≡ map planned plans.old.items ++ actor_plan lists.now.stops.items lists.now.faults.items node actor) }
{
    let alloc = *plans.allocator();
    let stops = stops_of(alloc, lists.stops.as_slice(), node, actor)?;
    let faults = faults_of(alloc, lists.faults.as_slice(), node, actor)?;
    if stops.is_empty() && faults.is_empty() {
        return Ok(());
    }
    let plan = Plan { stops, faults };
    plans.push(ActorPlan { node, actor, plan })?;
    Ok(())
}

fn stops_of(alloc: Global, stops: &[StopAt], node: u8, actor: u8) -> Result<Vec<Stop>, AllocError>
    ensures { IfOk result (λ found. found.items ≡ stops_of stops.now node actor) }
{
    stops
        .iter()
        .filter(|stop| stop.at.is_of(node, actor))
        .map(|stop| stop.stop())
        .collect(alloc)
}

fn faults_of(alloc: Global, faults: &[CallAt], node: u8, actor: u8) -> Result<Vec<u32>, AllocError>
    ensures { IfOk result (λ found. found.items ≡ faults_of faults.now node actor) }
{
    faults
        .iter()
        .filter(|fault| fault.is_of(node, actor))
        .map(|fault| fault.call)
        .collect(alloc)
}
