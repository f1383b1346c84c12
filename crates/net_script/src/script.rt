ghost use Rattle.std.specs.Prelude.{◌≡◌, IfOk, map};
ghost use Rattle.net_script.specs.Scenario.{told, planned};

use disk_model::{Plan, Stop};
use hb_base::{Bytes, Config, LiarName};
use std::alloc::{AllocError, Global};

/// In which order one thread takes the posts that are under way.
#[derive(Clone, Copy, Debug, PartialEq, Eq)]
pub enum Order {
    /// The first first.
    Fifo,
    /// As drawn from the seed.
    Mixed,
}

/// A transaction that is submitted at a node.
#[derive(Debug, Drop)]
pub struct Submit {
    /// The node, below n.
    pub node: u8,
    /// The transaction, 1 to 256 bytes.
    pub tx: Bytes,
}

/// A node that lies, until it has heard so many posts and is dropped.
#[derive(Clone, Copy, Debug, PartialEq, Eq)]
pub struct LiarAt {
    /// The node, below n.
    pub node: u8,
    /// The name of its kind, by which the cast knows it.
    pub name: LiarName,
    /// How many posts it hears, 0 to 4,194,304.
    pub hears: u32,
}

/// How a post from one node is delivered to an actor of another.
#[derive(Clone, Copy, Debug, PartialEq, Eq)]
pub enum Shape {
    /// One delivery.
    Once,
    /// Two deliveries.
    Twice,
    /// One delivery, held back until the actor has nothing else to receive.
    Late,
    /// No delivery.
    Drop,
}

/// A rule on posts between nodes. It speaks of the posts from the node `from` to the node `to`, where None is any node,
/// whose number modulo `every` is `at`.
#[derive(Clone, Copy, Debug, PartialEq, Eq)]
pub struct Link {
    /// The node that posts, below n, or any.
    pub from: Option<u8>,
    /// The node that the post goes to, below n, or any.
    pub to: Option<u8>,
    /// Of how many posts the rule speaks of one, 1 to 65,536. With 0, which no scenario has, it speaks of none.
    pub every: u32,
    /// The remainder of the posts of which it speaks, below `every`.
    pub at: u32,
    /// How such a post is delivered.
    pub shape: Shape,
}

/// What is to happen to the disk of an actor.
#[derive(Debug, Drop)]
pub struct ActorPlan {
    /// The node, below n. It doesn't lie.
    pub node: u8,
    /// The actor, 0 to n: a lane below n, the desk at n.
    pub actor: u8,
    /// Its stops and faults, at most four of each and not none of both, at calls 1 to 1,000,000.
    pub plan: Plan,
}

/// What a run is to do.
#[derive(Debug, Drop)]
pub struct Script {
    /// The numbers of the run, and the set of the nodes that lie.
    pub config: Config,
    /// How many threads work for each node, 0 to 4. With 0 one thread drives the whole run.
    pub workers: u8,
    /// The order in which that thread takes the posts that are under way.
    pub order: Order,
    /// The transactions in the order in which they are submitted.
    pub submit: Vec<Submit>,
    /// The liars in the scenario's order, at most f, and at most one for a node.
    pub liars: Vec<LiarAt>,
    /// The rules on posts, at most 256. The first that fits a post decides.
    pub links: Vec<Link>,
    /// One entry for each actor of a correct node whose disk stops or fails, by node and then actor.
    pub plans: Vec<ActorPlan>,
}

impl Script {
    /// An equal script.
    pub fn copy(&self, alloc: Global) -> Result<Script, AllocError>
        ensures { IfOk result (λ script. told script ≡ told self.now) }
    {
        let submit = copy_submit(alloc, self.submit.as_slice())?;
        let liars = Vec::from_slice(alloc, self.liars.as_slice())?;
        let links = Vec::from_slice(alloc, self.links.as_slice())?;
        let plans = copy_plans(alloc, self.plans.as_slice())?;
        Ok(Script {
            config: self.config,
            workers: self.workers,
            order: self.order,
            submit,
            liars,
            links,
            plans,
        })
    }
}

fn copy_submit(alloc: Global, submit: &[Submit]) -> Result<Vec<Submit>, AllocError>
    ensures { IfOk result (λ copy. copy.items ≡ submit.now) }
{
    let mut copy = Vec::with_capacity(alloc, submit.len())?;
    for Submit { node, tx } in submit {
        let tx = tx.clone()?;
        copy.push(Submit { node: *node, tx })?;
    }
    Ok(copy)
}

fn copy_plans(alloc: Global, plans: &[ActorPlan]) -> Result<Vec<ActorPlan>, AllocError>
    ensures { IfOk result (λ copy. map planned copy.items ≡ map planned plans.now) }
{
    let mut copy = Vec::with_capacity(alloc, plans.len())?;
    for entry in plans {
        copy.push(copy_plan(alloc, entry)?)?;
    }
    Ok(copy)
}

fn copy_plan(alloc: Global, entry: &ActorPlan) -> Result<ActorPlan, AllocError>
    ensures { IfOk result (λ copy. planned copy ≡ planned entry.now) }
{
    let stops = Vec::from_slice(alloc, entry.plan.stops.as_slice())?;
    let faults = Vec::from_slice(alloc, entry.plan.faults.as_slice())?;
    Ok(ActorPlan {
        node: entry.node,
        actor: entry.actor,
        plan: Plan { stops, faults },
    })
}
