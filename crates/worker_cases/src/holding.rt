//! Schedules that no run on one thread can have: gates hold actors of node 0 until others have entered. Another gate sees in
//! which order a worker serves the lanes of a node.

use crate::calls::{Answer, Host, check_any, check_text, run_with};
use crate::texts::{FOUR, text_without, with_workers};
use hb_base::Gate;
use std::alloc::{AllocError, Global};
use std::sync::atomic::{AtomicU64, Ordering};
use std::test::Fail;
use std::thread;

// How often a hold looks before it ends by itself.
const MOST_LOOKS: u32 = 2_000_000_000;

// Holds whoever calls until it is free, or too many looks were made, which is counted.
fn hold<F: Fn() -> bool>(given_up: &AtomicU64, is_free: &F)
    requires { F.IsAlwaysCallable is_free.now }
{
    for _look in 0..MOST_LOOKS {
        if is_free() {
            return;
        }
        thread::yield_now();
    }
    given_up.fetch_add(1, Ordering::SeqCst);
}

// Counts an entry, and tells whether it is the first.
fn is_first(count: &AtomicU64) -> bool {
    count.fetch_add(1, Ordering::SeqCst) == 0
}

fn is_at_least(count: &AtomicU64, least: u64) -> bool {
    count.load(Ordering::SeqCst) >= least
}

// Runs the four nodes through this gate, with no liars and so many workers at each node.
fn run_four<G: Gate>(
    rt: &impl Host,
    alloc: Global,
    workers: u8,
    gate: &G,
) -> Result<Answer, AllocError> {
    let scenario = with_workers(alloc, FOUR, "", workers)?;
    run_with(rt, alloc, scenario.as_str(), Vec::new(alloc), gate)
}

// Checks that the batch of node 0 is in no ledger, its own among them.
fn check_without_node_0(
    rt: &impl Host,
    alloc: Global,
    answer: &Answer,
    name: &str,
) -> Result<(), AllocError> {
    let want = text_without(alloc, 0)?;
    check_text(rt, answer, 0, want.as_str(), name);
    check_any(rt, alloc, answer, &[0], name)
}

// How often the desks of nodes 1, 2 and 3 have entered.
#[derive(Drop)]
struct Desks {
    first: AtomicU64,
    second: AtomicU64,
    third: AtomicU64,
}

impl Desks {
    fn new() -> Desks {
        Desks {
            first: AtomicU64::new(0),
            second: AtomicU64::new(0),
            third: AtomicU64::new(0),
        }
    }

    fn note(&self, node: u8, actor: u8) {
        match (node, actor) {
            (1, 4) => {
                self.first.fetch_add(1, Ordering::SeqCst);
            }
            (2, 4) => {
                self.second.fetch_add(1, Ordering::SeqCst);
            }
            (3, 4) => {
                self.third.fetch_add(1, Ordering::SeqCst);
            }
            _ => {}
        }
    }

    // While lane 0 of node 0 is held, nobody has anything of its broadcast. Each of these desks then hears what its lanes 1, 2
    // and 3 have delivered and decided, says that it wants no more, and hears that lane 0 has decided 0: seven posts.
    fn have_closed(&self) -> bool {
        is_at_least(&self.first, 7) && is_at_least(&self.second, 7) && is_at_least(&self.third, 7)
    }
}

// Holds lane 0 of node 0 at its first entry until lane 1 has entered and the other nodes have closed the epoch, and lane 1
// until lane 0 has entered. It counts the entries of both, and the holds that have ended by themselves.
#[derive(Drop)]
struct LateLane {
    lane_0: AtomicU64,
    lane_1: AtomicU64,
    desks: Desks,
    given_up: AtomicU64,
}

impl Gate for LateLane {
    fn enter(&self, node: u8, actor: u8) {
        self.desks.note(node, actor);
        if node == 0 && actor == 0 && is_first(&self.lane_0) {
            hold(
                &self.given_up,
                &|| is_at_least(&self.lane_1, 1) && self.desks.have_closed(),
            );
        }
        if node == 0 && actor == 1 && is_first(&self.lane_1) {
            hold(&self.given_up, &|| is_at_least(&self.lane_0, 1));
        }
    }
}

// The batch of node 0 is in no ledger, its own among them.
#[test]
fn lane_0_is_late(rt: HostRuntime) -> Result<(), Fail> {
    let gate = LateLane {
        lane_0: AtomicU64::new(0),
        lane_1: AtomicU64::new(0),
        desks: Desks::new(),
        given_up: AtomicU64::new(0),
    };
    let answer = run_four(&rt, rt.alloc(), 4, &gate)?;
    assert!(rt; gate.given_up.load(Ordering::SeqCst) == 0);
    check_without_node_0(&rt, rt.alloc(), &answer, "lane 0 is late")?;
    Ok(())
}

// Holds lane 0 of node 0 at its first entry until the other nodes have closed the epoch, and counts the entries of other actors
// of node 0 meanwhile.
#[derive(Drop)]
struct LateNode {
    entered: AtomicU64,
    freed: AtomicU64,
    others: AtomicU64,
    desks: Desks,
    given_up: AtomicU64,
}

impl LateNode {
    fn is_holding(&self) -> bool {
        is_at_least(&self.entered, 1) && !is_at_least(&self.freed, 1)
    }
}

impl Gate for LateNode {
    fn enter(&self, node: u8, actor: u8) {
        self.desks.note(node, actor);
        if node == 0 && actor != 0 && self.is_holding() {
            self.others.fetch_add(1, Ordering::SeqCst);
        }
        if node == 0 && actor == 0 && is_first(&self.entered) {
            hold(&self.given_up, &|| self.desks.have_closed());
            self.freed.fetch_add(1, Ordering::SeqCst);
        }
    }
}

// With one worker at each node nobody serves node 0 while that worker is held, and those of the other nodes go on.
#[test]
fn one_worker_for_each_node(rt: HostRuntime) -> Result<(), Fail> {
    let gate = LateNode {
        entered: AtomicU64::new(0),
        freed: AtomicU64::new(0),
        others: AtomicU64::new(0),
        desks: Desks::new(),
        given_up: AtomicU64::new(0),
    };
    let answer = run_four(&rt, rt.alloc(), 1, &gate)?;
    let given_up = gate.given_up.load(Ordering::SeqCst);
    assert!(rt; given_up == 0 && gate.others.load(Ordering::SeqCst) == 0);
    check_without_node_0(&rt, rt.alloc(), &answer, "node 0 is late")?;
    Ok(())
}

// Holds each of the four lanes of node 0 at its first entry until all four have entered.
#[derive(Drop)]
struct FourLanes {
    lane_0: AtomicU64,
    lane_1: AtomicU64,
    lane_2: AtomicU64,
    lane_3: AtomicU64,
    met: AtomicU64,
    given_up: AtomicU64,
}

impl FourLanes {
    fn new() -> FourLanes {
        FourLanes {
            lane_0: AtomicU64::new(0),
            lane_1: AtomicU64::new(0),
            lane_2: AtomicU64::new(0),
            lane_3: AtomicU64::new(0),
            met: AtomicU64::new(0),
            given_up: AtomicU64::new(0),
        }
    }

    // Whether this is the first entry of a lane of node 0.
    fn is_first_of_lane(&self, node: u8, actor: u8) -> bool {
        match (node, actor) {
            (0, 0) => is_first(&self.lane_0),
            (0, 1) => is_first(&self.lane_1),
            (0, 2) => is_first(&self.lane_2),
            (0, 3) => is_first(&self.lane_3),
            _ => false,
        }
    }
}

impl Gate for FourLanes {
    fn enter(&self, node: u8, actor: u8) {
        if self.is_first_of_lane(node, actor) {
            self.met.fetch_add(1, Ordering::SeqCst);
            hold(&self.given_up, &|| is_at_least(&self.met, 4));
        }
    }
}

// Each lane of node 0 has the number of what its desk proposes before a worker begins, and worker w begins at lane w. So four
// workers hold four lanes at once, and three never do.
#[test]
fn four_lanes_at_once(rt: HostRuntime) -> Result<(), Fail> {
    let gate = FourLanes::new();
    let answer = run_four(&rt, rt.alloc(), 4, &gate)?;
    let given_up = gate.given_up.load(Ordering::SeqCst);
    assert!(rt; given_up == 0 && gate.met.load(Ordering::SeqCst) == 4);
    check_any(&rt, rt.alloc(), &answer, &[0, 5], "four lanes")?;
    Ok(())
}

// Counts the entries of node 0, and those among the first four that are not of the lane whose number is how many came before.
#[derive(Drop)]
struct InOrder {
    entered: AtomicU64,
    astray: AtomicU64,
}

impl Gate for InOrder {
    fn enter(&self, node: u8, actor: u8) {
        if node == 0 {
            let before = self.entered.fetch_add(1, Ordering::SeqCst);
            if before < 4 && u64::from(actor) != before {
                self.astray.fetch_add(1, Ordering::SeqCst);
            }
        }
    }
}

// Each lane of node 0 has a number before its only worker begins, which goes round from lane 0 on.
#[test]
fn actors_in_their_order(rt: HostRuntime) -> Result<(), Fail> {
    let gate = InOrder {
        entered: AtomicU64::new(0),
        astray: AtomicU64::new(0),
    };
    let answer = run_four(&rt, rt.alloc(), 1, &gate)?;
    let entered = gate.entered.load(Ordering::SeqCst);
    assert!(rt; entered > 4 && gate.astray.load(Ordering::SeqCst) == 0);
    check_any(&rt, rt.alloc(), &answer, &[0, 5], "actors in their order")?;
    Ok(())
}
