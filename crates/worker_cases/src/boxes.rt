//! The boxes of a cast, where threads run it.

ghost use Rattle.std.specs.Prelude.{codes};

use crate::calls::{Answer, Host, run_workers_with};
use crate::texts::FOUR;
use app_cases::Flooding;
use hb_base::LiarName;
use hb_rules::Report;
use hb_wire::{Post, To, reaches};
use liar_cast::{Liar, LiarSeat, Lies};
use std::alloc::{AllocError, Global};
use std::sync::Arc;
use std::sync::atomic::{AtomicU64, Ordering};
use std::test::Fail;

// How often liars were asked to hear, and how many of them were dropped.
#[derive(Drop)]
struct Counts {
    asked: Arc<AtomicU64, Global>,
    dropped: Arc<AtomicU64, Global>,
}

impl Counts {
    fn new(alloc: Global) -> Result<Counts, AllocError> {
        Ok(Counts {
            asked: Arc::new(alloc, AtomicU64::new(0))?,
            dropped: Arc::new(alloc, AtomicU64::new(0))?,
        })
    }
}

// A liar that says one byte at its start, and one each time it is asked to hear, and counts that, and its end.
struct Counting {
    asked: Arc<AtomicU64, Global>,
    dropped: Arc<AtomicU64, Global>,
}

impl Drop for Counting {
    fn drop(self) {
        let Counting { asked: _, dropped } = self;
        dropped.fetch_add(1, Ordering::SeqCst);
    }
}

impl Liar for Counting {
    ghost called = { λ _. codes "counting" };

    fn name(&self) -> LiarName {
        LiarName::of("counting").unwrap()
    }

    fn start(&mut self, alloc: Global, _me: &LiarSeat, lies: &mut Lies) {
        lies.say(alloc, 0, To::Node(0), &[0xff]);
    }

    fn hear(&mut self, alloc: Global, _me: &LiarSeat, _post: &Post, lies: &mut Lies) {
        self.asked.fetch_add(1, Ordering::SeqCst);
        lies.say(alloc, 0, To::Node(0), &[0xff]);
    }
}

// So many liars that count together.
fn liars(alloc: Global, counts: &Counts, many: u32) -> Result<Vec<Box<dyn Liar>>, AllocError> {
    let mut liars: Vec<Box<dyn Liar>> = Vec::new(alloc);
    for _liar in 0..many {
        let liar = Counting {
            asked: counts.asked.clone()?,
            dropped: counts.dropped.clone()?,
        };
        liars.push(Box::new(alloc, liar)?)?;
    }
    Ok(liars)
}

// Runs the four nodes to three liars that count together, with so many workers at each node, and checks what every schedule has
// to leave. The liar of node 3 is asked to hear so often, if so many posts reach it.
fn run_counting(
    rt: &impl Host,
    alloc: Global,
    counts: &Counts,
    hears: u32,
    workers: u8,
) -> Result<Answer, AllocError> {
    let keys = format!(in alloc;
        ",\"liars\":[{{\"node\":3,\"name\":\"counting\",\"hears\":{hears}}}]"
    )?;
    let cast = liars(alloc, counts, 3)?;
    run_workers_with(rt, alloc, FOUR, keys.as_str(), workers, cast, &[0])
}

// How many posts of a history reach an actor of node 3, and how many are of it.
fn count_posts(report: &Report) -> (u64, u64) {
    let n = report.config.n();
    let mut reaching = 0u64;
    let mut own = 0u64;
    for post in report.history.as_slice() {
        if (0..n + 1).any(|actor| reaches(n, post, 3, actor)) {
            reaching = reaching.saturating_add(1);
        }
        if post.from == 3 {
            own = own.saturating_add(1);
        }
    }
    (reaching, own)
}

// The number of each post that reaches node 3 comes into its mailbox once, and no worker leaves before it is taken. So the liar
// there is asked to hear as often as the scenario says, if so many posts reach it, and what it says stands in the history. Each
// box of the cast is dropped once, be it asked for or not.
#[test]
fn boxes_are_asked_and_dropped(rt: HostRuntime) -> Result<(), Fail> {
    let alloc = rt.alloc();
    for &(hears, workers) in &[
        (0u32, 4),
        (1, 1),
        (1, 4),
        (3, 1),
        (3, 4),
        (100, 1),
        (100, 4),
    ] {
        let counts = Counts::new(alloc)?;
        let answer = run_counting(&rt, alloc, &counts, hears, workers)?;
        let (reaching, own) = count_posts(&answer.report);
        let asked = counts.asked.load(Ordering::SeqCst);
        assert!(rt;
            asked == reaching.min(u64::from(hears))
                && reaching > 3
                && own == asked.saturating_add(1)
                && counts.dropped.load(Ordering::SeqCst) == 3
                && Arc::strong_count(&counts.asked) == 1,
            "{hears}"
        );
    }
    Ok(())
}

// Of a node that lies 4,096 posts stand, and no more, also where its own list would take more.
#[test]
fn no_more_than_a_liar_may_say(rt: HostRuntime) -> Result<(), Fail> {
    let alloc = rt.alloc();
    let keys = r#","liars":[{"node":3,"name":"flooding"}]"#;
    for workers in [1, 4] {
        let mut cast: Vec<Box<dyn Liar>> = Vec::new(alloc);
        cast.push(Box::new(alloc, Flooding::new(true))?)?;
        let answer = run_workers_with(&rt, alloc, FOUR, keys, workers, cast, &[0])?;
        let (reaching, own) = count_posts(&answer.report);
        assert!(rt; own == 4_096 && reaching > 3, "{workers}");
    }
    Ok(())
}
