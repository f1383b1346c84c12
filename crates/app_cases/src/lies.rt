//! How often a liar is asked to hear, and how much of what it says is posted. What each kind of liar says, `tools/hostile` shows.

ghost use Rattle.std.specs.Prelude.{codes};

use crate::Flooding;
use crate::calls::{Answer, Host, Request, call_with, first_bytes};
use crate::four::with_liar;
use hb_base::LiarName;
use hb_wire::{Post, To};
use liar_cast::{Liar, LiarSeat, Lies};
use std::alloc::{AllocError, Global};
use std::sync::Arc;
use std::test::Fail;

// A liar that says one byte each time it is asked to hear. It shares a value, so that one can count who is left that has it.
#[derive(Drop)]
struct Counting {
    _shared: Arc<u8, Global>,
}

impl Liar for Counting {
    ghost called = { λ _. codes "counting" };

    fn name(&self) -> LiarName {
        LiarName::of("counting").unwrap()
    }

    fn start(&mut self, _alloc: Global, _me: &LiarSeat, _lies: &mut Lies) {}

    fn hear(&mut self, alloc: Global, _me: &LiarSeat, _post: &Post, lies: &mut Lies) {
        lies.say(alloc, 0, To::Node(0), &[0xff]);
    }
}

// Three that share this value.
fn three_counting(
    alloc: Global,
    shared: &Arc<u8, Global>,
) -> Result<Vec<Box<dyn Liar>>, AllocError> {
    let mut liars: Vec<Box<dyn Liar>> = Vec::new(alloc);
    for _ in 0..3 {
        let counting = Counting {
            _shared: shared.clone()?,
        };
        liars.push(Box::new(alloc, counting)?)?;
    }
    Ok(liars)
}

// Runs the four nodes with these liars, of which one is asked for, and hears so many posts.
fn run_counting(
    rt: &impl Host,
    alloc: Global,
    hears: u32,
    liars: Vec<Box<dyn Liar>>,
) -> Result<Answer, AllocError> {
    let scenario = with_liar(alloc, "counting", hears)?;
    call_with(rt, alloc, &Request::new("run", scenario.as_str()), liars)
}

// A liar is asked to hear as often as the scenario says, and at the end nothing is left of the cast, be it asked for or not.
#[test]
fn boxes_are_asked_and_dropped(rt: HostRuntime) -> Result<(), Fail> {
    let alloc = rt.alloc();
    for hears in [0u32, 1, 3, 50, 100] {
        let shared = Arc::new(alloc, 0u8)?;
        let liars = three_counting(alloc, &shared)?;
        let answer = run_counting(&rt, alloc, hears, liars)?;
        let found = first_bytes(alloc, &answer.report, 3)?;
        assert!(rt;
            found.len() == hears as usize && Arc::strong_count(&shared) == 1,
            "{hears}"
        );
    }
    Ok(())
}

// How many posts of its first byte a liar has that floods, and how many in all.
fn posts_of_flooding(
    rt: &impl Host,
    alloc: Global,
    renews: bool,
) -> Result<(usize, usize), AllocError> {
    let mut liars: Vec<Box<dyn Liar>> = Vec::new(alloc);
    liars.push(Box::new(alloc, Flooding::new(renews))?)?;
    let scenario = with_liar(alloc, "flooding", 100)?;
    let given = Request::new("run", scenario.as_str());
    let answer = call_with(rt, alloc, &given, liars)?;
    let found = first_bytes(alloc, &answer.report, 3)?;
    let first = found.iter().filter(|byte| **byte == 0xff).count();
    Ok((first, found.len()))
}

// However much it says, 4,096 lies of a node are posted, and the first ones, also where its own list would take more.
#[test]
fn lies_are_counted(rt: HostRuntime) -> Result<(), Fail> {
    for renews in [false, true] {
        let found = posts_of_flooding(&rt, rt.alloc(), renews)?;
        assert!(rt; found == (4_096, 4_096), "{renews}");
    }
    Ok(())
}
