//! The liar that says anything.

ghost use Rattle.std.specs.Prelude.{◌≡◌, codes};

use crate::liar::{Liar, LiarSeat};
use crate::lies::Lies;
use crate::speech::{Hushed, lane_of, tell};
use hb_base::LiarName;
use hb_wire::{Post, To};
use std::alloc::Global;

/// Answers each post: the byte FF to all, and then, where the post is another node's and not empty, its bytes with the
/// lowest bit of the last one turned, to all.
#[derive(Drop)]
pub struct Babble;

impl Babble {
    /// One that has heard nothing yet.
    pub fn new() -> Babble {
        Babble
    }
}

fn answer(alloc: Global, me: &LiarSeat, post: &Post, lies: &mut Lies) -> Result<(), Hushed> {
    let lane = lane_of(me, post)?;
    tell(alloc, lies, lane, To::All, &[0xFF])?;
    if post.from == me.node {
        return Ok(());
    }
    let mut bent = Vec::from_slice(alloc, post.bytes.as_slice())?;
    match bent.last_mut() {
        None => return Ok(()),
        Some(last) => *last ^= 1,
    }
    tell(alloc, lies, lane, To::All, &bent)
}

impl Liar for Babble {
    ghost called = { λ _. codes "babble" };

    fn name(&self) -> LiarName {
        LiarName::of("babble").unwrap()
    }

    fn start(&mut self, _alloc: Global, _me: &LiarSeat, lies: &mut Lies)
        ensures { lies.new ≡ lies.old }
    {}

    fn hear(&mut self, alloc: Global, me: &LiarSeat, post: &Post, lies: &mut Lies) {
        let _ = answer(alloc, me, post, lies);
    }
}
