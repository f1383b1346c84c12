//! The liar that echoes to the even nodes and not to the odd ones.

ghost use Rattle.std.specs.Prelude.{◌≡◌, codes};

use crate::liar::{Liar, LiarSeat};
use crate::lies::Lies;
use crate::speech::{Hushed, Parity, heard_vote, tell_each};
use hb_base::{Bytes, LiarName};
use hb_wire::{Post, Vote, VoteView};
use std::alloc::Global;

/// Answers each VAL for its node: its ECHO goes to each even node, and a READY of the root of 32 bytes FF to each odd
/// one.
#[derive(Drop)]
pub struct EchoSplit;

impl EchoSplit {
    /// One that has heard nothing yet.
    pub fn new() -> EchoSplit {
        EchoSplit
    }
}

fn answer(alloc: Global, me: &LiarSeat, post: &Post, lies: &mut Lies) -> Result<(), Hushed> {
    let n = me.config.n();
    let version = me.config.version();
    let (lane, vote) = heard_vote(me, post)?;
    let VoteView::Val {
        epoch,
        target,
        root,
        shard,
        branch,
    } = vote
    else {
        return Err(Hushed);
    };
    if target != me.node {
        return Err(Hushed);
    }
    let echo = Vote::Echo {
        epoch,
        root,
        shard: Bytes::copy(alloc, shard)?,
        branch,
    };
    tell_each(alloc, n, version, lies, lane, Parity::Even, &echo)?;
    let ready = Vote::Ready {
        epoch,
        root: [0xFF; 32],
    };
    tell_each(alloc, n, version, lies, lane, Parity::Odd, &ready)
}

impl Liar for EchoSplit {
    ghost called = { λ _. codes "echo_split" };

    fn name(&self) -> LiarName {
        LiarName::of("echo_split").unwrap()
    }

    fn start(&mut self, _alloc: Global, _me: &LiarSeat, lies: &mut Lies)
        ensures { lies.new ≡ lies.old }
    {}

    fn hear(&mut self, alloc: Global, me: &LiarSeat, post: &Post, lies: &mut Lies) {
        let _ = answer(alloc, me, post, lies);
    }
}
