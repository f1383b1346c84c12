//! Runs with liars of the tests' own: what is printed of them, and whom they give away.

ghost use Rattle.std.specs.Prelude.{codes};

use crate::FalseFrame;
use crate::four::check_with_liar;
use hb_base::LiarName;
use hb_wire::{Post, To};
use liar_cast::{Liar, LiarSeat, Lies};
use std::alloc::Global;
use std::test::Fail;

const WITH_NOTHING: &str = "run nodes 4 faulty 1 version 1 epochs 1
node 0 running
epoch 0 batches 4
batch 0 txs 1
tx 6130
batch 1 txs 1
tx 6131
batch 2 txs 1
tx 6132
batch 3 txs 0
node 1 running
epoch 0 batches 4
batch 0 txs 1
tx 6130
batch 1 txs 1
tx 6131
batch 2 txs 1
tx 6132
batch 3 txs 0
node 2 running
epoch 0 batches 4
batch 0 txs 1
tx 6130
batch 1 txs 1
tx 6131
batch 2 txs 1
tx 6132
batch 3 txs 0
node 3 liar
end 0
";

// What is printed of four nodes where nobody is accused, and where the liar is.
const NOBODY: &str = "accuse nodes 4 faulty 1 version 1 epochs 1\nend 0\n";

const THE_LIAR: &str = "accuse nodes 4 faulty 1 version 1 epochs 1\naccused 3 posts 3 4\nend 0\n";

// A frame that is false stands for no bytes, and they for no transaction. All its pieces have one root, and each node is sent
// one, so that it contradicts nothing.
#[test]
fn false_frames(rt: HostRuntime) -> Result<(), Fail> {
    for &(word, text) in &[("run", WITH_NOTHING), ("accuse", NOBODY)] {
        let liar = Box::new(rt.alloc(), FalseFrame)?;
        check_with_liar(&rt, rt.alloc(), word, "false_frame", liar, text)?;
    }
    Ok(())
}

// A liar that says two votes at its start, which differ in their last byte.
#[derive(Drop)]
struct Doubtful {
    kind: u8,
}

impl Liar for Doubtful {
    ghost called = { λ _. codes "doubtful" };

    fn name(&self) -> LiarName {
        LiarName::of("doubtful").unwrap()
    }

    fn start(&mut self, alloc: Global, _me: &LiarSeat, lies: &mut Lies) {
        lies.say(alloc, 0, To::All, &[self.kind, 0, 0, 0]);
        lies.say(alloc, 0, To::All, &[self.kind, 0, 0, 1]);
    }

    fn hear(&mut self, _alloc: Global, _me: &LiarSeat, _post: &Post, _lies: &mut Lies) {}
}

// The three correct nodes propose first, so the two votes are posts 3 and 4. A node may support both bits of a round (kind 6),
// and may vote for one of them (kind 7).
#[test]
fn two_votes_of_a_liar(rt: HostRuntime) -> Result<(), Fail> {
    for &(kind, text) in &[(7u8, THE_LIAR), (6, NOBODY)] {
        let liar = Box::new(rt.alloc(), Doubtful { kind })?;
        check_with_liar(&rt, rt.alloc(), "accuse", "doubtful", liar, text)?;
    }
    Ok(())
}
