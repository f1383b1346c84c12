//! A liar that answers each BVAL of another node with the other bit.

ghost use Rattle.std.specs.Prelude.{◌≡◌, codes};

use hb_base::LiarName;
use hb_wire::{Post, Vote, VoteView};
use liar_cast::{Liar, LiarSeat, Lies};
use liar_speech::{heard_vote, tell_vote};
use std::alloc::Global;

/// Answers each BVAL that another node said with the other bit, to all.
#[derive(Drop)]
pub struct Contrary;

impl Liar for Contrary {
    ghost called = { λ _. codes "contrary" };

    fn name(&self) -> LiarName {
        LiarName::of("contrary").unwrap()
    }

    fn start(&mut self, _alloc: Global, _me: &LiarSeat, _lies: &mut Lies) {}

    fn hear(&mut self, alloc: Global, me: &LiarSeat, post: &Post, lies: &mut Lies) {
        if post.from == me.node {
            return;
        }
        if let Ok((lane, VoteView::Bval { epoch, round, bit })) = heard_vote(me, post) {
            let other = Vote::Bval {
                epoch,
                round,
                bit: !bit,
            };
            let _told = tell_vote(
                alloc,
                me.config.n(),
                me.config.version(),
                lies,
                lane,
                &other,
            );
        }
    }
}
