//! A liar that says more than it may.
ghost use Rattle.std.specs.Prelude.{codes};

use hb_base::LiarName;
use hb_wire::{Post, To};
use liar_cast::{Liar, LiarSeat, Lies};
use std::alloc::Global;

/// A liar that says at its start all the lies that it may and one more, and another each time it hears.
#[derive(Drop)]
pub struct Flooding {
    renews: bool,
}

impl Flooding {
    /// One that renews puts a new list in the place of the one that it is handed when it hears, which takes as many again.
    pub fn new(renews: bool) -> Flooding {
        Flooding { renews }
    }
}

impl Liar for Flooding {
    ghost called = { λ _. codes "flooding" };

    fn name(&self) -> LiarName {
        LiarName::of("flooding").unwrap()
    }

    fn start(&mut self, alloc: Global, _me: &LiarSeat, lies: &mut Lies) {
        for _ in 0..4_097u32 {
            lies.say(alloc, 0, To::Book, &[0xff]);
        }
    }

    fn hear(&mut self, alloc: Global, me: &LiarSeat, _post: &Post, lies: &mut Lies) {
        if self.renews {
            *lies = Lies::new(alloc, me.node);
        }
        lies.say(alloc, 0, To::Book, &[0xfe]);
    }
}
