//! The liar that says nothing.

ghost use Rattle.std.specs.Prelude.{◌≡◌, codes};

use crate::liar::{Liar, LiarSeat};
use crate::lies::Lies;
use hb_base::LiarName;
use hb_wire::Post;
use std::alloc::Global;

/// Says nothing, like a node that has crashed.
#[derive(Drop)]
pub struct Silent;

impl Silent {
    /// One for a node that stays silent.
    pub fn new() -> Silent {
        Silent
    }
}

impl Liar for Silent {
    ghost called = { λ _. codes "silent" };

    fn name(&self) -> LiarName {
        LiarName::of("silent").unwrap()
    }

    fn start(&mut self, _alloc: Global, _me: &LiarSeat, lies: &mut Lies)
        ensures { lies.new ≡ lies.old }
    {}

    fn hear(&mut self, _alloc: Global, _me: &LiarSeat, _post: &Post, lies: &mut Lies)
        ensures { lies.new ≡ lies.old }
    {}
}
