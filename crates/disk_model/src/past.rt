//! What a disk has held, for clauses alone.
ghost use Rattle.std.specs.Prelude.{◌≡◌, List, [], ◌∷◌};
ghost use Rattle.std.specs.Borrow.{ftrue};
ghost use Rattle.disk_model.specs.declared.halves.Halves.{Halves as Held};

use crate::halves::Halves;
use std::marker::Model;

/// The states of the halves before each call that was done or stopped, and before each switching on, the newest first. It
/// takes no bytes: only clauses read it.
#[derive(Drop)]
pub(crate) struct Past {
    pub ghost states: { List Held },
}

impl Model for Past {
    ghost also_owns = { λ _. ftrue };
}

// A struct with `also_owns` has neither by itself. This one owns nothing.
unsafe impl Send for Past {}

unsafe impl Sync for Past {}

impl Past {
    pub(crate) fn new() -> Past
        ensures { result.states ≡ [] }
    {
        Past {}
    }

    pub(crate) fn with(_before: &Past, _state: &Halves) -> Past
        ensures { result.states ≡ _state.now ∷ _before.now.states }
    {
        Past {}
    }
}
