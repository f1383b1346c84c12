//! How posts arrive at an actor.

ghost use Rattle.std.specs.Prelude.{◌≡◌};
ghost use Rattle.actor_cell.specs.Turning.{arrival_found, by_lateness, arrives, is_late};

use hb_wire::Post;
use net_script::{Script, Shape, shape};
use step_driver::comes_found;

/// How a post arrives at an actor.
#[derive(Clone, Copy, Debug, PartialEq, Eq)]
pub enum Arrival {
    /// Not at all: it does not stand, does not reach the actor, or is dropped on its way.
    Aside,
    /// At once.
    Prompt,
    /// Held back until nothing else is there.
    Late,
}

/// How post k, where it was found, arrives at this actor of this node.
pub fn arrival_found(script: &Script, found: &Option<Post>, node: u8, actor: u8, k: u32) -> Arrival
    ensures { result ≡ arrival_found script.now found.now node actor k }
{
    match found {
        None => Arrival::Aside,
        Some(post) => {
            if comes_found(&script.config, script, found, node, actor, k) {
                by_lateness(shape(script, post.from, node, k))
            } else {
                Arrival::Aside
            }
        }
    }
}

/// How posts of this shape arrive.
pub fn by_lateness(shape: Shape) -> Arrival
    ensures { result ≡ by_lateness shape }
{
    match shape {
        Shape::Once | Shape::Twice => Arrival::Prompt,
        Shape::Late => Arrival::Late,
        Shape::Drop => Arrival::Aside,
    }
}

// Whether a post that was looked at arrives.
pub(crate) fn arrives(found: &Option<Arrival>) -> bool
    ensures { result ≡ arrives found.now }
{
    match found {
        Some(Arrival::Prompt) | Some(Arrival::Late) => true,
        Some(Arrival::Aside) | None => false,
    }
}

// Whether it arrives late.
pub(crate) fn is_late(found: &Option<Arrival>) -> bool
    ensures { result ≡ is_late found.now }
{
    match found {
        Some(Arrival::Late) => true,
        Some(Arrival::Prompt) | Some(Arrival::Aside) | None => false,
    }
}
