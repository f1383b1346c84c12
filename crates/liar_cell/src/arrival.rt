//! How posts arrive at a node that lies.

ghost use Rattle.std.specs.Prelude.{◌≡◌, Some};
ghost use Rattle.actor_cell.specs.Turning.{arrives};
ghost use Rattle.liar_cell.specs.LiarTurns.{arrival_at, is_late_found};

use actor_cell::{Arrival, by_lateness};
use hb_wire::Post;
use net_script::{Script, shape};
use step_driver::reaches_node;

// How post k arrives at a node that lies: not at all unless it reaches an actor of the node and is not dropped on its way.
fn arrival_at(script: &Script, post: &Post, node: u8, k: u32) -> Arrival
    ensures { result ≡ arrival_at script.now post.now node k }
{
    if reaches_node(&script.config, post, node) {
        by_lateness(shape(script, post.from, node, k))
    } else {
        Arrival::Aside
    }
}

// Whether it arrives.
pub(crate) fn arrives(script: &Script, post: &Post, node: u8, k: u32) -> bool
    ensures { result ≡ arrives (Some (arrival_at script.now post.now node k)) }
{
    match arrival_at(script, post, node, k) {
        Arrival::Prompt | Arrival::Late => true,
        Arrival::Aside => false,
    }
}

// Whether it was found, and arrives late.
pub(crate) fn is_late(script: &Script, found: &Option<Post>, node: u8, k: u32) -> bool
    ensures { result ≡ is_late_found script.now found.now node k }
{
    match found {
        Some(post) => match arrival_at(script, post, node, k) {
            Arrival::Late => true,
            Arrival::Prompt | Arrival::Aside => false,
        },
        None => false,
    }
}
