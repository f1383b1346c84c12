//! What speaks for a node that lies.

ghost use Rattle.std.specs.Prelude.{◌≡◌, ℕ, List};

use crate::lies::Lies;
use hb_base::{Config, LiarName};
use hb_wire::Post;
use std::alloc::Global;

/// Where a liar sits: its node, and the numbers of the run.
#[derive(Clone, Copy, Debug, PartialEq, Eq)]
pub struct LiarSeat {
    /// The node for which it speaks, below n.
    pub node: u8,
    /// The numbers of the run.
    pub config: Config,
}

/// What speaks for a node that lies (a Byzantine node of CCS 2016, section 4.1). A run asks it to `start` once, and
/// then to `hear` each post that reaches an actor of its node, also its own; what it says by `lies` is posted in order
/// after each call. Nothing is promised of what it says. Where it finds no memory it says no more in that call.
///
/// It may also put other `Lies` in the place of those lent to it, of another node or with none taken yet. So a caller
/// knows of the lies after a call only what holds of all `Lies` (`waiting`: at most 4,096, each of at most 20,000
/// bytes). It posts them under the node that it asked, and itself counts what that node has posted.
pub trait Liar: Send + Drop {
    /// The bytes of its name.
    ghost called: { Self → List ℕ };

    /// The name under which a scenario asks for it.
    fn name(&self) -> LiarName
        ensures { result ≡ called self.now };

    /// Speaks before it has heard anything.
    fn start(&mut self, alloc: Global, me: &LiarSeat, lies: &mut Lies);

    /// Hears a post, and may speak.
    fn hear(&mut self, alloc: Global, me: &LiarSeat, post: &Post, lies: &mut Lies);
}
