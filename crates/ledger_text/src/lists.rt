//! What is printed as a ledger: its lists.

ghost use Rattle.std.specs.Prelude.{◌≡◌, List, length, slice_get, None, IfSome, IfNone};
ghost use Rattle.acs_world.specs.Closed.{Closure};
ghost use Rattle.acs_world.specs.Closures.{closures, IsClosureAt};

use acs_world::{Closing, LedgerFinder};

/// What is printed as a ledger: lists of batches, each with its epoch, one after another. Each list is told by what a vote that
/// closes its epoch with it has behind kind and epoch.
pub trait Ledger {
    /// The lists, each with its epoch, in order.
    ghost lists: { Self → List Closure };

    /// How many lists there are.
    fn count(&self) -> usize
        ensures { result ≡ length (lists self.now) };

    /// The list at a place, with its epoch, if there are so many.
    fn at(&self, place: usize) -> Option<Closing<'_>>
        ensures none { IfNone result (slice_get (lists self.now) place ≡ None) }
        ensures some { IfSome result (λ g. IsClosureAt (lists self.now) place g.epoch g.rest.now) };
}

/// The ledger of a node.
#[derive(Clone, Copy)]
pub(crate) struct NodeLedger<'a> {
    pub(crate) ledgers: &'a LedgerFinder<'a>,
    pub(crate) node: u8,
}

impl<'a> Ledger for NodeLedger<'a> {
    ghost lists = { λ l. closures l.ledgers.now.config l.ledgers.now.posts l.node };

    fn count(&self) -> usize {
        self.ledgers.count(self.node)
    }

    fn at(&self, place: usize) -> Option<Closing<'_>> {
        self.ledgers.at(self.node, place)
    }
}
