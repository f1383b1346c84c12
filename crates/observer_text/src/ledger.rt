//! The ledger of an observer, as it is printed.

ghost use Rattle.std.specs.List.{enumerate_from};
ghost use Rattle.observer.specs.Standing.{ledger_of};

use acs_world::Closing;
use ledger_text::Ledger;
use observer::Observer;

/// The ledger of an observer: the lists of the epochs from 0 on.
#[derive(Clone, Copy)]
pub(crate) struct ObservedLedger<'a> {
    pub(crate) observer: &'a Observer,
}

impl<'a> Ledger for ObservedLedger<'a> {
    ghost lists = { λ l. enumerate_from 0 (ledger_of l.observer.now) };

    fn count(&self) -> usize {
        self.observer.epochs() as usize
    }

    fn at(&self, place: usize) -> Option<Closing<'_>> {
        // what this call ensures says that the numbers of the run are sound
        let _sound = self.observer.config().liars();
        if place >= self.count() {
            return None;
        }
        Some(Closing {
            epoch: place as u8,
            rest: self.observer.list(place as u32),
        })
    }
}
