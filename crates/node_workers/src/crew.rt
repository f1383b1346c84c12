//! What the workers of a pool know of one another.

use std::sync::atomic::{AtomicU64, Ordering};
use std::sync::{Mutex, Wait};
use std::time::Duration;

// The shortest and the longest time that a worker sleeps which has found nothing, in microseconds.
pub(crate) const SHORTEST_NAP: u64 = 20;

const LONGEST_NAP: u64 = 1_000;

// How many workers there are that have not gone, and how many of them may still find something to do. A worker that found
// nothing, while nobody found anything, looks no more. Once one finds something, all look again: what it did may be work for
// others.
#[derive(Drop)]
struct Count {
    workers: u64,
    looking: u64,
}

// The workers of a pool. Where nobody looks any more each has made a round since one last found something, and nobody is in a
// round. What a worker passed by in that round another looked at, since then too: so there is nothing left to do, and it is over.
#[derive(Drop)]
pub(crate) struct Crew {
    count: Mutex<Count>,

    // How often one found something. It rises under the lock of the count, and is read without.
    finds: AtomicU64,

    // 1 while it is over, and else 0.
    over: AtomicU64,
}

impl Crew {
    // The crew whose one worker is the caller, which looks.
    pub(crate) fn new() -> Crew {
        Crew {
            count: Mutex::new(Count {
                workers: 1,
                looking: 1,
            }),
            finds: AtomicU64::new(0),
            over: AtomicU64::new(0),
        }
    }

    // Takes in one worker more, which looks: so it is not over.
    pub(crate) fn enter<R: Wait>(&self, rt: &R) {
        let mut count = self.count.lock(rt);
        count.workers = count.workers.saturating_add(1);
        count.looking = count.looking.saturating_add(1);
        self.over.store(0, Ordering::SeqCst);
    }

    // Lets one go that looks.
    pub(crate) fn leave<R: Wait>(&self, rt: &R) {
        let mut count = self.count.lock(rt);
        count.workers = count.workers.saturating_sub(1);
        count.looking = count.looking.saturating_sub(1);
        self.end_at(count.looking);
    }

    // How often one found something, for a worker that is to look now.
    pub(crate) fn finds(&self) -> u64 {
        self.finds.load(Ordering::SeqCst)
    }

    // One found something.
    pub(crate) fn found<R: Wait>(&self, rt: &R) {
        let mut count = self.count.lock(rt);
        self.finds.fetch_add(1, Ordering::SeqCst);
        count.looking = count.workers;
    }

    // One found nothing, and had begun to look when so many had found something. It looks no more if nobody has found anything
    // meanwhile.
    pub(crate) fn found_nothing<R: Wait>(&self, rt: &R, began: u64) {
        let mut count = self.count.lock(rt);
        if self.finds() == began {
            count.looking = count.looking.saturating_sub(1);
            self.end_at(count.looking);
        }
    }

    // Ends it where nobody looks.
    fn end_at(&self, looking: u64) {
        if looking == 0 {
            self.over.store(1, Ordering::SeqCst);
            self.over.wake_all();
        }
    }

    // Lets one go that looks no more, if nobody looks. Whether it has gone: a worker that came late may look again, and then all
    // may have something to do once more.
    fn retires<R: Wait>(&self, rt: &R) -> bool {
        let mut count = self.count.lock(rt);
        if count.looking != 0 {
            return false;
        }
        count.workers = count.workers.saturating_sub(1);
        true
    }

    // Waits, for one that found nothing and had begun to look at this count of finds, until one has found something since. Where
    // it is not over it sleeps at least once, for as long as `nap` says, and each time, also in its next rests, twice as long as
    // before, up to the longest nap. Whether it is over, and the worker has gone.
    pub(crate) fn rest<R: Wait>(&self, rt: &R, began: u64, nap: &mut u64) -> bool {
        for _ in rt.forever() {
            if self.over.load(Ordering::SeqCst) != 0 && self.retires(rt) {
                return true;
            }
            self.over.park_timeout(rt, 0, Duration::from_micros(*nap));
            *nap = nap.saturating_mul(2).min(LONGEST_NAP);
            if self.finds() != began {
                return false;
            }
        }
        true
    }
}
