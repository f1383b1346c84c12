//! One worker.

use crate::crew::{Crew, SHORTEST_NAP};
use std::sync::Wait;

// Goes round until nobody of the crew, to which it belongs, has anything to do. Its naps grow until it has found something
// itself: so a worker whose node has nothing to do looks seldom, however often others find something. A nap is never much longer
// than the time for which the worker has found nothing.
pub(crate) fn work<F: Fn(usize, usize) -> bool, R: Wait>(
    rt: &R,
    round: &F,
    node: usize,
    worker: usize,
    crew: &Crew,
)
    requires { F.IsAlwaysCallable round.now }
{
    let mut nap = SHORTEST_NAP;
    for _ in rt.forever() {
        let began = crew.finds();
        if round(node, worker) {
            crew.found(rt);
            nap = SHORTEST_NAP;
        } else {
            crew.found_nothing(rt, began);
            if crew.rest(rt, began, &mut nap) {
                return;
            }
        }
    }
}
