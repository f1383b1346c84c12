//! Threads that go round until nobody has anything to do.

ghost use Rattle.std.specs.Prelude.{◌≡◌, false};
ghost use Rattle.std.specs.Thread.{IsSync};

use crate::crew::Crew;
use crate::worker::work;
use std::sync::Wait;
use std::thread;
use std::thread::Threads;

/// Starts so many workers for each of so many nodes, by node and then worker, and waits until all have returned. A worker calls
/// `round` with its node and its own number again and again, and each call answers whether it found anything to do. A worker that
/// found nothing sleeps, and looks again once another has found something. All return once each has found nothing in a round that
/// began after anybody last found something: where a round finds all that there is for its node, nothing is left then.
///
/// The caller counts as a worker that looks until all are started, so that none returns before. A worker that can't be started is
/// run by the caller, which counts no more from the first of these on, and the workers after that one are started once it has
/// returned.
pub fn serve_all<F: Fn(usize, usize) -> bool + Sync, R: Threads + Wait + Sync>(
    rt: &R,
    nodes: usize,
    workers: usize,
    round: &F,
)
    requires { F.IsAlwaysCallable round.now }
{
    let made = Crew::new();
    let crew = &made;
    thread::scope(
        thread::scope_env(),
        rt,
        |scope|
            requires { IsSync R.row × IsSync F.row × F.IsAlwaysCallable round.now }
        {
            let mut counts = true;
            for node in 0..nodes {
                for worker in 0..workers {
                    crew.enter(rt);
                    if scope
                        .spawn(move || work(rt, round, node, worker, crew))
                        .is_err()
                    {
                        counts = give_up(rt, crew, counts);
                        work(rt, round, node, worker, crew);
                    }
                }
            }
            give_up(rt, crew, counts);
        },
    );
}

// Lets the caller go, if it still counts. Whether it counts after that.
fn give_up<R: Wait>(rt: &R, crew: &Crew, counts: bool) -> bool
    ensures { result ≡ false }
{
    if counts {
        crew.leave(rt);
    }
    false
}
