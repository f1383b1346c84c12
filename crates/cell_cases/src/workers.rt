//! Workers that share jobs.

use node_workers::serve_all;
use std::io;
use std::rt::Clock;
use std::sync::atomic::{AtomicU64, Ordering};
use std::sync::{Mutex, Wait};
use std::test::*;
use std::thread::Threads;
use std::time::Instant;

// Takes one of the jobs, unless there is none.
fn take_one<R: Wait>(rt: &R, left: &Mutex<u64>) -> bool {
    let mut left = left.lock(rt);
    if *left == 0 {
        return false;
    }
    *left -= 1;
    true
}

#[test]
fn workers_end_when_all_is_done(rt: HostRuntime) -> Result<(), Fail> {
    let left = Mutex::new(1_000u64);
    serve_all(
        &rt,
        3,
        2,
        &|_node: usize, _worker: usize| take_one(&rt, &left),
    );
    assert!(rt; left.into_inner() == 0);
    Ok(())
}

#[test]
fn no_nodes(rt: HostRuntime) -> Result<(), Fail> {
    let left = Mutex::new(1u64);
    serve_all(
        &rt,
        0,
        2,
        &|_node: usize, _worker: usize| take_one(&rt, &left),
    );
    assert!(rt; left.into_inner() == 1);
    Ok(())
}

const LAST_NODE: usize = 19;

// The last node puts the jobs in its first round, and never has anything else to do.
fn put_jobs<R: Wait>(rt: &R, left: &Mutex<u64>, rounds: &AtomicU64) -> bool {
    if rounds.fetch_add(1, Ordering::SeqCst) != 0 {
        return false;
    }
    let mut left = left.lock(rt);
    *left = 1_000;
    true
}

// The first node does the jobs that the last one puts, and the nodes between have none.
fn put_or_take<R: Wait>(rt: &R, left: &Mutex<u64>, rounds: &AtomicU64, node: usize) -> bool {
    match node {
        0 => take_one(rt, left),
        LAST_NODE => put_jobs(rt, left, rounds),
        _ => false,
    }
}

// No worker may leave before all were started, nor one whose node gets something to do in the last round of another. Here the
// first node has nothing to do until the last one's worker runs.
#[test]
fn the_first_wait_for_the_last(rt: HostRuntime) -> Result<(), Fail> {
    let left = Mutex::new(0u64);
    let rounds = AtomicU64::new(0);
    serve_all(
        &rt,
        LAST_NODE + 1,
        2,
        &|node: usize, _worker: usize| put_or_take(&rt, &left, &rounds, node),
    );
    assert!(rt; left.into_inner() == 0);
    Ok(())
}

// Where a token is, and how often it is still to be handed on.
#[derive(Drop)]
struct Token {
    node: usize,
    hops: u32,
}

const NODES: usize = 5;

// Hands the token on to the next node, if it is at this one and is to go on.
fn hand_on<R: Wait>(rt: &R, token: &Mutex<Token>, node: usize) -> bool {
    let mut token = token.lock(rt);
    if node >= NODES || token.node != node || token.hops == 0 {
        return false;
    }
    token.node = if node + 1 < NODES { node + 1 } else { 0 };
    token.hops -= 1;
    true
}

// At each moment only one node has something to do. No worker may leave before the token has made all its hops.
#[test]
fn a_token_goes_round(rt: HostRuntime) -> Result<(), Fail> {
    for workers in [1, 3] {
        let token = Mutex::new(Token {
            node: 0,
            hops: 1_000,
        });
        serve_all(
            &rt,
            NODES,
            workers,
            &|node: usize, _worker: usize| hand_on(&rt, &token, node),
        );
        let left = token.into_inner();
        assert!(rt; left.hops == 0);
    }
    Ok(())
}

const SIXTEEN: usize = 16;

const FINDS: u64 = 10_000;

// How often one that has found something glances at whether others have looked since.
const GLANCES: u32 = 5_000;

// How often the first node has looked, and how often the others have.
#[derive(Drop)]
struct Looks {
    of_first: AtomicU64,
    of_others: AtomicU64,
}

// The first node finds something so often, and each time gives the others a while to look. They find nothing.
fn find_or_look(looks: &Looks, node: usize) -> bool {
    if node != 0 {
        looks.of_others.fetch_add(1, Ordering::SeqCst);
        return false;
    }
    if looks.of_first.fetch_add(1, Ordering::SeqCst) >= FINDS {
        return false;
    }
    let before = looks.of_others.load(Ordering::SeqCst);
    for _glance in 0..GLANCES {
        if looks.of_others.load(Ordering::SeqCst) != before {
            return true;
        }
    }
    true
}

// How often fifteen workers look that find nothing, while another finds something again and again, and how many milliseconds
// that takes.
fn count_looks(rt: &(impl Threads + Wait + Clock + Sync)) -> io::Result<(u64, u128)> {
    let looks = Looks {
        of_first: AtomicU64::new(0),
        of_others: AtomicU64::new(0),
    };
    let began = Instant::now(rt)?;
    serve_all(
        rt,
        SIXTEEN,
        1,
        &|node: usize, _worker: usize| find_or_look(&looks, node),
    );
    let took = began.elapsed(rt)?.as_millis();
    Ok((looks.of_others.load(Ordering::SeqCst), took))
}

// Who has found nothing naps for 20 millionths of a second, and twice as long each time up to a thousandth. So in some
// milliseconds it looks once for each, and eight times more at most, however slow the machine is. Who does not nap is seen only
// while it runs beside the one that finds. So there are several tries.
#[test]
fn who_finds_nothing_looks_seldom(rt: HostRuntime) -> Result<(), Fail> {
    for _try in 0..5u8 {
        let (looks, took) = count_looks(&rt)?;
        let most = took.saturating_add(8).saturating_mul(15);
        assert!(rt; looks > 0 && u128::from(looks) <= most, "{looks}");
    }
    Ok(())
}
