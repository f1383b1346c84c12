//! One thread by hand, and two and four senders beside a receiver.
ghost use Rattle.std.specs.Prelude.{◌≡◌, [], ◌∷◌, ◌<◌, ◌≤◌, IfOk};
ghost use Rattle.std.specs.Thread.{IsSync};

use super::*;
use std::sync::atomic::{AtomicU64, Ordering};
use std::test::*;
use std::thread;
use std::thread::Threads;

const EACH: u32 = 10_000;

// Closes a mailbox whose first pass was split once.
fn close_two<R: Wait>(
    rt: &R,
    alloc: Global,
    mailbox: Mailbox,
    puts: (PutPass, PutPass),
    take: TakePass,
) -> Result<Vec<u32>, AllocError>
    requires same { (puts.0.at ≡ mailbox) × (puts.1.at ≡ mailbox) × (take.at ≡ mailbox) }
    requires all { (puts.0.splits ≡ 1) × (puts.1.splits ≡ 1) × (take.splits ≡ []) }
{
    let all = Vec::from_array(alloc, [puts.0, puts.1])?;
    mailbox.close(rt, alloc, all, take)
}

// Closes a mailbox whose first pass was split once, and whose other pass was handed in.
fn close_one<R: Wait>(
    rt: &R,
    alloc: Global,
    mailbox: Mailbox,
    put: PutPass,
    take: TakePass,
) -> Result<Vec<u32>, AllocError>
    requires same { (put.at ≡ mailbox) × (take.at ≡ mailbox) }
    requires all { (put.splits ≡ 1) × (take.splits ≡ 1 ∷ []) }
{
    let all = Vec::from_array(alloc, [put])?;
    mailbox.close(rt, alloc, all, take)
}

// Puts the numbers of one sender, and says then that it has ended, also where there was no memory.
fn send<R: Wait>(
    rt: &R,
    mailbox: &Mailbox,
    mut pass: PutPass,
    sender: u32,
    ended: &AtomicU64,
) -> PutPass
    requires { (pass.at ≡ mailbox.now) × (sender < 4) }
    ensures { (result.at ≡ mailbox.now) × (result.splits ≡ pass.splits) }
{
    for i in 0..EACH {
        if mailbox.put(rt, &mut pass, sender * EACH + i).is_err() {
            break;
        }
    }
    ended.fetch_add(1, Ordering::SeqCst);
    pass
}

// Takes until the mailbox is empty after all senders have ended.
fn receive<R: Wait>(
    rt: &R,
    alloc: Global,
    mailbox: &Mailbox,
    mut pass: TakePass,
    senders: u64,
    ended: &AtomicU64,
) -> Result<(TakePass, Vec<u32>), AllocError>
    requires { (pass.at ≡ mailbox.now) × (pass.splits ≡ []) }
    ensures { IfOk result (λ r. (r.0.at ≡ mailbox.now) × (r.0.splits ≡ [])) }
{
    let mut got = Vec::new(alloc);
    for _ in rt.forever() {
        let all_ended = ended.load(Ordering::SeqCst) >= senders;
        match mailbox.take(rt, &mut pass) {
            Some(number) => got.push(number)?,
            None => {
                if all_ended {
                    break;
                }
                thread::yield_now();
            }
        }
    }
    Ok((pass, got))
}

// Two put passes of one mailbox, each with a quarter of the right to put.
#[derive(Drop)]
struct Pair {
    left: PutPass,
    right: PutPass,
    ghost together: { right.at ≡ left.at },
    ghost quarters: { (left.splits ≡ 2) × (right.splits ≡ 2) },
}

// Two senders in threads, of which the first has the number `from`.
fn send_two<R: Threads + Wait + Sync>(
    rt: &R,
    mailbox: &Mailbox,
    pair: Pair,
    from: u32,
    ended: &AtomicU64,
) -> Pair
    requires { (pair.left.at ≡ mailbox.now) × (from < 3) }
    ensures { result.left.at ≡ mailbox.now }
{
    let Pair { left, right } = pair;
    let (left, right) = thread::join(
        rt,
        move || -> PutPass
            requires { IsSync R.row × (left.at ≡ mailbox.now) × (from < 3) }
            ensures { (result.at ≡ mailbox.entry.now) × (result.splits ≡ left.splits) }
        { send(rt, mailbox, left, from, ended) },
        move || -> PutPass
            requires { IsSync R.row × (right.at ≡ mailbox.now) × (from < 3) }
            ensures { (result.at ≡ mailbox.entry.now) × (result.splits ≡ right.splits) }
        { send(rt, mailbox, right, from + 1, ended) },
    );
    Pair { left, right }
}

// Of four senders the first two, or all.
fn send_some<R: Threads + Wait + Sync>(
    rt: &R,
    mailbox: &Mailbox,
    pairs: (Pair, Pair),
    senders: usize,
    ended: &AtomicU64,
) -> (Pair, Pair)
    requires { (pairs.0.left.at ≡ mailbox.now) × (pairs.1.left.at ≡ mailbox.now) }
    ensures { (result.0.left.at ≡ mailbox.now) × (result.1.left.at ≡ mailbox.now) }
{
    let (left, right) = pairs;
    if senders < 4 {
        return (send_two(rt, mailbox, left, 0, ended), right);
    }
    thread::join(
        rt,
        move || -> Pair
            requires { IsSync R.row × (left.left.at ≡ mailbox.now) }
            ensures { result.left.at ≡ mailbox.entry.now }
        { send_two(rt, mailbox, left, 0, ended) },
        move || -> Pair
            requires { IsSync R.row × (right.left.at ≡ mailbox.now) }
            ensures { result.left.at ≡ mailbox.entry.now }
        { send_two(rt, mailbox, right, 2, ended) },
    )
}

fn close_four<R: Wait>(
    rt: &R,
    alloc: Global,
    mailbox: Mailbox,
    pairs: (Pair, Pair),
    take: TakePass,
) -> Result<Vec<u32>, AllocError>
    requires { (pairs.0.left.at ≡ mailbox) × (pairs.1.left.at ≡ mailbox) × (take.at ≡ mailbox) × (take.splits ≡ []) }
{
    let (one, other) = pairs;
    let all = Vec::from_array(alloc, [one.left, one.right, other.left, other.right])?;
    mailbox.close(rt, alloc, all, take)
}

// What a receiver took while two or four senders put, and what was left then.
fn exchange<R: Threads + Wait + Sync>(
    rt: &R,
    alloc: Global,
    senders: usize,
) -> Result<(Vec<u32>, Vec<u32>), AllocError> {
    let ended = AtomicU64::new(0);
    let (mailbox, mut first, take) = Mailbox::new(alloc)?;
    let mut second = mailbox.split(&mut first);
    let third = mailbox.split(&mut first);
    let fourth = mailbox.split(&mut second);
    let left = Pair {
        left: first,
        right: second,
    };
    let right = Pair {
        left: third,
        right: fourth,
    };
    let pairs = (left, right);
    let shared = &mailbox;
    let count = &ended;
    let (pairs, received) = thread::join(
        rt,
        move || -> (Pair, Pair)
            requires { IsSync R.row × (pairs.0.left.at ≡ shared.now) × (pairs.1.left.at ≡ shared.now) }
            ensures { (result.0.left.at ≡ shared.entry.now) × (result.1.left.at ≡ shared.entry.now) }
        { send_some(rt, shared, pairs, senders, count) },
        move || -> Result<(TakePass, Vec<u32>), AllocError>
            requires { IsSync R.row × (take.at ≡ shared.now) × (take.splits ≡ []) }
            ensures { IfOk result (λ r. (r.0.at ≡ shared.entry.now) × (r.0.splits ≡ [])) }
        { receive(rt, alloc, shared, take, senders as u64, count) },
    );
    let (take, taken) = received?;
    let rest = close_four(rt, alloc, mailbox, pairs, take)?;
    Ok((taken, rest))
}

// Each sender's numbers have come in order, each once, and none beside them.
fn is_complete(taken: &[u32], senders: usize) -> bool
    requires { senders ≤ 4 }
{
    let mut next = [0u32; 4];
    for &number in taken {
        let sender = (number / EACH) as usize;
        if sender >= senders || next[sender] != number % EACH {
            return false;
        }
        next[sender] = number % EACH + 1;
    }
    next.iter().take(senders).all(|&count| count == EACH)
}

#[test]
fn one_thread(rt: HostRuntime) -> Result<(), Fail> {
    let (mailbox, mut first, mut take) = Mailbox::new(rt.alloc())?;
    let mut second = mailbox.split(&mut first);
    assert_eq!(rt; mailbox.put(&rt, &mut first, 3), Ok(()));
    assert_eq!(rt; mailbox.put(&rt, &mut second, 5), Ok(()));
    assert_eq!(rt; mailbox.take(&rt, &mut take), Some(3));
    assert_eq!(rt; mailbox.take(&rt, &mut take), Some(5));
    assert_eq!(rt; mailbox.take(&rt, &mut take), None);
    assert_eq!(rt; mailbox.put(&rt, &mut first, 7), Ok(()));
    let rest = close_two(&rt, rt.alloc(), mailbox, (first, second), take)?;
    assert_eq!(rt; rest.as_slice(), [7].as_slice());
    Ok(())
}

#[test]
fn a_pass_that_is_handed_in(rt: HostRuntime) -> Result<(), Fail> {
    let (mailbox, mut first, mut take) = Mailbox::new(rt.alloc())?;
    let mut second = mailbox.split(&mut first);
    assert_eq!(rt; mailbox.put(&rt, &mut second, 5), Ok(()));
    assert_eq!(rt; mailbox.put(&rt, &mut first, 3), Ok(()));
    mailbox.join(&mut take, second);
    assert_eq!(rt; mailbox.take(&rt, &mut take), Some(5));
    assert_eq!(rt; mailbox.take(&rt, &mut take), Some(3));
    assert_eq!(rt; mailbox.take(&rt, &mut take), None);
    assert_eq!(rt; mailbox.put(&rt, &mut first, 7), Ok(()));
    let rest = close_one(&rt, rt.alloc(), mailbox, first, take)?;
    assert_eq!(rt; rest.as_slice(), [7].as_slice());
    Ok(())
}

#[test]
fn many_threads(rt: HostRuntime) -> Result<(), Fail> {
    for senders in [2, 4] {
        let (taken, rest) = exchange(&rt, rt.alloc(), senders)?;
        assert!(rt; is_complete(taken.as_slice(), senders), "{senders} senders");
        assert!(rt; rest.is_empty(), "{senders} senders");
    }
    Ok(())
}

// Puts a number for the receiver itself.
fn put_own<R: Wait>(
    rt: &R,
    mailbox: &Mailbox,
    take: &mut TakePass,
    own: &mut PutPass,
    number: u32,
) -> Result<(), u32>
    requires { (take.old.at ≡ mailbox.now) × (own.old.at ≡ mailbox.now) }
    ensures take { (take.new.at ≡ take.old.at) × (take.new.splits ≡ take.old.splits) }
    ensures own { (own.new.at ≡ own.old.at) × (own.new.splits ≡ own.old.splits) }
{
    match mailbox.put_own(rt, take, own, number) {
        Ok(()) => Ok(()),
        Err(back) => Err(back),
    }
}

// Takes twice.
fn take_two<R: Wait>(rt: &R, mailbox: &Mailbox, take: &mut TakePass) -> (Option<u32>, Option<u32>)
    requires { take.old.at ≡ mailbox.now }
    ensures { (take.new.at ≡ take.old.at) × (take.new.splits ≡ take.old.splits) }
{
    let first = mailbox.take(rt, take);
    let second = mailbox.take(rt, take);
    (first, second)
}

#[test]
fn own_numbers(rt: HostRuntime) -> Result<(), Fail> {
    let (mailbox, mut first, mut take) = Mailbox::new(rt.alloc())?;
    let mut own = mailbox.split(&mut first);
    assert_eq!(rt; put_own(&rt, &mailbox, &mut take, &mut own, 5), Ok(()));
    assert_eq!(rt; mailbox.put(&rt, &mut first, 3), Ok(()));
    assert_eq!(rt; put_own(&rt, &mailbox, &mut take, &mut own, 7), Ok(()));
    assert_eq!(rt; take_two(&rt, &mailbox, &mut take), (Some(5), Some(3)));
    assert_eq!(rt; take_two(&rt, &mailbox, &mut take), (Some(7), None));
    let rest = close_two(&rt, rt.alloc(), mailbox, (first, own), take)?;
    assert!(rt; rest.is_empty());
    Ok(())
}
