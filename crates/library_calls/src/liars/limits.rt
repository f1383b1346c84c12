//! How much a liar may say, and how long it takes to hear much.

use super::*;
use liar_cast::Said;

// How often a lie of so many bytes is said, and each time with this answer.
fn calls() -> &'static [(u32, usize, Said)] {
    &[
        (1, 20_001, Said::Long),
        (1, 20_000, Said::Taken),
        (4_095, 1, Said::Taken),
        (2, 1, Said::Spent),
        (1, 20_000, Said::Spent),
        (1, 20_001, Said::Long),
    ]
}

// Whether a lie of so many bytes is answered so, so many times.
fn is_answer(
    alloc: Global,
    lies: &mut Lies,
    call: &(u32, usize, Said),
) -> Result<bool, AllocError> {
    let (count, length, want) = *call;
    let bytes = vec![in alloc; 0u8; length]?;
    for _ in 0..count {
        if lies.say(alloc, 2, To::Node(1), &bytes) != want {
            return Ok(false);
        }
    }
    Ok(true)
}

#[test]
fn answers(rt: HostRuntime) -> Result<(), Fail> {
    let mut lies = Lies::new(rt.alloc(), 3);
    for call in calls() {
        assert!(rt; is_answer(rt.alloc(), &mut lies, call)?, "{call:?}");
    }
    let count = lies.waiting().len();
    lies.clear();
    let said = lies.say(rt.alloc(), 2, To::All, &[]);
    assert!(rt; count == 4_096 && said == Said::Spent);
    Ok(())
}

// How many lies each kind tells of the 100,000 posts below, where none is refused. Each of 33,333 VALs is answered to
// 16 nodes. BVALs and COINs come twice in each of 16 lanes, 32 epochs and 32 rounds, which is 16,384 times a first one.
fn told() -> &'static [(&'static str, u32)] {
    &[
        ("silent", 0),
        ("equivocate", 0),
        ("echo_split", 533_328),
        ("bval_both", 65_536),
        ("false_share", 16_384),
        ("babble", 200_000),
    ]
}

// A COIN among 16 nodes, with a branch of 4 digests.
fn coin(epoch: u8, round: u8) -> [u8; 148] {
    let mut coin = [0; 148];
    coin[0] = 9;
    coin[1] = epoch;
    coin[2] = round;
    coin
}

// A VAL for node 2 among 16 nodes, with a shard of one byte and a branch of 4 digests.
fn val(epoch: u8) -> [u8; 168] {
    let mut val = [0; 168];
    val[0] = 1;
    val[1] = epoch;
    val[2] = 2;
    val[38] = 1;
    val
}

// Post k: a BVAL, a COIN and a VAL for node 2 in turn, lane by lane, then epoch by epoch, then round by round.
fn post_of(alloc: Global, k: u32) -> Result<Post, AllocError> {
    let place = k / 3;
    let epoch = (place / 16 % 32) as u8;
    let round = (place / 512 % 32) as u8;
    let bytes = match k % 3 {
        0 => Bytes::copy(alloc, &[6, epoch, round, 1])?,
        1 => Bytes::copy(alloc, &coin(epoch, round))?,
        _ => Bytes::copy(alloc, &val(epoch))?,
    };
    Ok(Post {
        from: 1,
        actor: (place % 16) as u8,
        to: To::All,
        bytes: PostBytes::plain(bytes),
    })
}

// How many lies a kind tells of 100,000 posts, where each call may tell as many as it will.
fn told_of(alloc: Global, me: &LiarSeat, name: &str) -> Result<u32, Fail> {
    let mut liar = liar_of(alloc, name)?;
    let mut told: u32 = 0;
    for k in 0..100_000 {
        let mut lies = Lies::new(alloc, me.node);
        liar.hear(alloc, me, &post_of(alloc, k)?, &mut lies);
        told = told.saturating_add(lies.waiting().len() as u32);
    }
    Ok(told)
}

#[test]
fn many_posts(rt: HostRuntime) -> Result<(), Fail> {
    let me = seat(16, 5, 32, 1, 2)?;
    for (name, want) in told() {
        assert!(rt; told_of(rt.alloc(), &me, name)? == *want, "{name}");
    }
    Ok(())
}
