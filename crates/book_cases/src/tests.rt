//! What the seats are told, what they read, and the closed history.
ghost use Rattle.std.specs.Prelude.{◌≡◌};
ghost use Rattle.book_cases.specs.Run.{IsRun, empty_proposal};

use crate::alone::post_alone;
use crate::crowd::{Crowd, MANY, actor_of, post_beside};
use crate::expected::{five_nodes, proposal, proposed_by};
use crate::pair::{Pair, post_two};
use hb_base::{Bytes, Config};
use hb_wire::{Post, PostBytes, To, Vote};
use post_book::Naming;
use std::alloc::{AllocError, Global};
use std::marker::Brand;
use std::sync::Wait;
use std::test::Fail;
use std::thread::Threads;

// The row: the desks of the nodes 0 and 1 post the proposal, on two threads or one after another.
fn post_row<J: Naming + Send + Sync, R: Threads + Wait + Sync>(
    rt: &R,
    alloc: Global,
    config: &Config,
    vote: &Vote,
    threads: bool,
) -> Result<Pair, AllocError>
    requires config { config.now ≡ J.config }
    requires run { IsRun J.config }
    requires vote { vote.now ≡ empty_proposal }
{
    post_two::<J, R>(rt, alloc, config, 5, vote, threads)
}

// Whether a reading gave this post.
fn is_found(found: &Result<Option<Post>, AllocError>, post: &Post) -> bool {
    match found {
        Ok(Some(found)) => found == post,
        _ => false,
    }
}

// Whether the history is the posts of these two nodes' desks, in this order, and was read so.
fn is_row(alloc: Global, pair: &Pair, one: u8, two: u8) -> Result<bool, AllocError> {
    let posts = [proposed_by(alloc, one)?, proposed_by(alloc, two)?];
    let first = is_found(&pair.look.at_0, &posts[0]) && is_found(&pair.look.again_0, &posts[0]);
    let none = match &pair.look.at_2 {
        Ok(None) => true,
        _ => false,
    };
    Ok(first && none && pair.look.count == 2 && pair.history.as_slice() == posts.as_slice())
}

#[test]
fn two_seats_on_one_thread(rt: HostRuntime) -> Result<(), Fail> {
    let alloc = rt.alloc();
    let config = five_nodes().ok_or("a config")?;
    let vote = proposal(alloc)?;
    let pair = post_row::<Brand, HostRuntime>(&rt, alloc, &config, &vote, false)?;
    assert_eq!(rt; (pair.one, pair.two), (Ok(0), Ok(1)));
    assert!(rt; is_row(alloc, &pair, 0, 1)?);
    Ok(())
}

// Either may come first.
#[test]
fn two_seats_on_two_threads(rt: HostRuntime) -> Result<(), Fail> {
    let alloc = rt.alloc();
    let config = five_nodes().ok_or("a config")?;
    let vote = proposal(alloc)?;
    let pair = post_row::<Brand, HostRuntime>(&rt, alloc, &config, &vote, true)?;
    if pair.one == Ok(0) {
        assert_eq!(rt; pair.two, Ok(1));
        assert!(rt; is_row(alloc, &pair, 0, 1)?);
    } else {
        assert_eq!(rt; (pair.one, pair.two), (Ok(1), Ok(0)));
        assert!(rt; is_row(alloc, &pair, 1, 0)?);
    }
    Ok(())
}

#[test]
fn a_desk_and_a_liar_on_one_thread(rt: HostRuntime) -> Result<(), Fail> {
    let alloc = rt.alloc();
    let config = five_nodes().ok_or("a config")?;
    let vote = proposal(alloc)?;
    let alone = post_alone::<Brand, HostRuntime>(&rt, alloc, &config, &vote)?;
    let vote_post = proposed_by(alloc, 0)?;
    assert!(rt; alone.read? == Some(vote_post));
    assert_eq!(rt; alone.lie, Ok(1));
    assert_eq!(rt; alone.places, [0, 5, 4, 255]);
    let lie = Post {
        from: 4,
        actor: 3,
        to: To::Book,
        bytes: PostBytes::plain(Bytes::copy(alloc, b"?")?),
    };
    assert!(rt; alone.history.as_slice() == [proposed_by(alloc, 0)?, lie].as_slice());
    Ok(())
}

// Whether the posts of a node stand at these numbers, in this order, and nowhere else, and there are as many as were posted.
fn are_at(history: &[Post], node: u8, numbers: &[u32]) -> bool {
    let mut left = numbers;
    for (k, post) in history.iter().enumerate() {
        if post.from == node {
            match left.split_first() {
                Some((&number, rest)) if number as usize == k => left = rest,
                _ => return false,
            }
        }
    }
    left.is_empty() && numbers.len() == MANY as usize
}

// Whether each post of a node is the one of the vote.
fn are_votes(alloc: Global, history: &[Post], node: u8) -> Result<bool, AllocError> {
    let want = proposed_by(alloc, node)?;
    Ok(
        history
            .iter()
            .all(|post| post.from != node || *post == want),
    )
}

// Whether the liar's posts are its lies, in order.
fn are_lies(history: &[Post]) -> bool {
    let mut next: u32 = 0;
    for post in history {
        if post.from == 4 {
            let same = post.actor == actor_of(next) && post.to == To::All;
            if !same || post.bytes.as_slice() != next.to_be_bytes().as_slice() {
                return false;
            }
            next = next.wrapping_add(1);
        }
    }
    next == MANY
}

#[test]
fn four_threads_and_a_liar(rt: HostRuntime) -> Result<(), Fail> {
    let alloc = rt.alloc();
    let config = five_nodes().ok_or("a config")?;
    let vote = proposal(alloc)?;
    let Crowd {
        history,
        desks,
        liar,
    } = post_beside::<Brand, HostRuntime>(&rt, alloc, &config, &vote)?;
    let numbers = [desks.a, desks.b, desks.c, desks.d, liar];
    for node in 0u8..5 {
        let told = numbers.get(node as usize).ok_or("a node")?;
        assert!(rt; are_at(&history, node, told), "node {node}");
    }
    for node in 0u8..4 {
        assert!(rt; are_votes(alloc, &history, node)?, "node {node}");
    }
    assert!(rt; are_lies(&history));
    assert_eq!(rt; history.len(), 5 * MANY as usize);
    Ok(())
}
