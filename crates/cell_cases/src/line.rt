//! In which order envelopes are taken, by hand.
ghost use Rattle.std.specs.Prelude.{◌+◌, ◌^◌, ◌<◌};

use net_script::{Order, Shape};
use rand_chacha::ChaCha20Rng;
use seed_words::words_of;
use std::alloc::{AllocError, Global};
use std::test::Fail;
use step_driver::{Envelope, Line};

// Of the posts 0 to 3, post 1 comes twice and post 2 late, and post 3 is dropped.
static SHAPES: [Shape; 4] = [Shape::Once, Shape::Twice, Shape::Late, Shape::Drop];

fn four_posts(alloc: Global) -> Result<Line, AllocError> {
    let mut line = Line::new(alloc);
    for post in 0..4u32 {
        line.add(SHAPES[post as usize], Envelope { post, place: 0 })?;
    }
    line.add(Shape::Once, Envelope { post: 4, place: 0 })?;
    Ok(line)
}

// The posts of the envelopes, as they are taken.
fn taken(
    alloc: Global,
    line: &mut Line,
    order: Order,
    words: &mut ChaCha20Rng,
) -> Result<Vec<u32>, AllocError>
    requires { words.old.word_pos + 100 < 2 ^ 68 }
{
    let mut posts = Vec::new(alloc);
    for _turn in 0..8u32 {
        if let Some(envelope) = line.take(order, words) {
            posts.push(envelope.post)?;
        }
    }
    Ok(posts)
}

// Whether the posts that are taken are these.
fn are_taken(alloc: Global, order: Order, posts: &[u32]) -> Result<bool, AllocError> {
    let mut line = four_posts(alloc)?;
    let taken = taken(alloc, &mut line, order, &mut words_of(7, 1))?;
    Ok(taken.as_slice() == posts)
}

#[test]
fn late_ones_come_last(rt: HostRuntime) -> Result<(), Fail> {
    assert!(rt; are_taken(rt.alloc(), Order::Fifo, &[0, 1, 1, 4, 2])?);
    Ok(())
}

// The first words of the number 7 with filler 1 are 0x618E9B30, 0x3487DCBD, 0xA5D25AF9 and 0x10CD73A1: they are 0 modulo 4,
// 2 modulo 3, 1 modulo 2.
#[test]
fn words_mix(rt: HostRuntime) -> Result<(), Fail> {
    assert!(rt; are_taken(rt.alloc(), Order::Mixed, &[0, 4, 1, 1, 2])?);
    Ok(())
}
