//! Posts, told by words.

use crate::callers::count_accused;
use accuse::{Accusation, accuse};
use hb_base::{Bytes, Config, NodeSet};
use hb_wire::{Post, PostBytes, To};
use std::alloc::Global;
use std::process::Abort;
use std::test::Fail;

// Adds so many bytes that are all alike.
fn put_alike(bytes: &mut Vec<u8>, count: u8, byte: u8) -> Result<(), Fail> {
    for _ in 0..count {
        bytes.push(byte)?;
    }
    Ok(())
}

// The bytes that a word tells: two digits of base 16 for each; r and s for two roots, t and u for two salts, v and w for two
// branches of a tree of four leaves, and l for a length of 1. Dots part them.
fn bytes_of(alloc: Global, word: &str) -> Result<Vec<u8>, Fail> {
    let mut bytes = Vec::new(alloc);
    let mut high = None;
    for letter in word.as_bytes() {
        match (*letter, high) {
            (b'.', _) => {}
            (b'r'..=b's', _) => put_alike(&mut bytes, 32, *letter)?,
            (b't'..=b'u', _) => put_alike(&mut bytes, 16, *letter)?,
            (b'v'..=b'w', _) => put_alike(&mut bytes, 64, *letter)?,
            (b'l', _) => bytes.extend_from_slice(&[0, 0, 0, 1])?,
            (digit, None) => high = Some(digit_of(digit)),
            (digit, Some(tens)) => {
                bytes.push(tens.saturating_mul(16).saturating_add(digit_of(digit)))?;
                high = None;
            }
        }
    }
    Ok(bytes)
}

// The number that a digit of base 16 tells.
fn digit_of(letter: u8) -> u8 {
    if letter < b'a' {
        letter.saturating_sub(b'0')
    } else {
        letter.saturating_sub(b'a').saturating_add(10)
    }
}

// The post that a word tells: its node, its actor and its bytes.
fn post_of(alloc: Global, word: &str) -> Result<Post, Fail> {
    let bytes = bytes_of(alloc, word)?;
    match bytes.as_slice() {
        [from, actor, rest @ ..] => Ok(Post {
            from: *from,
            actor: *actor,
            to: To::All,
            bytes: PostBytes::plain(Bytes::copy(alloc, rest)?),
        }),
        _ => Err("no post".into()),
    }
}

// The posts that words tell.
pub(crate) fn posts_of(alloc: Global, words: &[&str]) -> Result<Vec<Post>, Fail> {
    let mut posts = Vec::new(alloc);
    for word in words {
        posts.push(post_of(alloc, word)?)?;
    }
    Ok(posts)
}

// A run of so many nodes, of which as many as may are faulty, of one epoch and three rounds.
pub(crate) fn config_of(nodes: u8, version: u8) -> Result<Config, Fail> {
    let faulty = nodes.saturating_sub(1) / 3;
    Ok(Config::new(nodes, faulty, 1, 3, 64, 0, version, NodeSet::new()).ok_or("no config")?)
}

// Whether these are the accusations, told by numbers.
fn are_these(found: &[Accusation], wanted: &[(u8, u32, u32)]) -> bool {
    let mut same = found.len() == wanted.len();
    for (accusation, numbers) in found.iter().zip(wanted) {
        let (node, first, second) = *numbers;
        same = same
            && *accusation
                == Accusation {
                    node,
                    first,
                    second,
                };
    }
    same
}

// Whether the history of these words accuses these nodes, and they are as many as are counted.
fn accuses(
    alloc: Global,
    config: &Config,
    words: &[&str],
    wanted: &[(u8, u32, u32)],
) -> Result<bool, Fail> {
    let posts = posts_of(alloc, words)?;
    if posts.len() > 1000 {
        return Err("too many posts".into());
    }
    let count = count_accused(alloc, config, &posts)?;
    let found = accuse(alloc, config, &posts)?;
    Ok(count == wanted.len() && are_these(&found, wanted))
}

// What a history shows; the number of nodes, and the version of the rules; a word for each post; and for each accused node its
// number and those of its two posts.
pub(crate) type History<'a> = (&'a str, u8, u8, &'a [&'a str], &'a [(u8, u32, u32)]);

// Checks whom each of these histories accuses.
pub(crate) fn check_all(
    rt: &impl Abort,
    alloc: Global,
    histories: &[History<'_>],
) -> Result<(), Fail> {
    for (what, nodes, version, posts, wanted) in histories {
        let config = config_of(*nodes, *version)?;
        assert!(rt; accuses(alloc, &config, posts, wanted)?, "{what}");
    }
    Ok(())
}
