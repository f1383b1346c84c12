//! Votes as text, and back. A batch of one-letter transactions is two bytes of count, and two bytes of length before each.

use hb_base::Bytes;
use hb_wire::{Item, Items, Vote};
use std::alloc::{AllocError, Global};
use std::test::Fail;

/// The bytes of the batch of these letters, or a byte that is no batch for a question mark.
pub(crate) fn batch_of(alloc: Global, letters: &[u8]) -> Result<Bytes, AllocError> {
    if letters == b"?".as_slice() {
        return Bytes::copy(alloc, &[0xFF]);
    }
    let mut count = 0u8;
    let mut bytes = Vec::from_slice(alloc, &[0, 0])?;
    for letter in letters {
        count = count.saturating_add(1);
        bytes.extend_from_slice(&[0, 1, *letter])?;
    }
    if bytes.len() > 1 {
        bytes[1] = count;
    }
    Bytes::from_vec(bytes)
}

// Adds the letters of a batch to a text.
fn push_letters(text: &mut Vec<u8>, value: &Bytes) -> Result<(), AllocError> {
    let bytes = value.as_slice();
    if bytes.len() == 1 {
        text.push(b'?')?;
    }
    for place in 2..bytes.len() {
        if place % 3 == 1 {
            text.push(bytes[place])?;
        }
    }
    Ok(())
}

/// Adds votes to a text, with + between them, or a dot for none.
pub(crate) fn push_votes(text: &mut Vec<u8>, votes: &[Vote]) -> Result<(), AllocError> {
    if votes.is_empty() {
        text.push(b'.')?;
    }
    let mut is_first = true;
    for vote in votes {
        if !is_first {
            text.push(b'+')?;
        }
        push_vote(text, vote)?;
        is_first = false;
    }
    Ok(())
}

// Adds a vote of a desk to a text.
fn push_vote(text: &mut Vec<u8>, vote: &Vote) -> Result<(), AllocError> {
    match vote {
        Vote::Propose { epoch, value } => {
            text.extend_from_slice(&[b'P', epoch.saturating_add(b'0')])?;
            push_letters(text, value)
        }
        Vote::NoMore { epoch } => {
            text.extend_from_slice(&[b'N', epoch.saturating_add(b'0')])?;
            Ok(())
        }
        Vote::Closed { epoch, list } => {
            text.extend_from_slice(&[b'C', epoch.saturating_add(b'0')])?;
            for item in list.as_slice() {
                text.push(item.node.saturating_add(b'0'))?;
                push_letters(text, &item.value)?;
            }
            Ok(())
        }
        _ => {
            text.push(b'!')?;
            Ok(())
        }
    }
}

/// The votes of a desk that a text tells, one vote after another.
pub(crate) fn votes_of(alloc: Global, text: &str) -> Result<Vec<Vote>, Fail> {
    let mut votes = Vec::new(alloc);
    for part in text.split('+') {
        if part != "." && !part.is_empty() {
            votes.push(vote_of(alloc, part.as_bytes())?)?;
        }
    }
    Ok(votes)
}

// The vote of a desk that a text tells.
fn vote_of(alloc: Global, text: &[u8]) -> Result<Vote, Fail> {
    match text {
        [b'P', epoch, letters @ ..] => Ok(Vote::Propose {
            epoch: epoch.saturating_sub(b'0'),
            value: batch_of(alloc, letters)?,
        }),
        [b'N', epoch] => Ok(Vote::NoMore {
            epoch: epoch.saturating_sub(b'0'),
        }),
        [b'C', epoch, items @ ..] => Ok(Vote::Closed {
            epoch: epoch.saturating_sub(b'0'),
            list: items_of(alloc, items)?,
        }),
        _ => Err("no vote of a desk".into()),
    }
}

// Adds an item of this lane to a list, with the batch of these letters.
fn push_item(alloc: Global, items: &mut Items, node: u8, letters: &[u8]) -> Result<(), AllocError> {
    let value = batch_of(alloc, letters)?;
    items.push(Item { node, value })
}

// The items that a text tells: the digit of a lane, and letters, for each.
fn items_of(alloc: Global, text: &[u8]) -> Result<Items, AllocError> {
    let mut items = Items::new(alloc);
    let mut node = 0u8;
    let mut letters = Vec::new(alloc);
    let mut is_begun = false;
    for byte in text {
        if byte.is_ascii_digit() {
            if is_begun {
                push_item(alloc, &mut items, node, &letters)?;
            }
            node = byte.saturating_sub(b'0');
            letters.clear();
            is_begun = true;
        } else {
            letters.push(*byte)?;
        }
    }
    if is_begun {
        push_item(alloc, &mut items, node, &letters)?;
    }
    Ok(items)
}

/// The lane that speaks, and what it says.
pub(crate) fn said(alloc: Global, text: &[u8]) -> Result<(u8, Vote), Fail> {
    match text {
        [kind, lane, epoch, letters @ ..] => {
            let epoch = epoch.saturating_sub(b'0');
            let vote = match kind {
                b'=' => Vote::Delivered {
                    epoch,
                    value: batch_of(alloc, letters)?,
                },
                _ => Vote::Decided {
                    epoch,
                    bit: *kind == b'+',
                },
            };
            Ok((lane.saturating_sub(b'0'), vote))
        }
        _ => Err("no word of a lane".into()),
    }
}
