//! Votes of an agreement as text.

use hb_wire::{Vals, Vote};
use std::alloc::{AllocError, Global};

// The votes, each in three letters: its kind, its round, and its bit or set, or the last digit of its share.
pub(crate) fn text_of(alloc: Global, votes: &[Vote]) -> Result<Vec<u8>, AllocError> {
    let mut text = Vec::new(alloc);
    for vote in votes {
        text.extend_from_slice(&letters_of(vote))?;
    }
    Ok(text)
}

fn letters_of(vote: &Vote) -> [u8; 3] {
    match vote {
        Vote::Est { round, bit, .. } => letters(b'E', *round, *bit as u8),
        Vote::Bval { round, bit, .. } => letters(b'B', *round, *bit as u8),
        Vote::Aux { round, bit, .. } => letters(b'A', *round, *bit as u8),
        Vote::Conf { round, vals, .. } => letters(b'C', *round, number_of(*vals)),
        Vote::Pick { round, vals, .. } => letters(b'P', *round, number_of(*vals)),
        Vote::Coin { round, share, .. } => letters(b'S', *round, *share),
        Vote::Decided { bit, .. } => letters(b'D', 0, *bit as u8),
        _ => letters(b'?', 0, 0),
    }
}

fn letters(kind: u8, round: u8, value: u8) -> [u8; 3] {
    [kind, b'0' + round % 10, b'0' + value % 10]
}

fn number_of(vals: Vals) -> u8 {
    match vals {
        Vals::Zero => 1,
        Vals::One => 2,
        Vals::Both => 3,
    }
}

// FNV-1a over more bytes.
pub(crate) fn mixed(mut sum: u64, bytes: &[u8]) -> u64 {
    for &byte in bytes {
        sum = (sum ^ byte as u64).wrapping_mul(0x0100_0000_01b3);
    }
    sum
}
