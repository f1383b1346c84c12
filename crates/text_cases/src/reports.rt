//! Reports, told by words.

use disk_model::{MemoryDisk, Note, Plan, Power};
use hb_base::{Bytes, Config, MemorySink, NodeSet};
use hb_rules::{End, Fate, Report};
use hb_wire::{Post, PostBytes, To};
use std::alloc::{AllocError, Global};
use std::test::Fail;

// A run as it is told: how many nodes it has, and how many of them may lie; the liars' nodes; for each node a word with a letter
// for each actor, its fate or a dot where its end is missing; and the history.
//
// The history is a word for each post: the node, the actor, which is d for the desk, the kind, two digits of the epoch, and
// letters. Nodes are digits of base 16. C closes with a list, which has for each node the letter of its batch or a dash; P
// proposes the batch of a letter.
#[derive(Clone, Copy)]
pub(crate) struct Told {
    pub(crate) nodes: u8,
    pub(crate) faulty: u8,
    pub(crate) liars: &'static [u8],
    pub(crate) ends: &'static str,
    pub(crate) history: &'static str,
    pub(crate) status: u8,
}

// The bytes of the batch of a letter: those of a lower-case letter have one transaction, which is the letter.
fn batch_of(letter: u8) -> &'static [u8] {
    match letter {
        b'a' => b"\x00\x01\x00\x01a",
        b'b' => b"\x00\x01\x00\x01b",
        b'c' => b"\x00\x01\x00\x01c",
        b'd' => b"\x00\x01\x00\x01d",
        // one transaction twice
        b'T' => b"\x00\x02\x00\x01a\x00\x01a",
        // three, of which the first two are those of a and b
        b'M' => b"\x00\x03\x00\x01a\x00\x01b\x00\x02\xff\x00",
        // two that begin alike
        b'L' => b"\x00\x02\x00\x02ab\x00\x03abc",
        // no transaction
        b'0' => b"\x00\x00",
        // no batch: a transaction is missing, one is empty, a byte too many
        b'X' => b"\x00\x02\x00\x01a",
        b'Y' => b"\x00\x01\x00\x00",
        b'Z' => b"\x00\x01\x00\x01a\x00",
        // no bytes
        _ => b"",
    }
}

// The number that a digit tells, up to 15.
fn digit(byte: u8) -> u8 {
    if byte < b'a' {
        byte.saturating_sub(b'0')
    } else {
        byte.saturating_sub(b'a').saturating_add(10)
    }
}

fn put_value(bytes: &mut Vec<u8>, letter: u8) -> Result<(), AllocError> {
    let value = batch_of(letter);
    bytes.extend_from_slice(&[0, 0, 0, value.len().min(255) as u8])?;
    bytes.extend_from_slice(value)
}

// The bytes of a closed list with these letters.
fn list_bytes(alloc: Global, epoch: u8, letters: &[u8]) -> Result<Bytes, AllocError> {
    let mut items = Vec::new(alloc);
    let mut count = 0u8;
    let mut node = 0u8;
    for letter in letters {
        if *letter != b'-' {
            items.push(node)?;
            put_value(&mut items, *letter)?;
            count = count.saturating_add(1);
        }
        node = node.saturating_add(1);
    }
    let mut bytes = Vec::from_slice(alloc, &[0x12, epoch, count])?;
    bytes.append(&mut items)?;
    Bytes::from_vec(bytes)
}

fn proposal_bytes(alloc: Global, epoch: u8, letter: u8) -> Result<Bytes, AllocError> {
    let mut bytes = Vec::from_slice(alloc, &[0x10, epoch])?;
    put_value(&mut bytes, letter)?;
    Bytes::from_vec(bytes)
}

// The post that a word tells.
fn post_of(alloc: Global, nodes: u8, word: &str) -> Result<Post, Fail> {
    match word.as_bytes() {
        [node, actor, kind, tens, ones, letters @ ..] => {
            let epoch = digit(*tens).saturating_mul(10).saturating_add(digit(*ones));
            let bytes = match kind {
                b'C' => list_bytes(alloc, epoch, letters)?,
                _ => proposal_bytes(alloc, epoch, letters.first().copied().unwrap_or(b' '))?,
            };
            Ok(Post {
                from: digit(*node),
                actor: if *actor == b'd' { nodes } else { digit(*actor) },
                to: To::Home,
                bytes: PostBytes::plain(bytes),
            })
        }
        _ => Err("no post".into()),
    }
}

// How far a disk has come that nobody used.
fn no_calls(alloc: Global) -> Note {
    let plan = Plan {
        stops: Vec::new(alloc),
        faults: Vec::new(alloc),
    };
    MemoryDisk::new(alloc, plan).note()
}

fn fate_of(letter: u8) -> Option<Fate> {
    match letter {
        b'r' => Some(Fate::Running),
        b'm' => Some(Fate::Memory),
        b'j' => Some(Fate::Journal),
        b'f' => Some(Fate::Full),
        _ => None,
    }
}

// Adds the ends of the actors of a node.
fn add_ends(alloc: Global, ends: &mut Vec<End>, node: u8, word: &str) -> Result<(), AllocError> {
    let mut actor = 0u8;
    for letter in word.as_bytes() {
        if let Some(fate) = fate_of(*letter) {
            ends.push(End {
                node,
                actor,
                fate,
                got: Vec::new(alloc),
                note: no_calls(alloc),
            })?;
        }
        actor = actor.saturating_add(1);
    }
    Ok(())
}

fn config_of(told: Told) -> Option<Config> {
    let mut liars = NodeSet::new();
    for node in told.liars {
        if *node < 16 {
            liars.add(*node);
        }
    }
    Config::new(told.nodes, told.faulty, 32, 8, 16, 7, 2, liars)
}

// The report of a run.
pub(crate) fn report_of(alloc: Global, told: Told) -> Result<Report, Fail> {
    let mut report = Report::empty(alloc);
    report.config = config_of(told).ok_or("no config")?;
    report.status = told.status;
    report.script.workers = 3;
    let mut node = 0u8;
    for word in told.ends.split(' ') {
        add_ends(alloc, &mut report.ends, node, word)?;
        node = node.saturating_add(1);
    }
    for word in told.history.split(' ') {
        if !word.is_empty() {
            report.history.push(post_of(alloc, told.nodes, word)?)?;
        }
    }
    Ok(report)
}

// A sink whose call with this number fails.
pub(crate) fn failing_sink(alloc: Global, call: u32) -> Result<MemorySink, AllocError> {
    Ok(MemorySink::new(alloc, vec![in alloc; call]?))
}

// So many lines of a text, from its front.
pub(crate) fn lines(text: &[u8], count: u32) -> &[u8] {
    let mut left = count;
    let mut at = 0usize;
    for byte in text {
        if left == 0 {
            break;
        }
        if *byte == b'\n' {
            left = left.saturating_sub(1);
        }
        at = at.saturating_add(1);
    }
    &text[..at.min(text.len())]
}
