//! A long list of envelopes, from any place of which one is taken.

ghost use Rattle.std.specs.Prelude.{◌≡◌, ◌<◌, ◌+◌, ◌≤◌, true, [], ◌∷◌, ◌++◌, length, remove, slice_get, take, IfSome, IfNone, OnOk, OnErr, is_some};
ghost use Rattle.step_driver.specs.Blocks.{joined, IsFound, IsTakenAt};

use crate::block::Block;
use crate::envelope::Envelope;
use std::alloc::{AllocError, Global};
use std::marker::Model;

// How many envelopes a block has at most when it is filled.
const LONGEST_BLOCK: usize = 1_024;

// Envelopes in order, in blocks. One is added behind the others, or taken from the front, at a constant cost, but that the
// list of blocks is moved where one is emptied; to take one from elsewhere costs the number of blocks before it and half a block.
#[derive(Drop)]
pub(crate) struct Queue {
    blocks: Vec<Block>,
    count: usize,
}

impl Model for Queue {
    ghost use Rattle.std.specs.Prelude.{◌≡◌, List, length};
    ghost use Rattle.step_driver.specs.declared.envelope.Envelope.{Envelope};
    ghost use Rattle.step_driver.specs.Blocks.{joined};

    ghost Value = { List Envelope };

    ghost view = { λ q. joined q.blocks.items };

    ghost invariant = { λ q. q.count ≡ length (joined q.blocks.items) };
}

impl Queue {
    // No envelope. It takes no memory.
    pub(crate) fn new(alloc: Global) -> Queue
        ensures { result ≡ [] }
    {
        Queue {
            blocks: Vec::new(alloc),
            count: 0,
        }
    }

    // How many there are.
    pub(crate) fn len(&self) -> usize
        ensures { result ≡ length self.now }
    {
        self.count
    }

    // Adds one behind the others. Err changes nothing.
    pub(crate) fn push(&mut self, envelope: Envelope) -> Result<(), AllocError>
        ensures ok { OnOk result (self.new ≡ self.old ++ envelope ∷ []) }
        ensures err { OnErr result (self.new ≡ self.old) }
    {
        let Some(count) = self.count.checked_add(1) else {
            return Err(AllocError);
        };
        push_last(&mut self.blocks, envelope)?;
        self.count = count;
        Ok(())
    }

    // Takes out the one at this place, and None where there are no more than so many.
    pub(crate) fn take(&mut self, at: usize) -> Option<Envelope>
        ensures taken { result ≡ slice_get self.old at }
        ensures rest { IfSome result (λ _. self.new ≡ remove self.old at) }
        ensures none { IfNone result (self.new ≡ self.old) }
    {
        let Some((block, place)) = find(self.blocks.as_slice(), at) else {
            return None;
        };
        let taken = take_from(&mut self.blocks, block, place);
        self.count -= 1;
        Some(taken)
    }
}

// Whether the last block has room.
fn has_room(blocks: &[Block]) -> bool
    ensures { result ≡ true → 0 < length blocks.now }
{
    match blocks.last() {
        None => false,
        Some(block) => block.len() < LONGEST_BLOCK,
    }
}

fn push_last(blocks: &mut Vec<Block>, envelope: Envelope) -> Result<(), AllocError>
    ensures ok { OnOk result (joined blocks.new.items ≡ joined blocks.old.items ++ envelope ∷ []) }
    ensures err { OnErr result (joined blocks.new.items ≡ joined blocks.old.items) }
{
    if has_room(blocks.as_slice()) {
        let last = blocks.len() - 1;
        let block = &mut blocks[last];
        block.push(envelope)?;
        return Ok(());
    }
    let mut block = Block::new(*blocks.allocator());
    block.push(envelope)?;
    blocks.push(block)?;
    Ok(())
}

// The block that has the envelope at this place, and its place there.
fn find(blocks: &[Block], at: usize) -> Option<(usize, usize)>
    ensures found { IfSome result (λ found. IsFound blocks.now at found.0 found.1) }
    ensures none { IfNone result (length (joined blocks.now) ≤ at) }
{
    let mut left = at;
    for number in 0..blocks.len() {
        let block = &blocks[number];
        if left < block.len() {
            return Some((number, left));
        }
        left -= block.len();
    }
    None
}

// Takes one envelope out of a block, and drops a block that is then empty.
fn take_from(blocks: &mut Vec<Block>, number: usize, place: usize) -> Envelope
    requires { IsFound blocks.old.items (length (joined (take number blocks.old.items)) + place) number place }
    ensures { IsTakenAt (joined blocks.old.items) (length (joined (take number blocks.old.items)) + place) result (joined blocks.new.items) }
{
    let block = &mut blocks[number];
    let taken = block.take(place).unwrap();
    let left = block.len();
    if left == 0 {
        let _ = blocks.remove(number);
    }
    taken
}
