//! The envelopes that wait, and in which order they are taken.

ghost use Rattle.std.specs.Prelude.{◌≡◌, ◌+◌, ◌^◌, ◌<◌, ◌≤◌, OnOk, is_some, if◌then◌else◌};
ghost use Rattle.step_driver.specs.Waiting.{nothing_waits, with_envelope, next_place, next_of, after_next, words_after};

use crate::envelope::Envelope;
use crate::queue::Queue;
use net_script::{Order, Shape};
use rand_chacha::ChaCha20Rng;
use seed_words::next_word;
use std::alloc::{AllocError, Global};
use std::marker::Model;

/// The envelopes that wait: those that are late, and the prompt ones. A late one is taken only where no prompt one is left.
/// Clauses see a `Waiting`.
#[derive(Drop)]
pub struct Line {
    prompt: Queue,
    late: Queue,
}

impl Model for Line {
    ghost use Rattle.step_driver.specs.Waiting.{Waiting};

    ghost Value = { Waiting };

    ghost view = { λ line. record { prompt = line.prompt; late = line.late } };
}

impl Line {
    /// Nothing waits. It takes no memory.
    pub fn new(alloc: Global) -> Line
        ensures { result ≡ nothing_waits }
    {
        Line {
            prompt: Queue::new(alloc),
            late: Queue::new(alloc),
        }
    }

    /// Adds an envelope behind the others: once, twice, among the late ones, or not at all, by its shape. Want of memory may
    /// leave one of two. It takes constant time.
    pub fn add(&mut self, shape: Shape, envelope: Envelope) -> Result<(), AllocError>
        ensures { OnOk result (self.new ≡ with_envelope shape envelope self.old) }
    {
        match shape {
            Shape::Once => self.prompt.push(envelope),
            Shape::Twice => {
                self.prompt.push(envelope)?;
                self.prompt.push(envelope)
            }
            Shape::Late => self.late.push(envelope),
            Shape::Drop => Ok(()),
        }
    }

    /// Takes the next envelope, and None exactly where none waits. First in, first out it is the first of the prompt ones,
    /// or of all where only late ones are left, and takes constant time, but that the list of blocks is moved where one is
    /// emptied. In the mixed order a word is drawn, and it is the one whose place among these is the word modulo their number;
    /// the time is then a step for each block before it, and half a block. A block has 1,024 envelopes at most, and is not
    /// filled again once one behind it has begun.
    pub fn take(&mut self, order: Order, words: &mut ChaCha20Rng) -> Option<Envelope>
        requires words { words.old.word_pos + 1 < 2 ^ 68 }
        ensures taken { result ≡ next_of order words.old self.old }
        ensures rest { self.new ≡ after_next order words.old self.old }
        ensures words { words.new ≡ (if is_some result then words_after order words.old else words.old) }
        ensures few { words.new.word_pos ≤ words.old.word_pos + 1 }
    {
        if self.prompt.len() > 0 {
            let place = place_of(order, words, self.prompt.len());
            return self.prompt.take(place);
        }
        if self.late.len() > 0 {
            let place = place_of(order, words, self.late.len());
            return self.late.take(place);
        }
        None
    }
}

// The place of the next among so many.
fn place_of(order: Order, words: &mut ChaCha20Rng, count: usize) -> usize
    requires words { words.old.word_pos + 1 < 2 ^ 68 }
    requires some { 0 < count }
    ensures place { result ≡ next_place order words.old count }
    ensures words { words.new ≡ words_after order words.old }
    ensures few { words.new.word_pos ≤ words.old.word_pos + 1 }
    ensures within { result < count }
{
    match order {
        Order::Fifo => 0,
        Order::Mixed => next_word(words) as usize % count,
    }
}
