//! What the passes of a mailbox know of its queue, and the rule that each call keeps.
ghost use Rattle.std.specs.Prelude.{◌≡◌, ◌++◌, ◌∷◌, [], true};
ghost use Rattle.mailbox.specs.Interleaving.{HasAll, IsInterleaving, IsMoreLeft};
ghost use Rattle.mailbox.specs.Shares.{AreWhole};

use crossbeam_queue::protocol::{Join, Lesson, Outcome, Protocol, Split};
use std::collections::LinkedList;

// What one pass knows. In a clause a `LinkedList` is a list. No value of it is made.
pub struct View {
    pub takes: bool,
    pub splits: LinkedList<u64>,
    pub sent: LinkedList<u32>,
    pub taken: LinkedList<u32>,
    pub joined: LinkedList<LinkedList<u32>>,
    pub asked: u64,
    pub own: LinkedList<u32>,
}

pub struct InOrder;

impl Protocol<u32, View> for InOrder {
    ghost use Rattle.mailbox.specs.Ordered.{IsInOrder, opener};

    ghost holds = { IsInOrder };

    ghost first = { opener };
}

// The first pass becomes a put pass and the take pass.
pub struct Sides;

impl Split<View> for Sides {
    ghost use Rattle.mailbox.specs.Ordered.{put_side, take_side};

    ghost left = { put_side };

    ghost right = { take_side };
}

// A put pass becomes two, each with half of its share.
pub struct Halves;

impl Split<View> for Halves {
    ghost use Rattle.mailbox.specs.Ordered.{halved, other_half};

    ghost left = { halved };

    ghost right = { other_half };
}

pub struct Puts;

impl Outcome<u32, View> for Puts {
    ghost use Rattle.mailbox.specs.Ordered.{after_put};

    ghost then = { λ v x w. w ≡ after_put v x };
}

pub struct Takes;

// Once the passes taken in are the whole right to put, whoever takes a number knows that one was left.
impl Outcome<u32, View> for Takes {
    ghost use Rattle.mailbox.specs.Ordered.{after_take};

    ghost then = { λ v x w. (w ≡ after_take v x) × (AreWhole v.splits → IsMoreLeft v.joined v.taken) };
}

// A call that asks to put or for a number is counted. Beside the pass comes a pass with no right at all, which is dropped.
pub struct Asks;

impl Split<View> for Asks {
    ghost use Rattle.mailbox.specs.Ordered.{asked_once, spent};

    ghost left = { asked_once };

    ghost right = { λ v. spent };
}

// Beside the take pass comes a pass with no right, by which an end of the queue is looked at.
pub struct Looks;

impl Split<View> for Looks {
    ghost use Rattle.mailbox.specs.Ordered.{witness_of};

    ghost left = { λ v. v };

    ghost right = { witness_of };
}

// What was taken and then what is left has all that the passes which were taken in had put, and the own numbers that the take
// pass was told of. Once the passes taken in are the whole right to put, it has nothing else.
impl Lesson<u32, View> for Takes {
    ghost fact = { λ v items. v.takes ≡ true → HasAll v.joined (v.taken ++ items)
        × HasAll (v.own ∷ []) (v.taken ++ items) × (AreWhole v.splits → IsInterleaving v.joined (v.taken ++ items)) };
}

// The take pass takes in a put pass.
pub struct Joins;

impl Join<View> for Joins {
    ghost use Rattle.mailbox.specs.Ordered.{joined_with, spent};

    ghost both = { joined_with };

    ghost spent = { spent };
}

// Beside a put pass comes a receipt, which tells what was put through it.
pub struct Receipts;

impl Split<View> for Receipts {
    ghost use Rattle.mailbox.specs.Ordered.{receipt_of};

    ghost left = { λ v. v };

    ghost right = { receipt_of };
}

// The take pass takes in a receipt.
pub struct Tells;

impl Join<View> for Tells {
    ghost use Rattle.mailbox.specs.Ordered.{told_by, spent};

    ghost both = { told_by };

    ghost spent = { spent };
}
