//! What an actor says.

ghost use Rattle.std.specs.Prelude.{◌≡◌};
ghost use Rattle.hb_wire.specs.Votes.{address_of, epoch_of, kind_of, set_byte};

use crate::items::Items;
use hb_base::Bytes;
use merkle_branch::Branch;
use std::alloc::AllocError;

/// A set of one or two bits, as a round of the binary agreement picks it.
#[derive(Clone, Copy, Debug, PartialEq, Eq)]
pub enum Vals {
    /// {0}
    Zero,
    /// {1}
    One,
    /// {0, 1}
    Both,
}

impl Vals {
    // The byte that stands for the set: 1 for {0}, 2 for {1}, 3 for both.
    pub(crate) fn byte(self) -> u8
        ensures { result ≡ set_byte self }
    {
        match self {
            Vals::Zero => 1,
            Vals::One => 2,
            Vals::Both => 3,
        }
    }
}

/// Where a vote goes.
#[derive(Clone, Copy, Debug, PartialEq, Eq)]
pub enum To {
    /// Into the history alone.
    Book,
    /// From a lane to the desk of its own node, and from the desk to the lanes.
    Home,
    /// To the same actor of every node.
    All,
    /// To the same actor of one node.
    Node(u8),
}

/// One vote of an actor. Epochs and rounds are 0 to 31, a target is a node. `root` is the root of the
/// Merkle tree over the shards of a value, and `branch` leads from the shard or the share to a root.
/// A shard has 1 to 16,520 bytes, a value 0 to 16,514.
#[derive(Debug, PartialEq, Eq, Drop)]
pub enum Vote {
    /// The sender of a broadcast hands one node its shard (CCS 2016, figure 2).
    Val {
        epoch: u8,
        target: u8,
        root: [u8; 32],
        shard: Bytes,
        branch: Branch,
    },
    /// A node shows its own shard.
    Echo {
        epoch: u8,
        root: [u8; 32],
        shard: Bytes,
        branch: Branch,
    },
    /// A node knows that enough nodes will come to have the value.
    Ready {
        epoch: u8,
        root: [u8; 32],
    },
    /// A lane hands the value to its own node's desk.
    Delivered {
        epoch: u8,
        value: Bytes,
    },
    /// What a node holds for right at the start of a round (PODC 2014, figure 2).
    Est {
        epoch: u8,
        round: u8,
        bit: bool,
    },
    /// A node supports a bit in a round.
    Bval {
        epoch: u8,
        round: u8,
        bit: bool,
    },
    /// A bit that a node has accepted in a round.
    Aux {
        epoch: u8,
        round: u8,
        bit: bool,
    },
    /// The bits that a node is left with in a round.
    Pick {
        epoch: u8,
        round: u8,
        vals: Vals,
    },
    /// A node's share of the coin of a round, and the salt that was dealt with it.
    Coin {
        epoch: u8,
        round: u8,
        share: u8,
        salt: [u8; 16],
        branch: Branch,
    },
    /// A lane has decided whether its broadcast counts.
    Decided {
        epoch: u8,
        bit: bool,
    },
    /// The bits for which a node has gathered support in a round, confirmed to all before it shows its share
    /// of the round's coin. A vote of version 2 of the rules alone.
    Conf {
        epoch: u8,
        round: u8,
        vals: Vals,
    },
    /// A desk proposes a value to its own node's lane.
    Propose {
        epoch: u8,
        value: Bytes,
    },
    /// A desk has seen enough broadcasts accepted: its lanes may vote against the others.
    NoMore {
        epoch: u8,
    },
    /// A desk closes an epoch with the values of the accepted broadcasts, the nodes rising.
    Closed {
        epoch: u8,
        list: Items,
    },
}

impl Clone for Vote {
    ghost is_clone = { λ vote copy. copy ≡ vote };

    fn clone(&self) -> Result<Vote, AllocError> {
        Ok(match self {
            Vote::Val {
                epoch,
                target,
                root,
                shard,
                branch,
            } => Vote::Val {
                epoch: *epoch,
                target: *target,
                root: *root,
                shard: shard.clone()?,
                branch: *branch,
            },
            Vote::Echo {
                epoch,
                root,
                shard,
                branch,
            } => Vote::Echo {
                epoch: *epoch,
                root: *root,
                shard: shard.clone()?,
                branch: *branch,
            },
            Vote::Ready { epoch, root } => Vote::Ready {
                epoch: *epoch,
                root: *root,
            },
            Vote::Delivered { epoch, value } => Vote::Delivered {
                epoch: *epoch,
                value: value.clone()?,
            },
            Vote::Est { epoch, round, bit } => Vote::Est {
                epoch: *epoch,
                round: *round,
                bit: *bit,
            },
            Vote::Bval { epoch, round, bit } => Vote::Bval {
                epoch: *epoch,
                round: *round,
                bit: *bit,
            },
            Vote::Aux { epoch, round, bit } => Vote::Aux {
                epoch: *epoch,
                round: *round,
                bit: *bit,
            },
            Vote::Pick { epoch, round, vals } => Vote::Pick {
                epoch: *epoch,
                round: *round,
                vals: *vals,
            },
            Vote::Coin {
                epoch,
                round,
                share,
                salt,
                branch,
            } => Vote::Coin {
                epoch: *epoch,
                round: *round,
                share: *share,
                salt: *salt,
                branch: *branch,
            },
            Vote::Decided { epoch, bit } => Vote::Decided {
                epoch: *epoch,
                bit: *bit,
            },
            Vote::Conf { epoch, round, vals } => Vote::Conf {
                epoch: *epoch,
                round: *round,
                vals: *vals,
            },
            Vote::Propose { epoch, value } => Vote::Propose {
                epoch: *epoch,
                value: value.clone()?,
            },
            Vote::NoMore { epoch } => Vote::NoMore { epoch: *epoch },
            Vote::Closed { epoch, list } => Vote::Closed {
                epoch: *epoch,
                list: list.clone()?,
            },
        })
    }
}

impl Vote {
    /// Where the vote goes.
    pub fn to(&self) -> To
        ensures { result ≡ address_of self.now }
    {
        match self {
            Vote::Est { .. } | Vote::Pick { .. } | Vote::Closed { .. } => To::Book,
            Vote::Delivered { .. }
            | Vote::Decided { .. }
            | Vote::Propose { .. }
            | Vote::NoMore { .. } => To::Home,
            Vote::Echo { .. }
            | Vote::Ready { .. }
            | Vote::Bval { .. }
            | Vote::Aux { .. }
            | Vote::Conf { .. }
            | Vote::Coin { .. } => To::All,
            Vote::Val { target, .. } => To::Node(*target),
        }
    }

    /// The epoch that the vote is about.
    pub fn epoch(&self) -> u8
        ensures { result ≡ epoch_of self.now }
    {
        match self {
            Vote::Val { epoch, .. }
            | Vote::Echo { epoch, .. }
            | Vote::Ready { epoch, .. }
            | Vote::Delivered { epoch, .. }
            | Vote::Est { epoch, .. }
            | Vote::Bval { epoch, .. }
            | Vote::Aux { epoch, .. }
            | Vote::Pick { epoch, .. }
            | Vote::Coin { epoch, .. }
            | Vote::Decided { epoch, .. }
            | Vote::Conf { epoch, .. }
            | Vote::Propose { epoch, .. }
            | Vote::NoMore { epoch }
            | Vote::Closed { epoch, .. } => *epoch,
        }
    }

    // The first byte of the vote's spelling.
    pub(crate) fn kind(&self) -> u8
        ensures { result ≡ kind_of self.now }
    {
        match self {
            Vote::Val { .. } => 0x01,
            Vote::Echo { .. } => 0x02,
            Vote::Ready { .. } => 0x03,
            Vote::Delivered { .. } => 0x04,
            Vote::Est { .. } => 0x05,
            Vote::Bval { .. } => 0x06,
            Vote::Aux { .. } => 0x07,
            Vote::Pick { .. } => 0x08,
            Vote::Coin { .. } => 0x09,
            Vote::Decided { .. } => 0x0A,
            Vote::Conf { .. } => 0x0B,
            Vote::Propose { .. } => 0x10,
            Vote::NoMore { .. } => 0x11,
            Vote::Closed { .. } => 0x12,
        }
    }
}
