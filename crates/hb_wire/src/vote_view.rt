//! Votes whose byte strings are still where they were read.

ghost use Rattle.std.specs.Prelude.{◌≡◌, IfOk, IfSome};
ghost use Rattle.hb_wire.specs.Views.{vote_of, StandsAt, IsSpelling};

use crate::items_view::ItemsView;
use crate::vote::{Vals, Vote};
use hb_base::Bytes;
use merkle_branch::Branch;
use std::alloc::{AllocError, Global};

/// A vote, with its byte strings lent. Its variants and fields are those of `Vote`.
#[derive(Debug, Drop)]
pub enum VoteView<'a> {
    Val {
        epoch: u8,
        target: u8,
        root: [u8; 32],
        shard: &'a [u8],
        branch: Branch,
    },
    Echo {
        epoch: u8,
        root: [u8; 32],
        shard: &'a [u8],
        branch: Branch,
    },
    Ready {
        epoch: u8,
        root: [u8; 32],
    },
    Delivered {
        epoch: u8,
        value: &'a [u8],
    },
    Est {
        epoch: u8,
        round: u8,
        bit: bool,
    },
    Bval {
        epoch: u8,
        round: u8,
        bit: bool,
    },
    Aux {
        epoch: u8,
        round: u8,
        bit: bool,
    },
    Pick {
        epoch: u8,
        round: u8,
        vals: Vals,
    },
    Coin {
        epoch: u8,
        round: u8,
        share: u8,
        salt: [u8; 16],
        branch: Branch,
    },
    Decided {
        epoch: u8,
        bit: bool,
    },
    Conf {
        epoch: u8,
        round: u8,
        vals: Vals,
    },
    Propose {
        epoch: u8,
        value: &'a [u8],
    },
    NoMore {
        epoch: u8,
    },
    Closed {
        epoch: u8,
        list: ItemsView<'a>,
    },
}

impl VoteView<'_> {
    /// The vote, with a copy of each byte string. Err where there is no memory for one.
    pub fn to_vote(self, alloc: Global) -> Result<Vote, AllocError>
        ensures { IfOk result (λ vote. vote ≡ vote_of self.entry) }
    {
        self.to_vote_over(alloc, None)
    }

    // The vote. Where the bytes are given that spell it, its shard or its value is a part of them. The batches of a Closed are
    // copied: no actor heeds one.
    pub(crate) fn to_vote_over(
        self,
        alloc: Global,
        whole: Option<&Bytes>,
    ) -> Result<Vote, AllocError>
        requires { IfSome whole (λ bytes. IsSpelling (vote_of self) bytes.now) }
        ensures { IfOk result (λ vote. vote ≡ vote_of self.entry) }
    {
        Ok(match self {
            VoteView::Val {
                epoch,
                target,
                root,
                shard,
                branch,
            } => Vote::Val {
                epoch,
                target,
                root,
                shard: held(alloc, whole, VAL_FRONT, shard)?,
                branch,
            },
            VoteView::Echo {
                epoch,
                root,
                shard,
                branch,
            } => Vote::Echo {
                epoch,
                root,
                shard: held(alloc, whole, ECHO_FRONT, shard)?,
                branch,
            },
            VoteView::Ready { epoch, root } => Vote::Ready { epoch, root },
            VoteView::Delivered { epoch, value } => Vote::Delivered {
                epoch,
                value: held(alloc, whole, VALUE_FRONT, value)?,
            },
            VoteView::Est { epoch, round, bit } => Vote::Est { epoch, round, bit },
            VoteView::Bval { epoch, round, bit } => Vote::Bval { epoch, round, bit },
            VoteView::Aux { epoch, round, bit } => Vote::Aux { epoch, round, bit },
            VoteView::Pick { epoch, round, vals } => Vote::Pick { epoch, round, vals },
            VoteView::Coin {
                epoch,
                round,
                share,
                salt,
                branch,
            } => Vote::Coin {
                epoch,
                round,
                share,
                salt,
                branch,
            },
            VoteView::Decided { epoch, bit } => Vote::Decided { epoch, bit },
            VoteView::Conf { epoch, round, vals } => Vote::Conf { epoch, round, vals },
            VoteView::Propose { epoch, value } => Vote::Propose {
                epoch,
                value: held(alloc, whole, VALUE_FRONT, value)?,
            },
            VoteView::NoMore { epoch } => Vote::NoMore { epoch },
            VoteView::Closed { epoch, list } => Vote::Closed {
                epoch,
                list: list.to_items(alloc)?,
            },
        })
    }
}

// What stands before a value: a kind, an epoch, and its length in four bytes. Before a shard stands a root besides, and in a Val
// a target.
const VALUE_FRONT: usize = 2 + 4;

const ECHO_FRONT: usize = 2 + 32 + 4;

const VAL_FRONT: usize = 3 + 32 + 4;

// These bytes, as the part of the whole that stands at this place, or else copied.
fn held(alloc: Global, whole: Option<&Bytes>, at: usize, bytes: &[u8]) -> Result<Bytes, AllocError>
    requires { IfSome whole (λ whole. StandsAt at bytes.now whole.now) }
    ensures { IfOk result (λ held. held ≡ bytes.now) }
{
    match whole {
        Some(whole) => whole.part(at, bytes.len()),
        None => Bytes::copy(alloc, bytes),
    }
}
