//! The bytes of votes in a journal: the votes in order, each by its one spelling with its length before it.
ghost use Rattle.std.specs.Prelude.{◌≡◌, ◌+◌, ◌<◌, ◌≤◌, ◌^◌, List, ◌++◌, length, IsOk, IfOk, OnOk, OnErr};
ghost use Rattle.hb_wire.specs.declared.vote.Vote.{Vote};
ghost use Rattle.hb_wire.specs.Votes.{Spells, spelling, sized_bytes};
ghost use Rattle.hb_rules.specs.History.{HasSpelling};
ghost use Rattle.hb_rules.specs.Terms.{AreSpelled};
ghost use Rattle.hb_wire.specs.Reading.{Shows, sized_at};
ghost use Rattle.journaled_actor.specs.Payload.{payload, vote_bytes, longest_spelling, AreWritten};

use hb_base::Config;
use hb_rules::spell;
use hb_wire::{Vote, WireFault, read};
use std::alloc::{AllocError, Global};
use vote_journal::Entry;

// No spelling is longer.
const LONGEST_SPELLING: usize = 1 << 21;

// Most entries are of votes that show no shard, and take no more.
const USUAL_ROOM: usize = 160;

// A length of four bytes, and that many bytes. Want of memory changes nothing.
fn put_sized(bytes: &[u8], entry: &mut Entry) -> Result<(), AllocError>
    requires { length bytes.now < 2 ^ 32 }
    ensures ok { OnOk result (entry.new.payload ≡ entry.old.payload ++ sized_bytes bytes.now) }
    ensures enough { 4 + length bytes.now ≤ entry.old.room → IsOk result }
    ensures err { OnErr result (entry.new ≡ entry.old) }
{
    entry.reserve(4 + bytes.len())?;
    entry.extend_from_slice(&(bytes.len() as u32).to_be_bytes())?;
    entry.extend_from_slice(bytes)
}

// A vote behind the others.
fn put_vote(
    alloc: Global,
    config: &Config,
    vote: &Vote,
    entry: &mut Entry,
) -> Result<(), AllocError>
    requires { HasSpelling config.now vote.now }
    ensures text { OnOk result (entry.new.payload ≡ entry.old.payload ++ vote_bytes vote.now) }
    ensures err { OnErr result (entry.new ≡ entry.old) }
    ensures written { OnOk result (Spells config.now.n config.now.version (spelling vote.now) vote.now) }
{
    let n = config.n();
    prove!(n <= 16);
    let bytes = spell(alloc, config, vote)?;
    put_sized(bytes.as_slice(), entry)
}

/// The entry of these votes.
pub(crate) fn write_votes(
    alloc: Global,
    config: &Config,
    votes: &[Vote],
) -> Result<Entry, AllocError>
    requires { AreSpelled config.now votes.now }
    ensures text { IfOk result (λ entry. entry.payload ≡ payload votes.now) }
    ensures written { OnOk result (AreWritten config.now votes.now) }
{
    let mut entry = Entry::with_room(alloc, USUAL_ROOM)?;
    for vote in votes {
        put_vote(alloc, config, vote, &mut entry)?;
    }
    Ok(entry)
}

// A length of four bytes, as many bytes, and what stands behind them. No vote is longer than 2^21 bytes.
#[tactic(auto, unfolding(hb_wire::specs::Reading::sized_at))]
fn split_sized(text: &[u8]) -> Option<(&[u8], &[u8])>
    ensures { Shows (λ x. (x.0.now, x.1.now)) result (sized_at 0 longest_spelling text.now) }
{
    if text.len() < 4 {
        return None;
    }
    let (front, rest) = text.split_at(4);
    let len = u32::from_be_bytes([front[0], front[1], front[2], front[3]]) as usize;
    if LONGEST_SPELLING < len || rest.len() < len {
        return None;
    }
    Some(rest.split_at(len))
}

/// The votes of these bytes, up to the first piece that is no vote.
pub(crate) fn read_votes(
    alloc: Global,
    config: &Config,
    text: &[u8],
) -> Result<Vec<Vote>, AllocError>
    ensures votes { IfOk result (λ found. (votes : List Vote) → AreSpelled config.now votes → text.now ≡ payload votes
        → found.items ≡ votes) }
    ensures written { IfOk result (λ found. AreWritten config.now found.items) }
{
    let n = config.n();
    let version = config.version();
    let mut votes = Vec::new(alloc);
    let mut left = text;
    while let Some((piece, rest)) = split_sized(left) {
        match read(alloc, n, version, piece) {
            Ok(vote) => votes.push(vote)?,
            Err(WireFault::NotAMessage) => return Ok(votes),
            Err(WireFault::Memory) => return Err(AllocError),
        }
        left = rest;
    }
    Ok(votes)
}
