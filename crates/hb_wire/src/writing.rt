//! Votes to bytes.

ghost use Rattle.std.specs.Prelude.{◌≡◌, ◌++◌, [], ◌∷◌, ℕ, List, Some, ◌<◌, ◌≤◌, ◌^◌, length, OnOk, IfOk, IfSome};
ghost use Rattle.hb_wire.specs.declared.vote.Vote.TheVariants.{Delivered};
ghost use Rattle.std.specs.List.{flat_map};
ghost use Rattle.merkle_branch.specs.Branches.{siblings};
ghost use Rattle.hb_base.specs.ByteLists.{AreBytes};
ghost use Rattle.hb_wire.specs.Votes.{IsVote, Spells, AreItems, spelling, row, shard_fields, share_fields, field_bytes, sized_bytes, item_bytes};
ghost use Rattle.hb_wire.specs.Reading.{vote_at};

use crate::items::Item;
use crate::lengths::spelling_len;
use crate::vote::Vote;
use hb_base::Bytes;
use merkle_branch::Branch;
use std::alloc::{AllocError, Global};

// A length of 4 bytes, and that many bytes.
fn put_sized(out: &mut Vec<u8>, bytes: &[u8]) -> Result<(), AllocError>
    requires { length bytes.now < 2 ^ 32 }
    ensures { OnOk result (out.new.items ≡ out.old.items ++ sized_bytes bytes.now) }
{
    out.extend_from_slice(&(bytes.len() as u32).to_be_bytes())?;
    out.extend_from_slice(bytes)
}

// The digests of a branch.
fn put_branch(out: &mut Vec<u8>, branch: &Branch) -> Result<(), AllocError>
    requires { branch.now.len ≤ 4 }
    ensures { OnOk result (out.new.items ≡ out.old.items ++ flat_map (λ digest. digest) (siblings branch.now)) }
{
    for digest in &branch.digests[..branch.len as usize] {
        out.extend_from_slice(digest)?;
    }
    Ok(())
}

// A count, and the items.
fn put_items(out: &mut Vec<u8>, n: u8, items: &[Item]) -> Result<(), AllocError>
    requires few { length items.now ≤ n }
    requires fit { AreItems n 0 items.now }
    ensures { OnOk result (out.new.items ≡ out.old.items ++ (length items.now ∷ flat_map item_bytes items.now)) }
{
    out.push(items.len() as u8)?;
    for item in items {
        out.push(item.node)?;
        put_sized(out, item.value.as_slice())?;
    }
    Ok(())
}

// What shows a shard.
fn put_shard(
    out: &mut Vec<u8>,
    root: &[u8; 32],
    shard: &Bytes,
    branch: &Branch,
) -> Result<(), AllocError>
    requires short { length shard.now < 2 ^ 32 }
    requires low { branch.now.len ≤ 4 }
    ensures { OnOk result (out.new.items ≡ out.old.items ++ flat_map field_bytes (shard_fields root.now shard.now branch.now)) }
{
    out.extend_from_slice(root)?;
    put_sized(out, shard.as_slice())?;
    put_branch(out, branch)
}

// A node, and what shows its shard.
fn put_val(
    out: &mut Vec<u8>,
    target: u8,
    root: &[u8; 32],
    shard: &Bytes,
    branch: &Branch,
) -> Result<(), AllocError>
    requires short { length shard.now < 2 ^ 32 }
    requires low { branch.now.len ≤ 4 }
    ensures { OnOk result (out.new.items ≡ out.old.items ++ target ∷ flat_map field_bytes (shard_fields root.now shard.now branch.now)) }
{
    out.push(target)?;
    put_shard(out, root, shard, branch)
}

// A round, and what shows a share of its coin.
fn put_share(
    out: &mut Vec<u8>,
    round: u8,
    share: u8,
    salt: &[u8; 16],
    branch: &Branch,
) -> Result<(), AllocError>
    requires { branch.now.len ≤ 4 }
    ensures { OnOk result (out.new.items ≡ out.old.items ++ round ∷ flat_map field_bytes (share_fields share salt.now branch.now)) }
{
    out.extend_from_slice(&[round, share])?;
    out.extend_from_slice(salt)?;
    put_branch(out, branch)
}

fn put_fields(out: &mut Vec<u8>, n: u8, version: u8, vote: &Vote) -> Result<(), AllocError>
    requires { IsVote n version vote.now }
    ensures { OnOk result (out.new.items ≡ out.old.items ++ flat_map field_bytes (row vote.now).fields) }
{
    match vote {
        Vote::Val {
            target,
            root,
            shard,
            branch,
            ..
        } => put_val(out, *target, root, shard, branch),
        Vote::Echo {
            root,
            shard,
            branch,
            ..
        } => put_shard(out, root, shard, branch),
        Vote::Ready { root, .. } => out.extend_from_slice(root),
        Vote::Delivered { value, .. } | Vote::Propose { value, .. } => put_sized(
            out,
            value.as_slice(),
        ),
        Vote::Est { round, bit, .. }
        | Vote::Bval { round, bit, .. }
        | Vote::Aux { round, bit, .. } => out.extend_from_slice(&[*round, *bit as u8]),
        Vote::Pick { round, vals, .. } | Vote::Conf { round, vals, .. } => {
            out.extend_from_slice(&[*round, vals.byte()])
        }
        Vote::Coin {
            round,
            share,
            salt,
            branch,
            ..
        } => put_share(out, *round, *share, salt, branch),
        Vote::Decided { bit, .. } => out.extend_from_slice(&[*bit as u8]),
        Vote::NoMore { .. } => Ok(()),
        Vote::Closed { list, .. } => put_items(out, n, list.as_slice()),
    }
}

fn put_vote(out: &mut Vec<u8>, n: u8, version: u8, vote: &Vote) -> Result<(), AllocError>
    requires { IsVote n version vote.now }
    ensures spelled { OnOk result (out.new.items ≡ out.old.items ++ spelling vote.now) }
    ensures bytes { OnOk result (AreBytes out.new.items) }
{
    out.extend_from_slice(&[vote.kind(), vote.epoch()])?;
    put_fields(out, n, version, vote)
}

/// What begins the spelling of a Delivered of this epoch: the length of the value in four bytes follows, and then the value.
pub fn front_of_delivered(epoch: u8) -> [u8; 2]
    ensures { (value : List ℕ) → spelling (Delivered epoch value) ≡ result ++ sized_bytes value }
{
    [0x04, epoch]
}

// The spelling of a Delivered, without a copy, where it stands in the bytes of which the value is a part.
fn shared_spelling(n: u8, version: u8, vote: &Vote) -> Result<Option<Bytes>, AllocError>
    requires { IsVote n version vote.now }
    ensures spelled { IfOk result (λ found. IfSome found (λ bytes. bytes ≡ spelling vote.now)) }
    ensures bytes { IfOk result (λ found. IfSome found AreBytes) }
{
    match vote {
        Vote::Delivered { epoch, value } => {
            let front = front_of_delivered(*epoch);
            let len = (value.as_slice().len() as u32).to_be_bytes();
            value.with_front(&[front[0], front[1], len[0], len[1], len[2], len[3]])
        }
        _ => Ok(None),
    }
}

/// The one spelling of the vote among n nodes under this version of the rules. That of a Delivered shares the bytes
/// of its value where it stands in these. Err where there is no memory for it.
pub fn write(alloc: Global, n: u8, version: u8, vote: &Vote) -> Result<Bytes, AllocError>
    requires { IsVote n version vote.now }
    ensures spelled { IfOk result (λ bytes. Spells n version bytes vote.now) }
    ensures meant { IfOk result (λ bytes. vote_at n version bytes ≡ Some vote.now) }
{
    if let Some(bytes) = shared_spelling(n, version, vote)? {
        return Ok(bytes);
    }

    // Adding up the lengths of the fields, of which no byte is read, spares the copies of a vector that grows, and up to
    // as much room again as the vote takes.
    let mut out = Vec::with_capacity(alloc, spelling_len(n, version, vote))?;
    put_vote(&mut out, n, version, vote)?;
    Bytes::from_vec(out)
}
