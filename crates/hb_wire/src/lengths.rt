//! How many bytes votes take, so that their room is asked for once.

ghost use Rattle.std.specs.Prelude.{◌≡◌, ◌∷◌, ◌+◌, ◌<◌, ◌≤◌, ◌^◌, length};
ghost use Rattle.std.specs.List.{flat_map};
ghost use Rattle.merkle_branch.specs.Branches.{siblings, IsPath};
ghost use Rattle.hb_wire.specs.Votes.{IsVote, AreItems, spelling, row, shard_fields, field_bytes, sized_bytes, item_bytes};

use crate::items::Item;
use crate::vote::Vote;
use hb_base::Bytes;
use merkle_branch::Branch;

// A length of 4 bytes, and that many bytes.
fn sized_len(bytes: &Bytes) -> usize
    requires { length bytes.now < 2 ^ 32 }
    ensures exact { result ≡ length (sized_bytes bytes.now) }
    ensures small { result < 2 ^ 32 + 4 }
{
    4 + bytes.as_slice().len()
}

// The digests of a branch.
fn branch_len(n: u8, branch: &Branch) -> usize
    requires { IsPath n branch.now }
    ensures exact { result ≡ length (flat_map (λ digest. digest) (siblings branch.now)) }
    ensures small { result ≤ 128 }
{
    32 * branch.len as usize
}

// A count, and the items.
fn items_len(n: u8, items: &[Item]) -> usize
    requires few { length items.now ≤ n }
    requires fit { AreItems n 0 items.now }
    ensures exact { result ≡ length (length items.now ∷ flat_map item_bytes items.now) }
    ensures small { result < 2 ^ 32 }
{
    let mut len = 1;
    for item in items {
        len += 1 + sized_len(&item.value);
    }
    len
}

// What shows a shard.
fn shard_len(n: u8, root: &[u8; 32], shard: &Bytes, branch: &Branch) -> usize
    requires short { length shard.now < 2 ^ 32 }
    requires path { IsPath n branch.now }
    ensures exact { result ≡ length (flat_map field_bytes (shard_fields root.now shard.now branch.now)) }
    ensures small { result < 2 ^ 33 }
{
    root.len() + sized_len(shard) + branch_len(n, branch)
}

fn fields_len(n: u8, version: u8, vote: &Vote) -> usize
    requires { IsVote n version vote.now }
    ensures exact { result ≡ length (flat_map field_bytes (row vote.now).fields) }
    ensures small { result < 2 ^ 34 }
{
    match vote {
        Vote::Val {
            root,
            shard,
            branch,
            ..
        } => 1 + shard_len(n, root, shard, branch),
        Vote::Echo {
            root,
            shard,
            branch,
            ..
        } => shard_len(n, root, shard, branch),
        Vote::Ready { root, .. } => root.len(),
        Vote::Delivered { value, .. } | Vote::Propose { value, .. } => sized_len(value),
        Vote::Est { .. }
        | Vote::Bval { .. }
        | Vote::Aux { .. }
        | Vote::Pick { .. }
        | Vote::Conf { .. } => 2,
        Vote::Coin { salt, branch, .. } => 2 + salt.len() + branch_len(n, branch),
        Vote::Decided { .. } => 1,
        Vote::NoMore { .. } => 0,
        Vote::Closed { list, .. } => items_len(n, list.as_slice()),
    }
}

/// How many bytes spell the vote.
pub(crate) fn spelling_len(n: u8, version: u8, vote: &Vote) -> usize
    requires { IsVote n version vote.now }
    ensures { result ≡ length (spelling vote.now) }
{
    2 + fields_len(n, version, vote)
}
