//! The fields of a vote in its bytes: each with the bytes after it.

ghost use Rattle.std.specs.Prelude.{◌≡◌, ◌+◌, ◌*◌, ◌≤◌, length};
ghost use Rattle.hb_base.specs.Limits.{most_nodes};
ghost use Rattle.merkle_branch.specs.Digests.{height as height_of};
ghost use Rattle.hb_wire.specs.Reading.{Shows, byte_at, bit_at, set_at, block_at, sized_at, path_at, branch_in, item_at, after_items, list_at};
ghost use Rattle.hb_wire.specs.Lists.{item};

use crate::items_view::ItemsView;
use crate::vote::Vals;
use hb_base::limits::LONGEST_VALUE;
use merkle_branch::{Branch, MAX_HEIGHT, height};

// A field and the bytes after it.
pub(crate) type Field<'a, T> = Option<(T, &'a [u8])>;

// A byte below a limit.
pub(crate) fn byte_of(limit: u16, bytes: &[u8]) -> Field<'_, u8>
    ensures { Shows (λ x. (x.0, x.1.now)) result (byte_at limit bytes.now) }
{
    match bytes {
        [byte, rest @ ..] if (*byte as u16) < limit => Some((*byte, rest)),
        _ => None,
    }
}

pub(crate) fn bit_of(bytes: &[u8]) -> Field<'_, bool>
    ensures { Shows (λ x. (x.0, x.1.now)) result (bit_at bytes.now) }
{
    match bytes {
        [0, rest @ ..] => Some((false, rest)),
        [1, rest @ ..] => Some((true, rest)),
        _ => None,
    }
}

pub(crate) fn set_of(bytes: &[u8]) -> Field<'_, Vals>
    ensures { Shows (λ x. (x.0, x.1.now)) result (set_at bytes.now) }
{
    match bytes {
        [1, rest @ ..] => Some((Vals::Zero, rest)),
        [2, rest @ ..] => Some((Vals::One, rest)),
        [3, rest @ ..] => Some((Vals::Both, rest)),
        _ => None,
    }
}

pub(crate) fn block_of(size: usize, bytes: &[u8]) -> Option<(&[u8], &[u8])>
    ensures { Shows (λ x. (x.0.now, x.1.now)) result (block_at size bytes.now) }
{
    if bytes.len() < size {
        return None;
    }
    Some(bytes.split_at(size))
}

// So many bytes, copied.
pub(crate) fn array_of<const N: usize>(bytes: &[u8]) -> Field<'_, [u8; N]>
    ensures { Shows (λ x. (x.0, x.1.now)) result (block_at N bytes.now) }
{
    let (array, rest) = bytes.split_first_chunk()?;
    Some((*array, rest))
}

// A length of 4 bytes, at least and at most so much, and that many bytes.
#[tactic(auto, unfolding(crate::specs::Reading::sized_at))]
pub(crate) fn sized_of(least: usize, most: usize, bytes: &[u8]) -> Field<'_, &[u8]>
    ensures { Shows (λ x. (x.0.now, x.1.now)) result (sized_at least most bytes.now) }
{
    if bytes.len() < 4 {
        return None;
    }
    let (front, rest) = bytes.split_at(4);
    let len = u32::from_be_bytes([front[0], front[1], front[2], front[3]]) as usize;
    if len < least || most < len {
        return None;
    }
    block_of(len, rest)
}

// The branch that has these digests.
fn branch_of(n: u8, path: &[u8]) -> Branch
    requires some { 1 ≤ n }
    requires few { n ≤ most_nodes }
    requires whole { length path.now ≡ 32 * height_of n }
    ensures { result ≡ branch_in n path.now }
{
    let len = height(n);
    let mut digests = [[0; 32]; MAX_HEIGHT];
    let mut rest = path;
    for level in 0..len as usize {
        let (digest, above) = rest.split_first_chunk().unwrap();
        digests[level] = *digest;
        rest = above;
    }
    Branch { len, digests }
}

// A branch of the tree of n leaves.
#[tactic(auto, unfolding(crate::specs::Reading::path_at))]
pub(crate) fn path_of(n: u8, bytes: &[u8]) -> Field<'_, Branch>
    requires some { 1 ≤ n }
    requires few { n ≤ most_nodes }
    ensures { Shows (λ x. (x.0, x.1.now)) result (path_at n bytes.now) }
{
    let (path, rest) = block_of(32 * height(n) as usize, bytes)?;
    Some((branch_of(n, path), rest))
}

// A node from `low` on and below n, and its value.
fn item_of(n: u8, low: u16, bytes: &[u8]) -> Field<'_, (u8, &[u8])>
    ensures { Shows (λ x. (item x.0.0 x.0.1.now, x.1.now)) result (item_at n low bytes.now) }
{
    let (node, rest) = byte_of(n as u16, bytes)?;
    if (node as u16) < low {
        return None;
    }
    let (value, rest) = sized_of(0, LONGEST_VALUE, rest)?;
    Some(((node, value), rest))
}

// The bytes after so many items.
#[tactic(auto, using(crate::proofs::ItemLemmas::items_go_on, crate::proofs::ItemLemmas::items_stop, crate::proofs::ItemLemmas::items_end))]
fn after_items_of(n: u8, count: u8, bytes: &[u8]) -> Option<&[u8]>
    ensures { Shows (λ rest. rest.now) result (after_items n 0 count bytes.now) }
{
    let mut rest = bytes;
    let mut low = 0;
    'items: for _ in 0..count {
        let ((node, _), after) = item_of(n, low, rest)?;
        low = node as u16 + 1;
        rest = after;
    }
    Some(rest)
}

// A list of items, with its count in front.
#[tactic(auto, using(crate::proofs::ItemLemmas::count_first), unfolding(crate::specs::Reading::list_at))]
pub(crate) fn list_of(n: u8, bytes: &[u8]) -> Field<'_, ItemsView<'_>>
    requires { n ≤ most_nodes }
    ensures { Shows (λ x. (x.0, x.1.now)) result (list_at n bytes.now) }
{
    let (count, rest) = byte_of(n as u16 + 1, bytes)?;
    let rest = after_items_of(n, count, rest)?;
    Some((ItemsView { bytes }, rest))
}
