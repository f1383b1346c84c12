//! Bytes to votes.

ghost use Rattle.std.specs.Prelude.{◌≡◌, ◌≤◌, ◌<◌, ◌↔◌, Some, None, IfOk, IfSome};
ghost use Rattle.std.specs.Option.{option_map};
ghost use Rattle.hb_base.specs.Limits.{most_nodes};
ghost use Rattle.hb_wire.specs.Votes.{Spells};
ghost use Rattle.hb_wire.specs.Reading.{vote_at};
ghost use Rattle.hb_wire.specs.Views.{vote_of};

use crate::fault::WireFault;
use crate::kinds::scan;
use crate::vote::Vote;
use crate::vote_view::VoteView;
use hb_base::Bytes;
use std::alloc::Global;

/// The vote that the bytes spell among n nodes under this version of the rules, with nothing copied, and None where they
/// spell none. It takes no memory.
pub fn view(n: u8, version: u8, bytes: &[u8]) -> Option<VoteView<'_>>
    requires some { 1 ≤ n }
    requires few { n ≤ most_nodes }
    ensures meant { vote_at n version bytes.now ≡ option_map vote_of result }
    ensures found { IfSome result (λ view. Spells n version bytes.now (vote_of view)) }
{
    scan(n, version, bytes)
}

/// The vote that the bytes spell among n nodes under this version of the rules, with a copy of each byte string.
pub fn read(alloc: Global, n: u8, version: u8, bytes: &[u8]) -> Result<Vote, WireFault>
    requires some { 1 ≤ n }
    requires few { n ≤ most_nodes }
    ensures meant { IfOk result (λ vote. vote_at n version bytes.now ≡ Some vote) }
    ensures found { IfOk result (λ vote. Spells n version bytes.now vote) }

    // Bytes are refused exactly where they spell no vote.
    ensures refused { (result ≡ Err WireFault.NotAMessage) ↔ (vote_at n version bytes.now ≡ None) }
{
    read_over(alloc, n, version, bytes, None)
}

/// The vote that the bytes spell among n nodes under this version of the rules. Its shard or its value is a part of them, with no
/// copy; the batches of a Closed are copied.
pub fn read_shared(alloc: Global, n: u8, version: u8, bytes: &Bytes) -> Result<Vote, WireFault>
    requires some { 1 ≤ n }
    requires few { n ≤ most_nodes }
    ensures meant { IfOk result (λ vote. vote_at n version bytes.now ≡ Some vote) }
    ensures found { IfOk result (λ vote. Spells n version bytes.now vote) }

    // Bytes are refused exactly where they spell no vote.
    ensures refused { (result ≡ Err WireFault.NotAMessage) ↔ (vote_at n version bytes.now ≡ None) }
{
    read_over(alloc, n, version, bytes.as_slice(), Some(bytes))
}

// The vote that the bytes spell, with copies, or with parts of the whole where it is given.
fn read_over(
    alloc: Global,
    n: u8,
    version: u8,
    bytes: &[u8],
    whole: Option<&Bytes>,
) -> Result<Vote, WireFault>
    requires some { 1 ≤ n }
    requires few { n ≤ most_nodes }
    requires whole { IfSome whole (λ whole. whole.now ≡ bytes.now) }
    ensures meant { IfOk result (λ vote. vote_at n version bytes.now ≡ Some vote) }
    ensures found { IfOk result (λ vote. Spells n version bytes.now vote) }
    ensures refused { (result ≡ Err WireFault.NotAMessage) ↔ (vote_at n version bytes.now ≡ None) }
{
    match view(n, version, bytes) {
        None => Err(WireFault::NotAMessage),
        Some(view) => match view.to_vote_over(alloc, whole) {
            Ok(vote) => Ok(vote),
            Err(_) => Err(WireFault::Memory),
        },
    }
}
