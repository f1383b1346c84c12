//! A run of five nodes, of which node 4 lies, and the posts that its desks make.
ghost use Rattle.std.specs.Prelude.{◌≡◌, IfOk, IfSome};
ghost use Rattle.book_cases.specs.Run.{IsRun, empty_proposal};

use hb_base::{Bytes, Config, NodeSet};
use hb_wire::{Post, PostBytes, To, Vote};
use std::alloc::{AllocError, Global};

/// The config of that run.
pub fn five_nodes() -> Option<Config>
    ensures { IfSome result (λ c. IsRun c) }
{
    let mut liars = NodeSet::new();
    liars.add(4);
    Config::new(5, 1, 2, 2, 1, 7, 1, liars)
}

/// The proposal of an empty batch.
pub fn proposal(alloc: Global) -> Result<Vote, AllocError>
    ensures { IfOk result (λ vote. vote ≡ empty_proposal) }
{
    let value = Bytes::copy(alloc, &[0, 0])?;
    Ok(Vote::Propose { epoch: 0, value })
}

// The post of that proposal by the desk of a node.
pub(crate) fn proposed_by(alloc: Global, node: u8) -> Result<Post, AllocError> {
    Ok(Post {
        from: node,
        actor: 5,
        to: To::Home,
        bytes: PostBytes::plain(Bytes::copy(alloc, &[0x10, 0, 0, 0, 0, 2, 0, 0])?),
    })
}
