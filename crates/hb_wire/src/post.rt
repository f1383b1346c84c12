//! Posts of a history, and whom they reach.

ghost use Rattle.std.specs.Prelude.{◌≡◌};
ghost use Rattle.hb_wire.specs.Addresses.{reaches};

use crate::post_bytes::PostBytes;
use crate::vote::To;
use hb_base::Bytes;
use std::alloc::AllocError;

/// One entry of a history: what an actor of a node has posted, and where it goes. Lanes are the
/// actors below n, the desk is actor n. The book puts the sender's name; a liar chooses the rest.
#[derive(Debug, PartialEq, Eq, Drop)]
pub struct Post {
    /// The node that sent it.
    pub from: u8,
    /// The actor of that node, or for a liar the one that it names.
    pub actor: u8,
    /// Where it goes.
    pub to: To,
    /// The bytes of a vote, or for a liar any bytes.
    pub bytes: PostBytes,
}

impl Clone for Post {
    ghost is_clone = { λ post copy. copy ≡ post };

    fn clone(&self) -> Result<Post, AllocError> {
        Ok(Post {
            from: self.from,
            actor: self.actor,
            to: self.to,
            bytes: self.bytes.clone()?,
        })
    }
}

/// What a liar posts under its node's name, in the name of whichever actor, to whomever, with any bytes.
#[derive(Debug, PartialEq, Eq, Drop)]
pub struct Lie {
    /// The node that lies.
    pub node: u8,
    /// The actor that it names.
    pub actor: u8,
    /// Where the lie goes.
    pub to: To,
    /// What it says.
    pub bytes: Bytes,
}

/// Whether a post reaches this actor of this node, among n nodes.
pub fn reaches(n: u8, post: &Post, node: u8, actor: u8) -> bool
    ensures { result ≡ reaches n post.now node actor }
{
    match post.to {
        To::Book => false,
        To::Home => {
            let to_desk = post.actor < n && actor == n;
            let to_lane = post.actor == n && actor < n;
            node == post.from && (to_desk || to_lane)
        }
        To::All => actor == post.actor,
        To::Node(target) => actor == post.actor && node == target,
    }
}
