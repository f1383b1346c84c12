//! The bytes of a post, of which it may be known that they spell a valid Echo. Known or not, the vote is the same, and valid as
//! the same leaf.

ghost use Rattle.std.specs.Prelude.{◌≡◌, IfOk, length};

use hb_base::Bytes;
use hb_wire::{PostBytes, Spoken, Vote, WireFault, read_shared};
use merkle_branch::{Branch, Leaves, Tree};
use std::alloc::{AllocError, Global};
use std::process::Abort;
use std::test::Fail;

// The tree over three leaves.
fn tree(alloc: Global) -> Result<Tree, AllocError>
    ensures { IfOk result (λ tree. length tree ≡ 3) }
{
    let mut leaves = Leaves::new();
    leaves.add(b"ab");
    leaves.add(b"cd");
    leaves.add(b"ef");
    Tree::build(alloc, &leaves)
}

// The bytes of an Echo of epoch 0 with the shard `cd`.
fn echo(alloc: Global, root: &[u8; 32], branch: &Branch) -> Result<Bytes, AllocError> {
    let mut bytes = Vec::from_slice(alloc, &[2, 0])?;
    bytes.extend_from_slice(root)?;
    bytes.extend_from_slice(b"\x00\x00\x00\x02cd")?;
    for digest in branch.digests.iter().take(branch.len as usize) {
        bytes.extend_from_slice(digest)?;
    }
    Bytes::from_vec(bytes)
}

// Whether the vote is an Echo for this root, valid as leaf 1 of three and as no other leaf.
fn is_said(alloc: Global, words: &PostBytes, root: &[u8; 32]) -> Result<bool, WireFault> {
    let said = words.vote(alloc, 3, 1)?;
    let is_echo = matches!(said.vote(), Vote::Echo { root: r, .. } if r == root);
    Ok(
        is_echo
            && said.is_valid_echo(3, 1)
            && !said.is_valid_echo(3, 0)
            && !said.is_valid_echo(2, 1),
    )
}

// An Echo whose branch is valid as leaf 1 of three, with that known.
fn known(alloc: Global, bytes: Bytes) -> Result<PostBytes, WireFault>
    ensures { IfOk result (λ words. words ≡ bytes) }
{
    let said = Spoken::plain(read_shared(alloc, 3, 1, &bytes)?);
    if said.is_valid_echo(3, 1) {
        return Ok(PostBytes::of_valid_echo(bytes, 3, 1, 1, said.vote()));
    }
    Ok(PostBytes::plain(bytes))
}

#[test]
fn known_and_read(rt: HostRuntime) -> Result<(), Fail> {
    let alloc = rt.alloc();
    let tree = tree(alloc)?;
    let root = tree.root();
    let bytes = echo(alloc, &root, &tree.branch(1))?;
    let known = known(alloc, bytes.clone()?)?;
    let plain = PostBytes::plain(bytes);
    for words in [&known, &plain, &known.clone()?] {
        assert!(rt; *words == plain && words.as_slice() == plain.as_bytes().as_slice());
        assert_eq!(rt; is_said(alloc, words, &root), Ok(true));
        assert!(rt; words.vote(alloc, 9, 1).is_err());
    }
    Ok(())
}
