//! Trees over the first bytes of a text, against the digests of `tools/oracles/run text_trees`.

ghost use Rattle.std.specs.Prelude.{IfOk, IsTrue};

use merkle_branch::{Branch, Leaves, Tree, is_branch};
use std::alloc::{AllocError, Global};
use std::test::*;

// Leaf m is the first m + 1 bytes.
const TEXT: &[u8; 16] = b"abcdefghijklmnop";

const ROOTS: [(u8, &str); 6] = [
    (
        1,
        "d4cb5334dcabbcaff56bfc78706f041b72c0d29337db87d8c85d4e1aaf9fea3a",
    ),
    (
        2,
        "881e19d4b4ec4593aec64c07eec3f304cbb0d731b6509db26e183d49428398a0",
    ),
    (
        3,
        "d816d432d96e43975b5a2a92b8a8c00c88101175c2322c62620cbcd6982136c9",
    ),
    (
        4,
        "99c38c40d8369c08589243516c717ebc420f0be296a2945181222a5471cdd9de",
    ),
    (
        5,
        "6c1477339585960a1e9bf33d5f3f65cc38178b122a52c272ee8603c46ffb4ef6",
    ),
    (
        16,
        "de8d998117dafac3d4530592e7a8898b396828b4db400ec18132e6e0b04c22e0",
    ),
];

// The number of leaves, the index, and the siblings from the bottom up.
const BRANCHES: [(u8, u8, &[&str]); 7] = [
    (1, 0, &[]),
    (
        2,
        1,
        &["d4cb5334dcabbcaff56bfc78706f041b72c0d29337db87d8c85d4e1aaf9fea3a"],
    ),
    (
        3,
        2,
        &[
            "0000000000000000000000000000000000000000000000000000000000000000",
            "881e19d4b4ec4593aec64c07eec3f304cbb0d731b6509db26e183d49428398a0",
        ],
    ),
    (
        4,
        1,
        &[
            "d4cb5334dcabbcaff56bfc78706f041b72c0d29337db87d8c85d4e1aaf9fea3a",
            "8c425e81f3e3be9092134663c3c18d7208cb1e2f6ccb5e8a0187a3efd9cf4478",
        ],
    ),
    (
        5,
        4,
        &[
            "0000000000000000000000000000000000000000000000000000000000000000",
            "ae0798d0ecaed2b778eddebf18f071a561c53658c05e76cedecc27cafbdbc577",
            "99c38c40d8369c08589243516c717ebc420f0be296a2945181222a5471cdd9de",
        ],
    ),
    (
        5,
        2,
        &[
            "1de818a7806d12f69a5a2ae1706c7bec1e1b5b30689a0f81fdb6c208b605fa21",
            "881e19d4b4ec4593aec64c07eec3f304cbb0d731b6509db26e183d49428398a0",
            "60442ba716722b4a7105405d1a48ab8560b73f878de3a2c1850726f2775fc912",
        ],
    ),
    (
        16,
        9,
        &[
            "e1eac2d0e6660ab9dbb5c92c3af417858d9f253484c45e890b18b80cb3172956",
            "f0933ce4143e3fea068eaed2f91eabdee14f6d539791ad90342018231dbfba38",
            "a8d207af078775025155490f78541809f0b5394a3a6f941102ca735f66a4a67f",
            "0dc09b7ece854bf7f530593603cc0607e721a3141701d4c04aab1527347e9f2a",
        ],
    ),
];

fn leaves_of(n: u8) -> Leaves {
    let mut leaves = Leaves::new();
    for m in 0..n {
        if leaves.len() < 16 && m < 16 {
            leaves.add(&TEXT[..m as usize + 1]);
        }
    }
    leaves
}

// What a caller may rest on: the branch that a tree of two leaves gives is accepted.
fn is_accepted(alloc: Global, first: &[u8], second: &[u8]) -> Result<bool, AllocError>
    ensures { IfOk result IsTrue }
{
    let mut leaves = Leaves::new();
    leaves.add(first);
    leaves.add(second);
    let tree = Tree::build(alloc, &leaves)?;
    Ok(is_branch(&tree.root(), 2, 1, second, &tree.branch(1)))
}

// Whether a digest has this text in hexadecimal.
fn is_spelled(alloc: Global, digest: [u8; 32], text: &str) -> Result<bool, AllocError> {
    Ok(hex::encode(alloc, digest)?.as_str() == text)
}

// Whether a branch has these siblings and no more.
fn has_siblings(alloc: Global, branch: &Branch, siblings: &[&str]) -> Result<bool, AllocError> {
    for (digest, sibling) in branch.digests.iter().zip(siblings) {
        if !is_spelled(alloc, *digest, sibling)? {
            return Ok(false);
        }
    }
    Ok(branch.len as usize == siblings.len())
}

#[test]
fn roots(rt: HostRuntime) -> Result<(), Fail> {
    for &(n, root) in &ROOTS {
        let leaves = leaves_of(n);
        assert!(rt; !leaves.is_empty() && leaves.len() == n, "{n} leaves");
        let tree = Tree::build(rt.alloc(), &leaves)?;
        assert!(rt; is_spelled(rt.alloc(), tree.root(), root)?, "{n} leaves");
        assert!(rt; is_spelled(rt.alloc(), leaves.root(), root)?, "{n} leaves");
    }
    Ok(())
}

#[test]
fn branches(rt: HostRuntime) -> Result<(), Fail> {
    assert!(rt; is_accepted(rt.alloc(), b"a", b"ab")?);
    for &(n, m, siblings) in &BRANCHES {
        let leaves = leaves_of(n);
        assert!(rt; m < leaves.len() && n <= 16 && m < n, "leaf {m} of {n}");
        let tree = Tree::build(rt.alloc(), &leaves)?;
        let root = tree.root();
        let branch = tree.branch(m);
        assert!(rt;
            has_siblings(rt.alloc(), &branch, siblings)?,
            "leaf {m} of {n}"
        );
        assert!(rt;
            has_siblings(rt.alloc(), &leaves.branch(m), siblings)?,
            "leaf {m} of {n}"
        );
        let leaf = &TEXT[..m as usize + 1];
        let lower = Branch {
            len: branch.len.saturating_sub(1),
            ..branch
        };
        assert!(rt;
            is_branch(&root, n, m, leaf, &branch)
                && !is_branch(&root, n, m, b"another leaf", &branch)
                && (n == 1 || !is_branch(&root, n, m, leaf, &lower)),
            "leaf {m} of {n}"
        );
    }
    Ok(())
}
