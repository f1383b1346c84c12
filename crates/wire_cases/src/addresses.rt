//! Whom a post reaches.

use hb_base::Bytes;
use hb_wire::*;
use std::alloc::{AllocError, Global};
use std::test::*;

// A post of node 1.
fn post(alloc: Global, actor: u8, to: To) -> Result<Post, AllocError> {
    Ok(Post {
        from: 1,
        actor,
        to,
        bytes: PostBytes::plain(Bytes::copy(alloc, b"")?),
    })
}

#[test]
fn addresses(rt: HostRuntime) -> Result<(), Fail> {
    // The address, the posting actor, the node and the actor, and whether node 1's post reaches it
    // among four nodes.
    let rows = [
        (To::Book, 0, 1, 0, false),
        (To::Home, 0, 1, 4, true),
        (To::Home, 0, 2, 4, false),
        (To::Home, 0, 1, 1, false),
        (To::Home, 4, 1, 3, true),
        (To::Home, 4, 1, 4, false),
        (To::All, 2, 0, 2, true),
        (To::All, 2, 0, 3, false),
        (To::Node(3), 2, 3, 2, true),
        (To::Node(3), 2, 1, 2, false),
        (To::Node(3), 2, 3, 4, false),
    ];
    for (to, actor, node, hearer, expected) in rows {
        let post = post(rt.alloc(), actor, to)?;
        assert!(rt; reaches(4, &post, node, hearer) == expected);
    }
    Ok(())
}
