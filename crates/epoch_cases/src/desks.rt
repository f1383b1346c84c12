//! What no clause says: that calls find memory, and what desks propose first. The bytes were written by hand.
ghost use Rattle.std.specs.Prelude.{IfOk};
ghost use Rattle.std.specs.List.{AllByRecursion};
ghost use Rattle.hb_base.specs.ByteLists.{AreBytes};
ghost use Rattle.hb_base.specs.Limits.{IsTransaction};

use desk_core::DeskCore;
use hb_base::{Bytes, Config, NodeSet};
use hb_rules::Due;
use hb_wire::Vote;
use journaled_actor::Core;
use std::alloc::Global;
use std::test::Fail;

// The transactions that are submitted, each of one letter; how many a proposal has at most; and the bytes of the first
// proposal: two for the count, and for each transaction two for its length, and its letter.
const CASES: [(&str, u8, &[u8]); 5] = [
    ("", 2, &[0, 0]),
    ("a", 1, &[0, 1, 0, 1, b'a']),
    ("ba", 1, &[0, 1, 0, 1, b'b']),
    ("abac", 2, &[0, 2, 0, 1, b'a', 0, 1, b'b']),
    ("aacab", 64, &[0, 3, 0, 1, b'a', 0, 1, b'c', 0, 1, b'b']),
];

// Transactions of one letter each.
fn submitted(alloc: Global, letters: &str) -> Result<Vec<Bytes>, Fail>
    ensures { IfOk result (λ txs. AllByRecursion IsTransaction txs.items × AllByRecursion AreBytes txs.items) }
{
    let mut txs = Vec::new(alloc);
    for letter in letters.as_bytes() {
        txs.push(Bytes::copy(alloc, &[*letter])?)?;
    }
    Ok(txs)
}

// What a desk to which these were submitted casts first.
fn first_due(alloc: Global, letters: &str, batch: u8) -> Result<Due, Fail> {
    let config = Config::new(1, 0, 2, 1, batch, 0, 1, NodeSet::new()).ok_or("no config")?;
    let mut core = DeskCore::new(&config, 0, submitted(alloc, letters)?);
    let mut due = Due::new(alloc);
    core.rebuild(alloc, &[], &mut due)?;
    Ok(due)
}

#[test]
fn first_proposals(rt: HostRuntime) -> Result<(), Fail> {
    for &(letters, batch, wanted) in &CASES {
        let due = first_due(rt.alloc(), letters, batch)?;
        match due.votes() {
            [Vote::Propose { epoch: 0, value }] => {
                assert!(rt; value.as_slice() == wanted, "what is proposed of {letters}");
            }
            _ => return Err("another vote is due".into()),
        }
    }
    Ok(())
}
