//! What a node that is alone casts, each vote heard as soon as it is cast.

use crate::node::{Agreement, Node};
use crate::text::text_of;
use coin_deal::deal;
use hb_base::{Config, NodeSet};
use std::alloc::{AllocError, Global};
use std::sync::Arc;
use std::test::Fail;

// The version, the input, and the votes. The coins of the three rounds are 0, 0 and 1, the shares 118, 160 and 119.
const ROWS: [(u8, bool, &str); 4] = [
    (1, true, "E01B01A01P02S08E11B11A11P12S10E21B21A21P22S29D01"),
    (1, false, "E00B00A00P01S08E10D00B10A10P11S10"),
    (
        2,
        true,
        "E01B01A01C02P02S08E11B11A11C12P12S10E21B21A21C22P22S29D01",
    ),
    (2, false, "E00B00A00C01P01S08E10D00B10A10C11P11S10"),
];

// Lets a node hear its own votes, up to the last.
fn hear_itself(node: &mut Node) -> Result<(), AllocError> {
    for _ in 0..40 {
        match node.post()? {
            Some(vote) => node.hear(0, &vote)?,
            None => break,
        }
    }
    Ok(())
}

fn alone(alloc: Global, version: u8, bit: bool) -> Result<Vec<u8>, Fail> {
    let config = Config::new(1, 0, 1, 3, 1, 0, version, NodeSet::new()).ok_or("no config")?;
    let deal = Arc::new(alloc, deal(alloc, &config)?)?;
    let agreement = Agreement { lane: 0, epoch: 0 };
    let mut node = Node::new(alloc, &config, &deal, agreement, 0, &[])?;
    node.input(bit)?;
    hear_itself(&mut node)?;
    Ok(text_of(alloc, node.votes())?)
}

#[test]
fn a_node_alone(rt: HostRuntime) -> Result<(), Fail> {
    for &(version, bit, want) in &ROWS {
        let votes = alone(rt.alloc(), version, bit)?;
        assert!(rt;
            votes.as_slice() == want.as_bytes(),
            "version {version}, input {bit}"
        );
    }
    Ok(())
}
