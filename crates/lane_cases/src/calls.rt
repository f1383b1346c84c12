//! What the callers are told.

use crate::callers::{begin, first_decision, hear, is_heard};
use coin_deal::deal;
use hb_base::{Config, NodeSet};
use hb_rules::Due;
use hb_wire::Vote;
use std::sync::Arc;
use std::test::Fail;

// A node that is alone has heard two of its own votes too early, and owes nothing by them.
#[test]
fn calls(rt: HostRuntime) -> Result<(), Fail> {
    let alloc = rt.alloc();
    let config = Config::new(1, 0, 1, 1, 1, 0, 1, NodeSet::new()).ok_or("no config")?;
    let deal = Arc::new(alloc, deal(alloc, &config)?)?;
    let (epoch, round, bit) = (0, 0, true);
    let mut aba = begin(alloc, &config, &deal, 0, 0, 0)?;
    let is_undecided = first_decision(&aba).is_none();
    let mut due = Due::new(alloc);
    hear(&mut aba, 0, &Vote::Bval { epoch, round, bit }, &mut due)?;
    assert!(rt; is_undecided && due.votes().is_empty());
    let mut aba = begin(alloc, &config, &deal, 0, 0, 0)?;
    due.reserve(8)?;
    let is_heard = is_heard(&mut aba, 0, &Vote::Aux { epoch, round, bit }, &mut due);
    assert!(rt; is_heard && due.votes().is_empty());
    Ok(())
}
