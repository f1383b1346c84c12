//! The shards that were shown for a root, and the value to which they rebuild.
ghost use Rattle.std.specs.Prelude.{◌≡◌, ◌<◌, ◌^◌, ℕ, true, All, List, length, Option, IfOk, OnOk};
ghost use Rattle.std.specs.Option.{option_copied, option_map};
ghost use Rattle.std.specs.List.{list_any};
ghost use Rattle.hb_rules.specs.BroadcastRows.{shard_of, shards_of, value_of};
ghost use Rattle.hb_rules.specs.FirstShown.{has_node};
ghost use Rattle.hb_rules.specs.Terms.{AreHeardSpelled};
ghost use Rattle.rbc_judge.specs.Checked.{is_checked, AreChecked};
ghost use Rattle.rbc_judge.specs.Shown.{with_some};

use crate::known::Known;
use crate::lane::Lane;
use hb_base::Bytes;
use hb_rules::Heard;
use hb_wire::Vote;
use std::alloc::{AllocError, Global};

// The shard that a hearing shows for a root, if it shows one.
fn shard_in<'a>(epoch: u8, root: &[u8; 32], said: &'a Heard) -> Option<&'a Bytes>
    ensures { (n : ℕ) → is_checked n said.now.from said.now.vote ≡ true
        → option_map (λ shard. (said.now.from, shard)) (option_copied result) ≡ shard_of n epoch root.now said.now }
{
    match said.vote() {
        Vote::Echo {
            epoch: other,
            root: shown,
            shard,
            ..
        } if *other == epoch && shown == root => Some(shard),
        _ => None,
    }
}

fn has_node(shards: &[(u8, Bytes)], node: u8) -> bool
    ensures { result ≡ has_node shards.now node }
{
    shards.iter().any(|shard| shard.0 == node)
}

// Adds the shard of a node, if there is one and the node has none among them.
fn add_first(
    shards: &mut Vec<(u8, Bytes)>,
    node: u8,
    shard: Option<&Bytes>,
) -> Result<(), AllocError>
    ensures { OnOk result (shards.new.items ≡ with_some shards.old.items (option_map (λ bytes. (node, bytes)) (option_copied shard.entry))) }
{
    match shard {
        Some(shard) => {
            if has_node(shards, node) {
                return Ok(());
            }
            shards.push((node, shard.clone()?))?;
            Ok(())
        }
        None => Ok(()),
    }
}

// The shards of valid Echoes for a root, the first of each node.
fn first_shards(
    alloc: Global,
    n: u8,
    epoch: u8,
    root: &[u8; 32],
    heard: &[Heard],
) -> Result<Vec<(u8, Bytes)>, AllocError>
    requires { AreChecked n heard.now }
    ensures { IfOk result (λ shards. shards.items ≡ shards_of n epoch root.now heard.now) }
{
    let mut shards = Vec::new(alloc);
    for said in heard {
        let shard = shard_in(epoch, root, said);
        add_first(&mut shards, said.from, shard)?;
    }
    Ok(shards)
}

// The value to which the first k of them rebuild, if there are so many and they do.
pub(crate) fn value_of(
    alloc: Global,
    known: &mut Known,
    lane: &Lane,
    epoch: u8,
    root: &[u8; 32],
    heard: &[Heard],
) -> Result<Option<Bytes>, AllocError>
    requires checked { AreChecked lane.now.config.n heard.now }
    requires spelled { AreHeardSpelled lane.now.config heard.now }
    ensures { IfOk result (λ value. value ≡ value_of lane.now.config epoch heard.now root.now) }
{
    let k = lane.config.k() as usize;
    let mut shards = first_shards(alloc, lane.config.n(), epoch, root, heard)?;
    if shards.len() < k {
        return Ok(None);
    }
    shards.truncate(k);
    known.value_through(alloc, &lane.config, lane.lane, root, shards)
}
