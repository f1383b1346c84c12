//! What one hearing after another makes due: the Vals of a sender, and the Echoes and Readies of four nodes in every order.
ghost use Rattle.std.specs.Prelude.{◌≡◌, ◌<◌};
ghost use Rattle.merkle_branch.specs.Digests.{leaf_digests};

use crate::broadcasts::{SIZES, are, config_of, hear_echo, vals_of, value_of};
use hb_base::{Bytes, Config};
use hb_rules::Due;
use hb_wire::{Spoken, Vote};
use merkle_branch::{MAX_HEIGHT, Tree};
use rbc_core::{Rbc, tree_over};
use rs_shards::encode;
use std::alloc::Global;
use std::test::Fail;

// What becomes due at a node that hears a Val of node 0 in its broadcast, and nothing else.
fn due_by_val(alloc: Global, config: &Config, node: u8, val: &Vote) -> Result<Due, Fail>
    requires { node < config.now.n }
{
    let n = config.n();
    prove!(0 < n);
    let mut rbc = Rbc::rebuild(alloc, config, node, 0, 0, &[])?;
    let mut due = Due::new(alloc);
    match val {
        Vote::Val { .. } => rbc.hear(alloc, 0, &Spoken::plain(val.clone()?), &mut due)?,
        _ => return Err("no Val".into()),
    }
    Ok(due)
}

// Whether these votes are one Echo, of what a Val shows.
fn echoes(votes: &[Vote], val: &Vote) -> bool {
    match (votes, val) {
        (
            [
                Vote::Echo {
                    epoch: 0,
                    root,
                    shard,
                    branch,
                },
            ],
            Vote::Val {
                root: root_shown,
                shard: shard_shown,
                branch: branch_shown,
                ..
            },
        ) => *root == *root_shown && shard == shard_shown && *branch == *branch_shown,
        _ => false,
    }
}

// Whether nothing becomes due at a node that hears this Val with one bit of its branch turned, for a bit of each byte.
fn heeds_no_turned_bit(alloc: Global, config: &Config, node: u8, val: &Vote) -> Result<bool, Fail>
    requires { node < config.now.n }
{
    for level in 0..MAX_HEIGHT {
        for byte in 0..32 {
            let is_heeded = match turned(val, level, byte)? {
                Some(val) => !due_by_val(alloc, config, node, &val)?.votes().is_empty(),
                None => false,
            };
            if is_heeded {
                return Ok(false);
            }
        }
    }
    Ok(true)
}

// The Val with one bit of this byte of its branch turned, if its branch goes up to this level.
fn turned(val: &Vote, level: usize, byte: usize) -> Result<Option<Vote>, Fail>
    requires level { level < 4 }
    requires byte { byte < 32 }
{
    match val {
        Vote::Val {
            epoch,
            target,
            root,
            shard,
            branch,
        } => {
            if level >= branch.len as usize {
                return Ok(None);
            }
            let mut branch = *branch;
            branch.digests[level][byte] ^= 1 << (byte % 8);
            Ok(Some(Vote::Val {
                epoch: *epoch,
                target: *target,
                root: *root,
                shard: shard.clone()?,
                branch,
            }))
        }
        _ => Err("no Val".into()),
    }
}

// Whether a node that hears the Val to node m echoes it as it is and heeds no Val with a turned bit, if that is the node itself,
// and else heeds it not.
fn heeds_its_own(
    alloc: Global,
    config: &Config,
    node: u8,
    val: &Vote,
    m: usize,
) -> Result<bool, Fail>
    requires { node < config.now.n }
{
    let due = due_by_val(alloc, config, node, val)?;
    if m == node as usize {
        Ok(echoes(due.votes(), val) && heeds_no_turned_bit(alloc, config, node, val)?)
    } else {
        Ok(due.votes().is_empty())
    }
}

#[test]
fn a_node_echoes_its_own_shard_alone(rt: HostRuntime) -> Result<(), Fail> {
    let alloc = rt.alloc();
    for &(n, f) in &SIZES {
        let config = config_of(n, f)?;
        let vals = vals_of(alloc, &config, value_of(alloc, 5)?)?;
        assert!(rt; vals.votes().len() == n as usize);
        for node in 0..config.n() {
            for (m, val) in vals.votes().iter().enumerate() {
                let holds = heeds_its_own(alloc, &config, node, val, m)?;
                assert!(rt; holds, "{n} nodes, node {node} hears the Val to node {m}");
            }
        }
    }
    Ok(())
}

// How many orders eight hearings have.
const ORDERS: u32 = 40_320;

// The order with this number: each place is swapped with one that is not before it, the first with one of eight and the last
// with itself, by what the number leaves when it is divided by how many these are. So no two numbers below `ORDERS` have one
// order. In an order m below 4 stands for an Echo of node m, and 4 + m for its Ready.
fn order_of(number: u32) -> [u8; 8] {
    let mut order = [0, 1, 2, 3, 4, 5, 6, 7];
    let mut rest = number as usize;
    for place in 0..8 {
        let left = 8 - place;
        order.swap(place, place + rest % left);
        rest /= left;
    }
    order
}

// Whether all that is due after these hearings, and what is delivered, is as the numbers of the rules say for n = 4, f = 1 and
// k = 2: three Echoes or two Readies make a Ready, and three Readies make a delivery once there are two Echoes.
fn is_as_wanted(rbc: &Rbc, due: &Due, root: &[u8; 32], value: &Bytes, heard: &[u8]) -> bool {
    let echoes = heard.iter().filter(|said| **said < 4).count();
    let readies = heard.iter().filter(|said| **said >= 4).count();
    let is_ready = echoes >= 3 || readies >= 2;
    let is_delivered = readies >= 3 && echoes >= 2;
    let wanted = if is_delivered {
        Some(value.as_slice())
    } else {
        None
    };
    let is_of_root = match due.votes() {
        [Vote::Ready { root: named, .. }, ..] => *named == *root,
        _ => true,
    };
    let delivers = match rbc.delivered() {
        Some(delivered) => is_delivered && delivered == value,
        None => !is_delivered,
    };
    are(due.votes(), is_ready, wanted) && is_of_root && delivers
}

// Whether what becomes due is as the numbers say after each hearing in this order.
fn order_holds(
    alloc: Global,
    config: &Config,
    tree: &Tree,
    shards: &[Bytes],
    value: &Bytes,
    order: &[u8; 8],
) -> Result<bool, Fail>
    requires tree { tree.now ≡ leaf_digests shards.now }
{
    let n = config.n();
    prove!(0 < n);
    let root = tree.root();
    let mut rbc = Rbc::rebuild(alloc, config, 0, 0, 0, &[])?;
    let mut due = Due::new(alloc);
    for place in 0..8 {
        let from = order[place] % 4;
        if from >= n {
            return Ok(false);
        }
        if order[place] < 4 {
            hear_echo(alloc, &mut rbc, from, from, tree, shards, &mut due)?;
        } else {
            let vote = Spoken::plain(Vote::Ready { epoch: 0, root });
            rbc.hear(alloc, from, &vote, &mut due)?;
        }
        if !is_as_wanted(&rbc, &due, &root, value, &order[..place + 1]) {
            return Ok(false);
        }
    }
    Ok(true)
}

#[test]
fn every_order_of_four_echoes_and_readies(rt: HostRuntime) -> Result<(), Fail> {
    let alloc = rt.alloc();
    let config = config_of(4, 1)?;
    let value = value_of(alloc, 5)?;
    let shards = encode(alloc, config.n(), config.k(), value.as_slice())?;
    assert!(rt; !shards.is_empty() && shards.len() <= 16);
    let tree = tree_over(alloc, &shards)?;
    for number in 0..ORDERS {
        let order = order_of(number);
        let holds = order_holds(alloc, &config, &tree, &shards, &value, &order)?;
        assert!(rt; holds, "order {number}");
    }
    Ok(())
}
