//! A desk to which ten thousand transactions were submitted, over as many epochs as a run may have. Transaction number k is the
//! two bytes of k, so which ones a proposal has to have follows by counting.
ghost use Rattle.std.specs.Prelude.{◌≡◌, ◌<◌, IfOk, OnOk};
ghost use Rattle.epoch_core.specs.Epochs.{has_started};

use epoch_core::Epochs;
use hb_base::{Bytes, Config, NodeSet};
use hb_rules::Due;
use hb_wire::Vote;
use std::alloc::{AllocError, Global};
use std::test::Fail;
use tx_pool::Pool;

const SUBMITTED: u16 = 10_000;

const EPOCHS: u8 = 32;

// How many transactions a batch has.
const BATCH: u8 = 64;

/// What a lane delivers in each epoch: a batch of transactions one after the other, from `first` on in the first epoch, and
/// from `step` further on in each epoch after that.
#[derive(Clone, Copy)]
struct Delivery {
    first: u16,
    step: u16,
}

/// What the lanes do in each epoch. One that delivers nothing decides 0, and the others decide 1.
#[derive(Clone, Copy)]
struct Run {
    nodes: u8,
    faulty: u8,
    lanes: [Option<Delivery>; 4],

    /// How many transactions behind that of the epoch before a proposal begins.
    step: u16,
}

const RUNS: [Run; 3] = [
    // the own batch is settled in each epoch
    Run {
        nodes: 1,
        faulty: 0,
        lanes: [Some(Delivery { first: 0, step: 64 }), None, None, None],
        step: 64,
    },
    // so are the 64 behind it, by another node, and the same 64 in each epoch by a third one
    Run {
        nodes: 4,
        faulty: 1,
        lanes: [
            Some(Delivery {
                first: 0,
                step: 128,
            }),
            Some(Delivery {
                first: 64,
                step: 128,
            }),
            Some(Delivery {
                first: 9_000,
                step: 0,
            }),
            None,
        ],
        step: 128,
    },
    // the own batch is left out, and others settle what came later
    Run {
        nodes: 4,
        faulty: 1,
        lanes: [
            None,
            Some(Delivery {
                first: 64,
                step: 64,
            }),
            Some(Delivery {
                first: 64,
                step: 64,
            }),
            Some(Delivery {
                first: 7_000,
                step: 64,
            }),
        ],
        step: 0,
    },
];

// The first of the transactions of an epoch.
fn first_in(epoch: u8, first: u16, step: u16) -> u16 {
    first.saturating_add(step.saturating_mul(u16::from(epoch)))
}

// The batch of the transactions from this number on: two bytes of count, and two bytes of length before each.
fn batch_from(alloc: Global, first: u16) -> Result<Bytes, AllocError> {
    let mut bytes = Vec::from_slice(alloc, &[0, BATCH])?;
    for place in 0..BATCH {
        bytes.extend_from_slice(&[0, 2])?;
        bytes.extend_from_slice(&first.saturating_add(u16::from(place)).to_be_bytes())?;
    }
    Bytes::from_vec(bytes)
}

// A pool to which all were submitted.
fn full_pool(alloc: Global) -> Result<Pool, AllocError> {
    let mut pool = Pool::new(alloc);
    for number in 0..SUBMITTED {
        pool.submit(&Bytes::copy(alloc, &number.to_be_bytes())?)?;
    }
    Ok(pool)
}

// The desk of that pool, which has cast its first proposal.
fn started(alloc: Global, config: &Config, due: &mut Due) -> Result<Epochs, AllocError>
    ensures config { IfOk result (λ desk. desk.config ≡ config.now) }
    ensures started { IfOk result (λ desk. has_started desk) }
{
    let pool = full_pool(alloc)?;
    let mut desk = Epochs::rebuild(alloc, config, 0, pool, &[])?;
    desk.start(due)?;
    Ok(desk)
}

// A lane delivers, if it does so in the run.
fn hear_delivery(
    alloc: Global,
    desk: &mut Epochs,
    lane: u8,
    epoch: u8,
    delivery: Option<Delivery>,
    due: &mut Due,
) -> Result<(), AllocError>
    requires lane { lane < desk.old.config.n }
    requires started { has_started desk.old }
    ensures config { OnOk result (desk.new.config ≡ desk.old.config) }
    ensures started { OnOk result (has_started desk.new) }
{
    match delivery {
        None => Ok(()),
        Some(Delivery { first, step }) => {
            let value = batch_from(alloc, first_in(epoch, first, step))?;
            desk.hear(alloc, lane, &Vote::Delivered { epoch, value }, due)
        }
    }
}

// A lane delivers, or not, and decides.
fn hear_lane(
    alloc: Global,
    desk: &mut Epochs,
    lane: u8,
    epoch: u8,
    delivery: Option<Delivery>,
    due: &mut Due,
) -> Result<(), AllocError>
    requires lane { lane < desk.old.config.n }
    requires started { has_started desk.old }
    ensures config { OnOk result (desk.new.config ≡ desk.old.config) }
    ensures started { OnOk result (has_started desk.new) }
{
    hear_delivery(alloc, desk, lane, epoch, delivery, due)?;
    let bit = delivery.is_some();
    desk.hear(alloc, lane, &Vote::Decided { epoch, bit }, due)
}

// All lanes deliver and decide in an epoch.
fn hear_epoch(
    alloc: Global,
    desk: &mut Epochs,
    run: &Run,
    epoch: u8,
    due: &mut Due,
) -> Result<(), AllocError>
    requires nodes { desk.old.config.n ≡ run.now.nodes }
    requires started { has_started desk.old }
    ensures nodes { OnOk result (desk.new.config.n ≡ run.now.nodes) }
    ensures started { OnOk result (has_started desk.new) }
{
    for lane in 0..run.nodes {
        let delivery = run.lanes[lane as usize % 4];
        hear_lane(alloc, desk, lane, epoch, delivery, due)?;
    }
    Ok(())
}

// What the desk casts in a run.
fn cast_in(alloc: Global, run: &Run) -> Result<Due, Fail> {
    let config = Config::new(
        run.nodes,
        run.faulty,
        EPOCHS,
        1,
        BATCH,
        0,
        1,
        NodeSet::new(),
    )
    .ok_or("no config")?;
    let mut due = Due::new(alloc);
    let mut desk = started(alloc, &config, &mut due)?;
    for epoch in 0..EPOCHS {
        hear_epoch(alloc, &mut desk, run, epoch, &mut due)?;
    }
    Ok(due)
}

// How many of the votes propose, and how many close an epoch.
fn counts(votes: &[Vote]) -> (usize, usize) {
    let proposals = votes
        .iter()
        .filter(|vote| matches!(vote, Vote::Propose { .. }))
        .count();
    let closings = votes
        .iter()
        .filter(|vote| matches!(vote, Vote::Closed { .. }))
        .count();
    (proposals, closings)
}

// Whether one of the votes proposes this value for an epoch.
fn proposes(votes: &[Vote], epoch: u8, value: &[u8]) -> bool {
    votes.iter().any(|vote| match vote {
        Vote::Propose {
            epoch: other,
            value: proposed,
        } => *other == epoch && proposed.as_slice() == value,
        _ => false,
    })
}

// Whether one of the votes proposes for an epoch the batch of the transactions from this number on.
fn proposes_from(alloc: Global, votes: &[Vote], epoch: u8, first: u16) -> Result<bool, AllocError> {
    let wanted = batch_from(alloc, first)?;
    Ok(proposes(votes, epoch, wanted.as_slice()))
}

#[test]
fn oldest_of_ten_thousand(rt: HostRuntime) -> Result<(), Fail> {
    let alloc = rt.alloc();
    for run in &RUNS {
        let due = cast_in(alloc, run)?;
        assert!(rt; counts(due.votes()) == (32, 32), "in steps of {}", run.step);
        for epoch in 0..EPOCHS {
            let first = first_in(epoch, 0, run.step);
            let is_oldest = proposes_from(alloc, due.votes(), epoch, first)?;
            assert!(rt; is_oldest, "epoch {epoch} in steps of {}", run.step);
        }
    }
    Ok(())
}
