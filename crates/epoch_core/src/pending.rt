ghost use Rattle.std.specs.Prelude.{◌≡◌, ◌+◌, ◌≤◌, ◌++◌, [], length, OnOk, OnErr};
ghost use Rattle.std.specs.Option.{option_map, option_to_list};
ghost use Rattle.hb_base.specs.Limits.{most_epochs};
ghost use Rattle.hb_wire.specs.declared.vote.Vote.TheVariants.{NoMore, Propose};
ghost use Rattle.hb_rules.specs.Room.{KeepsRoom};
ghost use Rattle.hb_rules.specs.Slots.{when};

use hb_base::Bytes;
use hb_rules::Due;
use hb_wire::Vote;
use std::alloc::{AllocError, Global};

// Votes that are to be cast: the closings of one pass over the slots, and the proposals of the next.
#[derive(Debug, Drop)]
pub(crate) struct Pending {
    pub(crate) closings: Vec<Vote>,
    pub(crate) proposals: Vec<Vote>,
}

impl Pending {
    // No vote. It takes no memory.
    pub(crate) fn new(alloc: Global) -> Pending
        ensures closings { result.closings.items ≡ [] }
        ensures proposals { result.proposals.items ≡ [] }
    {
        Pending {
            closings: Vec::new(alloc),
            proposals: Vec::new(alloc),
        }
    }
}

// Adds NoMore of an epoch, if it is due, and then these votes. Want of memory adds none.
pub(crate) fn cast(
    is_no_more_due: bool,
    epoch: u8,
    pending: Pending,
    due: &mut Due,
) -> Result<(), AllocError>
    requires closings { length pending.closings.items ≤ most_epochs }
    requires proposals { length pending.proposals.items ≤ most_epochs }
    ensures ok { OnOk result (due.new.votes
        ≡ ((due.old.votes ++ option_to_list (when is_no_more_due (NoMore epoch))) ++ pending.closings.items) ++ pending.proposals.items) }
    ensures err { OnErr result (due.new.votes ≡ due.old.votes) }
    ensures keeps_room { KeepsRoom due.old due.new }
{
    let Pending {
        closings,
        proposals,
    } = pending;
    due.reserve(1 + closings.len() as u32 + proposals.len() as u32)?;
    push_no_more(is_no_more_due, epoch, due);
    push_all(closings, due);
    push_all(proposals, due);
    Ok(())
}

// Adds NoMore of an epoch, if it is due, for which there is room.
fn push_no_more(is_due: bool, epoch: u8, due: &mut Due)
    requires { 1 ≤ due.old.spare }
    ensures votes { due.new.votes ≡ due.old.votes ++ option_to_list (when is_due (NoMore epoch)) }
    ensures room { due.old.spare ≤ due.new.spare + 1 }
    ensures keeps_room { KeepsRoom due.old due.new }
{
    if is_due {
        due.push_reserved(Vote::NoMore { epoch });
    }
}

// Adds the first proposal, if it has this value, for which there is room.
pub(crate) fn push_first(value: Option<Bytes>, due: &mut Due)
    requires { 1 ≤ due.old.spare }
    ensures votes { due.new.votes ≡ due.old.votes ++ option_to_list (option_map (Propose 0) value) }
    ensures keeps_room { KeepsRoom due.old due.new }
{
    match value {
        Some(value) => due.push_reserved(Vote::Propose { epoch: 0, value }),
        None => {}
    }
}

// Adds votes for which there is room.
fn push_all(votes: Vec<Vote>, due: &mut Due)
    requires { length votes.items ≤ due.old.spare }
    ensures votes { due.new.votes ≡ due.old.votes ++ votes.items }
    ensures room { due.new.spare + length votes.items ≡ due.old.spare }
    ensures keeps_room { KeepsRoom due.old due.new }
{
    for vote in votes {
        due.push_reserved(vote);
    }
}
