ghost use Rattle.std.specs.Prelude.{◌≡◌, ◌++◌, IfOk, OnOk, Some};
ghost use Rattle.std.specs.Option.{option_to_list};
ghost use Rattle.hb_rules.specs.Hearing.{vote_by, heard_of};
ghost use Rattle.hb_rules.specs.Report.{cast_by};
ghost use Rattle.hb_rules.specs.Terms.{AreSpelled, AreHeardSpelled};
ghost use Rattle.quiet_check.specs.Receipts.{AreReceived};

use hb_base::Config;
use hb_rules::{End, Heard, Report, hear};
use hb_wire::{Post, Vote, WireFault, read_shared};
use std::alloc::{AllocError, Global};

// The votes that an actor has cast in a run, in order.
pub(crate) fn votes_of(alloc: Global, report: &Report, end: &End) -> Result<Vec<Vote>, AllocError>
    ensures cast { IfOk result (λ votes. votes.items ≡ cast_by report.now end.now.node end.now.actor) }
    ensures spelled { IfOk result (λ votes. AreSpelled report.now.config votes.items) }
{
    let mut votes = Vec::new(alloc);
    for post in &report.history {
        let vote = vote_by(alloc, &report.config, post, end.node, end.actor)?;
        add_vote(&mut votes, vote)?;
    }
    Ok(votes)
}

// The vote of a post of an actor.
fn vote_by(
    alloc: Global,
    config: &Config,
    post: &Post,
    node: u8,
    actor: u8,
) -> Result<Option<Vote>, AllocError>
    ensures { IfOk result (λ vote. vote ≡ vote_by config.now node actor post.now) }
{
    if post.from != node || post.actor != actor {
        return Ok(None);
    }
    match read_shared(alloc, config.n(), config.version(), post.bytes.as_bytes()) {
        Ok(vote) => Ok(Some(vote)),
        Err(WireFault::NotAMessage) => Ok(None),
        Err(WireFault::Memory) => Err(AllocError),
    }
}

fn add_vote(votes: &mut Vec<Vote>, vote: Option<Vote>) -> Result<(), AllocError>
    ensures { OnOk result (votes.new.items ≡ votes.old.items ++ option_to_list vote) }
{
    match vote {
        Some(vote) => {
            votes.push(vote)?;
            Ok(())
        }
        None => Ok(()),
    }
}

// What an actor heard of the posts that it received, in order.
pub(crate) fn hearings_of(
    alloc: Global,
    report: &Report,
    end: &End,
) -> Result<Vec<Heard>, AllocError>
    requires { AreReceived report.now end.now }
    ensures heard { IfOk result (λ heard. heard.items
        ≡ heard_of report.now.config end.now.node end.now.actor report.now.history.items end.now.got.items) }
    ensures spelled { IfOk result (λ heard. AreHeardSpelled report.now.config heard.items) }
{
    let mut heard = Vec::new(alloc);
    for number in &end.got {
        let post = &report.history[*number as usize];
        let said = hear(alloc, &report.config, post, end.node, end.actor)?;
        add_heard(&mut heard, said)?;
    }
    Ok(heard)
}

fn add_heard(heard: &mut Vec<Heard>, said: Option<Heard>) -> Result<(), AllocError>
    ensures { OnOk result (heard.new.items ≡ heard.old.items ++ option_to_list said) }
{
    match said {
        Some(said) => {
            heard.push(said)?;
            Ok(())
        }
        None => Ok(()),
    }
}
