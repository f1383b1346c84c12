//! What an actor has cast, and what it hears, by the places of posts.
ghost use Rattle.std.specs.Prelude.{◌≡◌, ◌++◌, length, map, filter_map, slice_get, Some, IfOk, OnOk};
ghost use Rattle.std.specs.Option.{option_to_list, option_and_then};
ghost use Rattle.post_judge.specs.Tables.{spelled_at, posts_of, own_votes, told_as, told_to, told_from, AreTold};

use crate::place::Place;
use crate::placing::own_place;
use crate::table::Table;
use hb_base::Config;
use hb_rules::Heard;
use hb_wire::{Post, Vote, reaches};
use std::alloc::{AllocError, Global};

// The votes that an actor has cast at the place of a vote, lent.
pub(crate) fn own_votes<'a>(table: &'a Table, node: u8, actor: u8, vote: &Vote) -> &'a [Vote]
    requires { AreTold table.now.config table.now.posts.items table.now.buckets.by_place }
    ensures { result.now ≡ own_votes table.now.config node actor vote.now table.now.posts.items table.now.buckets.by_place }
{
    let place = own_place(table.config.n(), node, actor, vote);
    let (_, votes) = table.buckets.at(place);
    votes
}

// What an actor of a node hears of a post that spells this vote, if the post reaches it. The vote is cloned, and no byte is read.
fn told_as(
    config: &Config,
    node: u8,
    actor: u8,
    post: &Post,
    vote: &Vote,
) -> Result<Option<Heard>, AllocError>
    ensures { IfOk result (λ heard. heard ≡ told_as config.now node actor post.now (Some vote.now)) }
{
    let n = config.n();
    if !reaches(n, post, node, actor) {
        return Ok(None);
    }
    let from = if actor == n { post.actor } else { post.from };
    let vote = vote.clone()?;
    Ok(Some(Heard::new(from, vote)))
}

// The same of the post of a number, which spells this vote.
fn told_of(
    config: &Config,
    node: u8,
    actor: u8,
    posts: &[Post],
    number: u32,
    vote: &Vote,
) -> Result<Option<Heard>, AllocError>
    requires { spelled_at config.now posts.now number ≡ Some vote.now }
    ensures { IfOk result (λ heard. heard ≡ option_and_then (told_to config.now node actor) (slice_get posts.now number)) }
{
    match posts.get(number as usize) {
        Some(post) => told_as(config, node, actor, post, vote),
        None => Ok(None),
    }
}

// Puts a hearing, if there is one, behind what was heard.
fn push_some(heard: &mut Vec<Heard>, said: Option<Heard>) -> Result<(), AllocError>
    ensures { OnOk result (heard.new.items ≡ heard.old.items ++ option_to_list said) }
{
    match said {
        Some(said) => {
            heard.push(said)?;
            Ok(())
        }
        None => Ok(()),
    }
}

// Puts what it hears of the posts of these numbers, which spell these votes, behind what it has heard.
fn hear_told(
    table: &Table,
    node: u8,
    actor: u8,
    numbers: &[u32],
    votes: &[Vote],
    heard: &mut Vec<Heard>,
) -> Result<(), AllocError>
    requires size { length numbers.now ≡ length votes.now }
    requires votes { map Some votes.now ≡ map (spelled_at table.now.config table.now.posts.items) numbers.now }
    ensures { OnOk result (heard.new.items ≡ heard.old.items
        ++ filter_map (told_to table.now.config node actor) (posts_of table.now.posts.items numbers.now)) }
{
    for k in 0..numbers.len() {
        let number = numbers[k];
        let said = told_of(&table.config, node, actor, &table.posts, number, &votes[k])?;
        push_some(heard, said)?;
    }
    Ok(())
}

// What it hears of the posts at some places.
pub(crate) fn told_from(
    table: &Table,
    node: u8,
    actor: u8,
    places: &[Place],
) -> Result<Vec<Heard>, AllocError>
    requires { AreTold table.now.config table.now.posts.items table.now.buckets.by_place }
    ensures { IfOk result (λ heard. heard.items
        ≡ told_from table.now.config node actor table.now.posts.items table.now.buckets.by_place places.now) }
{
    let mut heard = Vec::new(table.alloc);
    for place in places {
        let (numbers, votes) = table.buckets.at(*place);
        hear_told(table, node, actor, numbers, votes, &mut heard)?;
    }
    Ok(heard)
}
