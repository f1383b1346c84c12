//! Whether a post may follow those that were judged before it.
ghost use Rattle.std.specs.Prelude.{◌≡◌, ◌<◌, ◌↔◌, true, false, Some, IfOk, IfSome, IsTrue};
ghost use Rattle.std.specs.List.{list_any};
ghost use Rattle.hb_base.specs.NodeSet.{is_in};
ghost use Rattle.hb_rules.specs.History.{HasSpelling, IsAllowed, IsLegal};
ghost use Rattle.hb_rules.specs.Rules.{MayCast};
ghost use Rattle.hb_wire.specs.Votes.{address_of};
ghost use Rattle.hb_rules.specs.Hearing.{own_in, heard_in, spelled};
ghost use Rattle.hb_rules.specs.Same.{same_vote};
ghost use Rattle.hb_rules.specs.Strings.{NoCollision};
ghost use Rattle.history_verdict.specs.Verdicts.{Judges};
ghost use Rattle.hb_rules.specs.Terms.{AreHeardSpelled};
ghost use Rattle.rbc_judge.specs.Checked.{AreChecked};
ghost use Rattle.aba_judge.specs.Checked.{AreSharesChecked};
ghost use Rattle.post_judge.specs.Places.{casts, is_cast_ever, looked_at};
ghost use Rattle.post_judge.specs.Tables.{own_votes, told_from, AreTold};

use crate::casting::{Caster, casts, may_cast};
use crate::gathering::{own_votes, told_from};
use crate::placing::looked_at;
use crate::table::Table;
use hb_rules::Heard;
use hb_wire::{Post, Vote, equality_laws};
use history_verdict::verdict_laws;
use rbc_judge::Known;
use std::alloc::AllocError;

// Whether the run has actors of this number that cast votes of this kind, and the epoch of the vote.
fn is_cast_ever(table: &Table, actor: u8, vote: &Vote) -> bool
    ensures { result ≡ is_cast_ever table.now.config actor vote.now }
{
    casts(table.config.n(), actor, vote) && vote.epoch() < table.config.epochs()
}

// What an actor hears of the posts at which the rule for a vote looks that actors of its number cast.
fn heard_for(table: &Table, node: u8, actor: u8, vote: &Vote) -> Result<Vec<Heard>, AllocError>
    requires told { AreTold table.now.config table.now.posts.items table.now.buckets.by_place }
    requires casts { casts table.now.config.n actor vote.now ≡ true }
    ensures exact { IfOk result (λ heard. heard.items
        ≡ told_from table.now.config node actor table.now.posts.items table.now.buckets.by_place (looked_at table.now.config node actor vote.now)) }
    ensures checked { IfOk result (λ heard. actor < table.now.config.n → AreChecked table.now.config.n heard.items) }
    ensures shares { IfOk result (λ heard. actor < table.now.config.n → AreSharesChecked table.now.config actor heard.items) }
    ensures spelled { IfOk result (λ heard. AreHeardSpelled table.now.config heard.items) }
{
    let places = looked_at(table.alloc, &table.config, node, actor, vote)?;
    let heard = told_from(table, node, actor, &places)?;
    Ok(heard)
}

// Whether an actor of a correct node may cast a vote now, by the votes that it has cast.
fn may_cast_now(
    table: &Table,
    known: &mut Known,
    node: u8,
    actor: u8,
    own: &[Vote],
    vote: &Vote,
) -> Result<bool, AllocError>
    requires deal { table.now.deal ≡ table.now.config }
    requires told { AreTold table.now.config table.now.posts.items table.now.buckets.by_place }
    requires own { own.now ≡ own_votes table.now.config node actor vote.now table.now.posts.items table.now.buckets.by_place }
    requires node { node < table.now.config.n }
    requires correct { is_in table.now.config.liars node ≡ false }
    requires vote { HasSpelling table.now.config vote.now }
    ensures sound { IfOk result (λ may. may ≡ true → MayCast table.now.config node actor
        (own_in table.now.config node actor table.now.posts.items) (heard_in table.now.config node actor table.now.posts.items) vote.now) }
    ensures complete { IfOk result (λ may. IsLegal table.now.config table.now.posts.items → NoCollision table.now.config table.now.posts.items
        → MayCast table.now.config node actor (own_in table.now.config node actor table.now.posts.items)
        (heard_in table.now.config node actor table.now.posts.items) vote.now → may ≡ true) }
{
    // A config is sound where its liars can be told.
    let _sound = table.config.liars();
    if !is_cast_ever(table, actor, vote) {
        return Ok(false);
    }
    let heard = heard_for(table, node, actor, vote)?;
    let caster = Caster {
        config: table.config,
        node,
        actor,
    };
    may_cast(table.alloc, &table.deal, known, &caster, own, &heard, vote)
}

// Whether an actor of a correct node has cast a vote before, or may cast it now.
fn is_allowed(
    table: &Table,
    known: &mut Known,
    node: u8,
    actor: u8,
    vote: &Vote,
) -> Result<bool, AllocError>
    requires deal { table.now.deal ≡ table.now.config }
    requires told { AreTold table.now.config table.now.posts.items table.now.buckets.by_place }
    requires node { node < table.now.config.n }
    requires correct { is_in table.now.config.liars node ≡ false }
    requires vote { HasSpelling table.now.config vote.now }
    ensures sound { IfOk result (λ may. may ≡ true → IsAllowed table.now.config node actor table.now.posts.items vote.now) }
    ensures complete { IfOk result (λ may. IsLegal table.now.config table.now.posts.items → NoCollision table.now.config table.now.posts.items
        → IsAllowed table.now.config node actor table.now.posts.items vote.now → may ≡ true) }
{
    let own = own_votes(table, node, actor, vote);
    if is_among(vote, own) {
        return Ok(true);
    }
    may_cast_now(table, known, node, actor, own, vote)
}

// Whether a vote is among these.
fn is_among(vote: &Vote, own: &[Vote]) -> bool
    ensures { result ≡ list_any (same_vote vote.now) own.now }
{
    own.iter().any(|one| *vote == *one)
}

// Whether a post goes where its vote goes.
fn goes_right(post: &Post, vote: &Vote) -> bool
    ensures { IsTrue result ↔ post.now.to ≡ address_of vote.now }
{
    equality_laws();
    post.to == vote.to()
}

// Whether a post of a correct node may follow that spells this vote.
fn may_follow(
    table: &Table,
    known: &mut Known,
    post: &Post,
    vote: &Vote,
) -> Result<bool, AllocError>
    requires deal { table.now.deal ≡ table.now.config }
    requires told { AreTold table.now.config table.now.posts.items table.now.buckets.by_place }
    requires node { post.now.from < table.now.config.n }
    requires correct { is_in table.now.config.liars post.now.from ≡ false }
    requires vote { HasSpelling table.now.config vote.now }
    requires spelled { spelled table.now.config post.now ≡ Some vote.now }
    ensures { IfOk result (λ may. IsLegal table.now.config table.now.posts.items → Judges table.now.config table.now.posts.items post.now may) }
{
    verdict_laws();
    if !goes_right(post, vote) {
        return Ok(false);
    }
    let allowed = is_allowed(table, known, post.from, post.actor, vote)?;
    Ok(allowed)
}

// Whether a post may follow, with the vote that it spells, if it spells one. A liar's post may, whatever it is.
pub(crate) fn judged(
    table: &Table,
    known: &mut Known,
    post: &Post,
    vote: &Option<Vote>,
) -> Result<bool, AllocError>
    requires deal { table.now.deal ≡ table.now.config }
    requires told { AreTold table.now.config table.now.posts.items table.now.buckets.by_place }
    requires vote { vote.now ≡ spelled table.now.config post.now }
    requires fits { IfSome vote.now (HasSpelling table.now.config) }
    ensures { IfOk result (λ may. IsLegal table.now.config table.now.posts.items → Judges table.now.config table.now.posts.items post.now may) }
{
    if post.from >= table.config.n() {
        return Ok(false);
    }
    if table.config.liars().has(post.from) {
        return Ok(true);
    }
    match vote {
        Some(vote) => may_follow(table, known, post, vote),
        None => Ok(false),
    }
}
