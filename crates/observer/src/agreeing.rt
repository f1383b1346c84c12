//! Whether the observers of a run agree with its correct nodes, and with one another.

ghost use Rattle.std.specs.Prelude.{◌≡◌, ◌↔◌, ◌||◌, ℕ, ◌≤◌, [], ◌∷◌, Some, IsTrue, IfOk, slice_get};
ghost use Rattle.std.specs.List.{list_all, range_with_len};
ghost use Rattle.hb_base.specs.Limits.{most_epochs};
ghost use Rattle.hb_base.specs.NodeSet.{is_in};
ghost use Rattle.hb_rules.specs.History.{IsLegal};
ghost use Rattle.hb_rules.specs.Ledger.{ledger};
ghost use Rattle.hb_rules.specs.Strings.{NoCollision};
ghost use Rattle.acs_world.specs.Closed.{closing_by};
ghost use Rattle.acs_world.specs.Firsts.{is_epoch};
ghost use Rattle.acs_world.specs.Prefixes.{same_at, are_alike};
ghost use Rattle.observer.specs.Beside.{ObserversAgree, arriving, heard_beside, is_enough, all_enough, agrees_with, has_closers, is_complete, agrees_at, all_agree};
ghost use Rattle.observer.specs.Agreeing.{is_closer};
ghost use Rattle.observer.specs.Standing.{ledger_of};

use crate::beside::{is_dropped, observers_beside};
use crate::observer::{CLOSED, Observer};
use acs_world::{LedgerFinder, count_of};
use hb_base::{Config, NodeSet};
use hb_rules::{Report, is_correct};
use hb_wire::{Post, glance};
use net_script::Link;
use std::alloc::{AllocError, Global};

/// Whether the observers beside the nodes of a run agree with its correct nodes and with one another, have taken lists of the
/// batches of n - f nodes at least, and as many as they had to (CCS 2016, section 4). It is so for each legal history in which
/// no two hashed strings share a digest. Err where there is no memory for the observers.
///
/// Each of the n observers hears the whole history, in time nearly linear in its bytes, and for each the posts are gone through
/// once more. Where f + 1 correct nodes have closed the epoch behind its lists, they are gone through again for each list.
pub fn observers_agree(alloc: Global, report: &Report) -> Result<bool, AllocError>
    ensures exact { IfOk result (λ answer. IsTrue answer ↔ ObserversAgree report.now) }
    ensures legal { IsLegal report.now.config report.now.history.items → NoCollision report.now.config report.now.history.items
        → IfOk result (λ answer. IsTrue answer) }
{
    // what this call ensures says that the numbers of the run are sound
    let _sound = report.config.liars();
    let observers = observers_beside(alloc, report)?;
    Ok(all_agree(report, observers.as_slice()))
}

// Whether all these observers do.
fn all_agree(report: &Report, observers: &[Observer]) -> bool
    ensures { result ≡ all_agree report.now observers.now }
{
    (0..report.config.n()).all(|node| agrees_at(report, observers, node))
}

// Whether the observer beside a node does, if there is one.
fn agrees_at(report: &Report, observers: &[Observer], node: u8) -> bool
    ensures { result ≡ agrees_at report.now observers.now node (slice_get observers.now node) }
{
    let place = node as usize;
    if place >= observers.len() {
        return true;
    }
    agrees(report, observers, node, &observers[place])
}

// Whether an observer beside a node does.
fn agrees(report: &Report, observers: &[Observer], node: u8, observer: &Observer) -> bool
    ensures { result ≡ agrees_at report.now observers.now node (Some observer.now) }
{
    agrees_with_all(report, observer)
        && alike_to_all(observers, observer)
        && all_enough(&report.config, observer)
        && is_complete(report, node, observer.epochs())
}

// Whether an observer's ledger is alike with that of each correct node.
fn agrees_with_all(report: &Report, observer: &Observer) -> bool
    ensures { result ≡ list_all (agrees_with report.now.config report.now.history.items (ledger_of observer.now)) (range_with_len 0 report.now.config.n) }
{
    let ledgers = LedgerFinder::new(&report.config, report.history.as_slice());
    agrees_with_each(&ledgers, observer)
}

fn agrees_with_each(ledgers: &LedgerFinder, observer: &Observer) -> bool
    ensures { result ≡ list_all (agrees_with ledgers.now.config ledgers.now.posts (ledger_of observer.now)) (range_with_len 0 ledgers.now.config.n) }
{
    (0..ledgers.config().n()).all(|node| agrees_with(ledgers, observer, node))
}

// Whether it is alike with that of a node, if the node is correct.
fn agrees_with(ledgers: &LedgerFinder, observer: &Observer, node: u8) -> bool
    ensures { result ≡ agrees_with ledgers.now.config ledgers.now.posts (ledger_of observer.now) node }
{
    !is_correct(ledgers.config(), node) || alike_to_node(ledgers, observer, node)
}

// Whether it is alike with that of a node as far as both go.
fn alike_to_node(ledgers: &LedgerFinder, observer: &Observer, node: u8) -> bool
    ensures { result ≡ are_alike (ledger_of observer.now) (ledger ledgers.now.config ledgers.now.posts node) }
{
    (0..observer.epochs()).all(|e| same_at_node(ledgers, observer, node, e))
}

// Whether both have the same list at a place, if both have one there.
fn same_at_node(ledgers: &LedgerFinder, observer: &Observer, node: u8, e: u32) -> bool
    ensures { result ≡ same_at (ledger_of observer.now) (ledger ledgers.now.config ledgers.now.posts node) e }
{
    if e >= observer.epochs() {
        return true;
    }
    match ledgers.at(node, e as usize) {
        None => true,
        Some(closing) => observer.list(e) == closing.rest,
    }
}

// Whether an observer's ledger is alike with those of all these observers.
fn alike_to_all(observers: &[Observer], observer: &Observer) -> bool
    ensures { result ≡ list_all (λ other. are_alike (ledger_of observer.now) (ledger_of other)) observers.now }
{
    observers.iter().all(|other| are_alike(observer, other))
}

// Whether two observers' ledgers are alike as far as both go.
fn are_alike(observer: &Observer, other: &Observer) -> bool
    ensures { result ≡ are_alike (ledger_of observer.now) (ledger_of other.now) }
{
    (0..observer.epochs()).all(|e| same_at(observer, other, e))
}

// Whether both have the same list of an epoch, if both have one.
fn same_at(observer: &Observer, other: &Observer, e: u32) -> bool
    ensures { result ≡ same_at (ledger_of observer.now) (ledger_of other.now) e }
{
    if e >= observer.epochs() || e >= other.epochs() {
        return true;
    }
    observer.list(e) == other.list(e)
}

// Whether each list of an observer's ledger has the batches of n - f nodes at least.
fn all_enough(config: &Config, observer: &Observer) -> bool
    ensures { result ≡ all_enough config.now (ledger_of observer.now) }
{
    (0..observer.epochs()).all(|e| is_enough(config, observer, e))
}

// Whether the list of an epoch has, if there is one.
fn is_enough(config: &Config, observer: &Observer, e: u32) -> bool
    ensures { result ≡ is_enough config.now (slice_get (ledger_of observer.now) e) }
{
    if e >= observer.epochs() {
        return true;
    }
    count_of(observer.list(e)) >= config.n() - config.f()
}

// Whether an observer beside a node with so many lists has as many as it has to have. The epoch behind them is asked for first,
// since few histories have it.
fn is_complete(report: &Report, node: u8, count: u32) -> bool
    requires { count ≤ most_epochs }
    ensures { result ≡ is_complete report.now node count }
{
    let next = count as u8;
    !(has_closers(report, node, next) && all_closed(report, node, next))
}

// Whether f + 1 correct nodes have closed each of so many epochs by posts that come to a node.
fn all_closed(report: &Report, node: u8, count: u8) -> bool
    ensures { result ≡ list_all (has_closers report.now.config (heard_beside report.now node)) (range_with_len 0 count) }
{
    (0..count).all(|e| has_closers(report, node, e))
}

// Whether f + 1 correct nodes have closed an epoch by posts that come to a node.
fn has_closers(report: &Report, node: u8, e: u8) -> bool
    ensures { result ≡ has_closers report.now.config (heard_beside report.now node) e }
{
    // what this call ensures says that the numbers of the run are sound
    let _sound = report.config.liars();
    closers(report, node, e).count() > report.config.f()
}

// The correct nodes that have.
fn closers(report: &Report, node: u8, e: u8) -> NodeSet
    ensures { (i : ℕ) → is_in result i ≡ is_closer report.now.config (heard_beside report.now node) e i }
{
    let links = report.script.links.as_slice();
    let posts = report.history.as_slice();
    let mut nodes = NodeSet::new();
    for k in 0..posts.len() {
        nodes = with_closer(&report.config, links, node, e, k, &posts[k], nodes);
    }
    nodes
}

// The nodes of a set, and that of post k, if it is a correct node's that closes an epoch by it, and the post comes to a node.
fn with_closer(
    config: &Config,
    links: &[Link],
    node: u8,
    e: u8,
    k: usize,
    post: &Post,
    nodes: NodeSet,
) -> NodeSet
    ensures { (i : ℕ) → is_in result i ≡ (is_in nodes i || is_closer config.now (arriving links.now node k (post.now ∷ [])) e i) }
{
    // what this call ensures says that the numbers of the run are sound
    let _sound = config.liars();
    if is_dropped(links, post.from, node, k) {
        return nodes;
    }
    if !closes(config, post, e) {
        return nodes;
    }
    let mut more = nodes;
    more.add(post.from);
    more
}

// Whether a post is of a correct node's desk and closes an epoch.
fn closes(config: &Config, post: &Post, e: u8) -> bool
    ensures { result ≡ is_epoch e (closing_by config.now post.now) }
{
    if !is_correct(config, post.from) || post.actor != config.n() {
        return false;
    }
    match glance(config.n(), config.version(), post.bytes.as_slice()) {
        None => false,
        Some(glance) => glance.kind == CLOSED && glance.epoch == e,
    }
}
