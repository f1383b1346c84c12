//! Whether closed lists have what desks of correct nodes proposed.

ghost use Rattle.std.specs.Prelude.{◌≡◌, ◌↔◌, List, slice_index_or, IsTrue};
ghost use Rattle.std.specs.List.{list_any, list_all};
ghost use Rattle.hb_wire.specs.declared.items.Item.{Item};
ghost use Rattle.hb_wire.specs.Glances.{IsClosedRest, HasItemAt};
ghost use Rattle.hb_rules.specs.History.{IsLegal};
ghost use Rattle.hb_rules.specs.Ledger.{AreUnaltered};
ghost use Rattle.hb_rules.specs.Strings.{NoCollision};
ghost use Rattle.acs_world.specs.Closed.{closing_by, proposes, is_own, is_unaltered};

use crate::closings::{closing_of, count_of};
use crate::firsts::{first_numbers, place_of, post_at};
use hb_base::Config;
use hb_rules::{Report, is_correct};
use hb_wire::{Post, VoteView, item, view};

// The first byte of a proposal.
const PROPOSE: u8 = 0x10;

/// Whether what each list with which a correct desk closed an epoch has of a correct node is what the desk of that node
/// proposed for the epoch (CCS 2016, section 4). It is so for each legal history in which no two hashed strings share a
/// digest. It takes no memory.
///
/// It goes through the posts twice, and compares each item with the first proposal of its node for the epoch, so where no
/// desk proposes twice for an epoch, time is linear in the bytes of the history. Where an item is not the first proposal,
/// the posts are gone through again for it.
pub fn unaltered(report: &Report) -> bool
    ensures exact { IsTrue result ↔ AreUnaltered report.now.config report.now.history.items }
    ensures legal { IsLegal report.now.config report.now.history.items → NoCollision report.now.config report.now.history.items → IsTrue result }
{
    let config = &report.config;
    // what this call ensures says that the numbers of the run are sound
    let _sound = config.liars();
    let posts = report.history.as_slice();
    let table = first_numbers(config, posts, PROPOSE);
    all_unaltered(config, posts, &table)
}

// Whether each list with which a post closes an epoch has what desks proposed.
fn all_unaltered(config: &Config, posts: &[Post], table: &[Option<usize>]) -> bool
    ensures { result ≡ list_all (λ post. is_unaltered config.now posts.now (closing_by config.now post)) posts.now }
{
    posts.iter().all(|post| has_own(config, posts, table, post))
}

// Whether the list with which a post closes an epoch, if it closes one, has what desks proposed.
fn has_own(config: &Config, posts: &[Post], table: &[Option<usize>], post: &Post) -> bool
    ensures { result ≡ is_unaltered config.now posts.now (closing_by config.now post.now) }
{
    match closing_of(config, post) {
        None => true,
        Some(closing) => are_own(config, posts, table, closing.epoch, closing.rest),
    }
}

// Whether each item of a closed list is what its node's desk proposed, unless its node lies.
fn are_own(config: &Config, posts: &[Post], table: &[Option<usize>], epoch: u8, rest: &[u8]) -> bool
    requires { (items : List Item) × IsClosedRest rest.now items }
    ensures { (items : List Item) → IsClosedRest rest.now items → result ≡ list_all (is_own config.now posts.now epoch) items }
{
    for j in 0..count_of(rest) {
        if !is_own(config, posts, table, epoch, rest, j) {
            return false;
        }
    }
    true
}

// Whether item j of a closed list is.
fn is_own(
    config: &Config,
    posts: &[Post],
    table: &[Option<usize>],
    epoch: u8,
    rest: &[u8],
    j: u8,
) -> bool
    requires { HasItemAt rest.now j }
    ensures { (items : List Item) → IsClosedRest rest.now items → (d : Item) → result ≡ is_own config.now posts.now epoch (slice_index_or items j d) }
{
    let (node, value) = item(rest, j);
    if !is_correct(config, node) {
        return true;
    }
    is_proposed(config, posts, table, node, epoch, value)
}

// Whether the desk of a node has proposed a value for an epoch.
fn is_proposed(
    config: &Config,
    posts: &[Post],
    table: &[Option<usize>],
    node: u8,
    epoch: u8,
    value: &[u8],
) -> bool
    ensures { result ≡ list_any (proposes config.now node epoch value.now) posts.now }
{
    is_first(config, posts, table, node, epoch, value)
        || posts
            .iter()
            .any(|post| proposes(config, post, node, epoch, value))
}

// Whether it is the value of the proposal to which the table leads.
fn is_first(
    config: &Config,
    posts: &[Post],
    table: &[Option<usize>],
    node: u8,
    epoch: u8,
    value: &[u8],
) -> bool
    ensures { IsTrue result → IsTrue (list_any (proposes config.now node epoch value.now) posts.now) }
{
    match post_at(posts, table, place_of(node, epoch)) {
        None => false,
        Some(post) => proposes(config, post, node, epoch, value),
    }
}

// Whether a post of the desk of this node proposes the value for the epoch.
fn proposes(config: &Config, post: &Post, node: u8, epoch: u8, value: &[u8]) -> bool
    ensures { result ≡ proposes config.now node epoch value.now post.now }
{
    if post.from != node || post.actor != config.n() {
        return false;
    }
    match view(config.n(), config.version(), post.bytes.as_slice()) {
        Some(
            VoteView::Propose {
                epoch: other,
                value: proposed,
            },
        ) => other == epoch && value == proposed,
        _ => false,
    }
}
