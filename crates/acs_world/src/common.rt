//! How many epochs all running nodes have closed.

ghost use Rattle.std.specs.Prelude.{◌≡◌, ℕ, ◌+◌, ◌-◌, ◌^◌, ◌<◌, min, length, true, Some};
ghost use Rattle.std.specs.List.{list_all};
ghost use Rattle.std.specs.Option.{unwrap_or};
ghost use Rattle.hb_base.specs.Counting.{count_nodes};
ghost use Rattle.hb_rules.specs.History.{IsLegal};
ghost use Rattle.hb_rules.specs.Lanes.{is_correct};
ghost use Rattle.hb_rules.specs.Ledger.{ledger};
ghost use Rattle.hb_rules.specs.Strings.{NoCollision};
ghost use Rattle.acs_world.specs.Closed.{closing_by};
ghost use Rattle.acs_world.specs.Common.{lower, least_of, counts_below, common_epochs, AreCommon};
ghost use Rattle.acs_world.specs.Firsts.{place_of, post_at, has_closed, is_like_one, repeats};

use crate::closings::{CLOSED, closing_of};
use crate::firsts::{first_numbers, has_closed, place_of, post_at};
use crate::lists::{closed_count, is_like};
use hb_base::Config;
use hb_base::limits::MOST_EPOCHS;
use hb_rules::{Report, running};
use hb_wire::Post;

/// The least number of lists in the ledgers of running nodes, 0 where none runs, up to the greatest u32. In each legal
/// history in which no two hashed strings share a digest, the ledgers of any two running nodes are the same up to this
/// number of lists. It takes no memory.
///
/// It goes through the posts twice, and compares each closed vote of a correct node's desk with the first one of the desk for
/// the epoch, so time is linear in the bytes of the history where no correct desk closes an epoch with two lists. Where one
/// does, each closed vote of a running node's desk is compared with those before.
pub fn common_epochs(report: &Report) -> u32
    ensures exact { result ≡ min (common_epochs report.now) (2 ^ 32 - 1) }
    ensures legal { IsLegal report.now.config report.now.history.items → NoCollision report.now.config report.now.history.items → AreCommon report.now result }
{
    // what this call ensures says that the numbers of the run are sound
    let _sound = report.config.liars();
    clamped(least_count(report))
}

// A number, or 0, up to the greatest u32.
fn clamped(least: Option<usize>) -> u32
    ensures { result ≡ min (unwrap_or least 0) (2 ^ 32 - 1) }
{
    let count = match least {
        None => 0,
        Some(count) => count,
    };
    count.min(u32::MAX as usize) as u32
}

// The least number of lists in the ledgers of running nodes.
fn least_count(report: &Report) -> Option<usize>
    ensures { result ≡ least_of (counts_below report.now report.now.config.n) }
{
    let config = &report.config;
    let posts = report.history.as_slice();
    let table = first_numbers(config, posts, CLOSED);
    let are_repeated = all_repeat(config, posts, &table);
    let mut least = None;
    for node in 0..config.n() {
        least = with_node(report, &table, are_repeated, node, least);
    }
    least
}

// The least number with that of one more node, if the node runs.
fn with_node(
    report: &Report,
    table: &[Option<usize>],
    are_repeated: bool,
    node: u8,
    least: Option<usize>,
) -> Option<usize>
    requires repeated { are_repeated ≡ list_all (repeats report.now.config report.now.history.items table.now) report.now.history.items }
    requires least { least ≡ least_of (counts_below report.now node) }
    ensures { result ≡ least_of (counts_below report.now (node + 1)) }
{
    if !running(report, node) {
        return least;
    }
    let posts = report.history.as_slice();
    let count = count_at(&report.config, posts, table, are_repeated, node);
    lower(least, count)
}

// The lower of a number, if there is one, and another.
fn lower(least: Option<usize>, count: usize) -> Option<usize>
    ensures { result ≡ Some (lower least count) }
{
    match least {
        None => Some(count),
        Some(before) => Some(before.min(count)),
    }
}

/// How many lists the ledger of a correct node has.
pub(crate) fn count_at(
    config: &Config,
    posts: &[Post],
    table: &[Option<usize>],
    are_repeated: bool,
    node: u8,
) -> usize
    requires repeated { are_repeated ≡ list_all (repeats config.now posts.now table.now) posts.now }
    requires correct { is_correct config.now node ≡ true }
    ensures { result ≡ length (ledger config.now posts.now node) }
{
    if are_repeated {
        tabled_count(config, posts, table, node) as usize
    } else {
        closed_count(config, posts, node)
    }
}

// In how many epochs the table leads to a closed vote of a node's desk.
fn tabled_count(config: &Config, posts: &[Post], table: &[Option<usize>], node: u8) -> u8
    ensures { result ≡ count_nodes 32 (has_closed config.now posts.now table.now node) }
{
    let mut count = 0;
    for epoch in 0..MOST_EPOCHS {
        if has_closed(config, posts, table, node, epoch) {
            count += 1;
        }
    }
    count
}

/// Whether each post that closes an epoch does so as its desk did before, by the table.
pub(crate) fn all_repeat(config: &Config, posts: &[Post], table: &[Option<usize>]) -> bool
    ensures { result ≡ list_all (repeats config.now posts.now table.now) posts.now }
{
    posts.iter().all(|post| repeats(config, posts, table, post))
}

// Whether a post, if it closes an epoch, does so as its desk did before, by the table.
fn repeats(config: &Config, posts: &[Post], table: &[Option<usize>], post: &Post) -> bool
    ensures { result ≡ repeats config.now posts.now table.now post.now }
{
    match closing_of(config, post) {
        None => true,
        Some(closing) => is_like_one(config, posts, table, closing.epoch, post),
    }
}

// Whether the table leads for the desk of a post and an epoch to a post of that desk with the same bytes.
fn is_like_one(
    config: &Config,
    posts: &[Post],
    table: &[Option<usize>],
    epoch: u8,
    post: &Post,
) -> bool
    ensures { result ≡ is_like_one config.now post.now.from post.now.bytes (post_at posts.now table.now (place_of post.now.from epoch)) }
{
    match post_at(posts, table, place_of(post.from, epoch)) {
        None => false,
        Some(first) => is_like(config, post.from, post.bytes.as_slice(), first),
    }
}
