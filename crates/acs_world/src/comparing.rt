//! Whether of any two correct nodes' ledgers one begins with the other.

ghost use Rattle.std.specs.Prelude.{◌≡◌, ◌↔◌, ◌||◌, ◌==◌, ◌-◌, length, IsTrue};
ghost use Rattle.std.specs.List.{list_all, range_with_len};
ghost use Rattle.hb_rules.specs.History.{IsLegal};
ghost use Rattle.hb_rules.specs.Ledger.{ledger, AreComparable};
ghost use Rattle.hb_rules.specs.Strings.{NoCollision};
ghost use Rattle.acs_world.specs.Firsts.{post_at, has_bytes, has_closed, agrees};
ghost use Rattle.acs_world.specs.Prefixes.{same_at, are_alike, may_compare, all_alike};

use crate::closings::{CLOSED, closing_of};
use crate::firsts::{first_numbers, has_closed, leading_numbers, post_at};
use crate::ledger_finder::LedgerFinder;
use hb_base::Config;
use hb_rules::{Report, is_correct};
use hb_wire::Post;

/// Whether of any two correct nodes' ledgers one begins with the other (CCS 2016, section 4). It is so for each legal history
/// in which no two hashed strings share a digest. It takes no memory.
///
/// It goes through the posts twice. It compares each closed vote of a correct node's desk with one other, and reads the desk's
/// closed vote of the epoch before too. So time is linear in the bytes of the history where all closed votes of an epoch are
/// the same, and each desk closes one epoch after the other, and each once. Where an epoch's closed votes differ, or a desk
/// leaves one out, the ledgers are compared list by list; where besides a desk closes an epoch with two lists, the posts are gone
/// through again for each list.
pub fn comparable(report: &Report) -> bool
    ensures exact { IsTrue result ↔ AreComparable report.now.config report.now.history.items }
    ensures legal { IsLegal report.now.config report.now.history.items → NoCollision report.now.config report.now.history.items → IsTrue result }
{
    let config = &report.config;
    // what this call ensures says that the numbers of the run are sound
    let _sound = config.liars();
    let posts = report.history.as_slice();
    agree_in_order(config, posts) || all_alike(config, posts)
}

// Whether all correct desks close an epoch with the same list, and each desk closes one epoch after the other.
fn agree_in_order(config: &Config, posts: &[Post]) -> bool
    ensures { IsTrue result → AreComparable config.now posts.now }
{
    let table = first_numbers(config, posts, CLOSED);
    let leading = leading_numbers(config, &table);
    all_agree(config, posts, &table, &leading)
}

// Whether each post that closes an epoch agrees with these tables.
fn all_agree(
    config: &Config,
    posts: &[Post],
    table: &[Option<usize>],
    leading: &[Option<usize>],
) -> bool
    ensures { result ≡ list_all (agrees config.now posts.now table.now leading.now) posts.now }
{
    posts
        .iter()
        .all(|post| agrees(config, posts, table, leading, post))
}

// Whether a post, if it closes an epoch, has the bytes to which `leading` leads for the epoch, and the table has that its desk
// closed the epoch before.
fn agrees(
    config: &Config,
    posts: &[Post],
    table: &[Option<usize>],
    leading: &[Option<usize>],
    post: &Post,
) -> bool
    ensures { result ≡ agrees config.now posts.now table.now leading.now post.now }
{
    match closing_of(config, post) {
        None => true,
        Some(closing) => {
            has_bytes(posts, leading, closing.epoch, post.bytes.as_slice())
                && follows(config, posts, table, post.from, closing.epoch)
        }
    }
}

// Whether a table of epochs leads to a post with these bytes.
fn has_bytes(posts: &[Post], leading: &[Option<usize>], epoch: u8, bytes: &[u8]) -> bool
    ensures { result ≡ has_bytes bytes.now (post_at posts.now leading.now epoch) }
{
    match post_at(posts, leading, epoch as usize) {
        None => false,
        Some(first) => bytes == first.bytes.as_slice(),
    }
}

// Whether an epoch is the first, or the table has that the desk of a node closed the epoch before.
fn follows(config: &Config, posts: &[Post], table: &[Option<usize>], node: u8, epoch: u8) -> bool
    ensures { result ≡ ((epoch == 0) || has_closed config.now posts.now table.now node (epoch - 1)) }
{
    epoch == 0 || has_closed(config, posts, table, node, epoch - 1)
}

// Whether any two correct nodes' ledgers are alike as far as both go.
fn all_alike(config: &Config, posts: &[Post]) -> bool
    ensures { result ≡ all_alike config.now posts.now }
{
    let ledgers = LedgerFinder::new(config, posts);
    (0..config.n()).all(|node| alike_to_all(&ledgers, node))
}

// Whether a node's ledger is alike with that of each other, if these are correct.
fn alike_to_all(ledgers: &LedgerFinder, node: u8) -> bool
    ensures { result ≡ list_all (may_compare ledgers.now.config ledgers.now.posts node) (range_with_len 0 ledgers.now.config.n) }
{
    (0..ledgers.config().n()).all(|other| may_compare(ledgers, node, other))
}

// Whether two nodes' ledgers are alike, if the two are correct.
fn may_compare(ledgers: &LedgerFinder, node: u8, other: u8) -> bool
    ensures { result ≡ may_compare ledgers.now.config ledgers.now.posts node other }
{
    let config = ledgers.config();
    !is_correct(config, node) || !is_correct(config, other) || are_alike(ledgers, node, other)
}

// Whether two nodes' ledgers are alike as far as both go.
fn are_alike(ledgers: &LedgerFinder, node: u8, other: u8) -> bool
    ensures { result ≡ are_alike (ledger ledgers.now.config ledgers.now.posts node) (ledger ledgers.now.config ledgers.now.posts other) }
{
    let count = ledgers.count(node);
    (0..count).all(|place| same_at(ledgers, node, other, place))
}

// Whether two nodes' ledgers have the same list at a place, if both have one there.
fn same_at(ledgers: &LedgerFinder, node: u8, other: u8, place: usize) -> bool
    ensures { result ≡ same_at (ledger ledgers.now.config ledgers.now.posts node) (ledger ledgers.now.config ledgers.now.posts other) place }
{
    match (ledgers.at(node, place), ledgers.at(other, place)) {
        (Some(closing), Some(another)) => closing.rest == another.rest,
        _ => true,
    }
}
