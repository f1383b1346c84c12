//! The lists of ledgers, found one by one with the help of a table of first closings.

ghost use Rattle.std.specs.Prelude.{◌≡◌, length, true, false, slice_get, None, IfSome, IfNone};
ghost use Rattle.std.specs.List.{list_all};
ghost use Rattle.hb_rules.specs.Lanes.{is_correct};
ghost use Rattle.hb_rules.specs.Ledger.{ledger};
ghost use Rattle.acs_world.specs.Firsts.{has_closed, repeats};
ghost use Rattle.acs_world.specs.Closures.{closures, IsClosureAt, IsTabledRest};
ghost use Rattle.acs_world.specs.Lists.{lists_of, Searched};

use crate::closings::{CLOSED, Closing, closing_of};
use crate::common::{all_repeat, count_at};
use crate::firsts::{PLACES, first_numbers, place_of, post_at};
use crate::lists::{Search, closed_count, list_in};
use hb_base::Config;
use hb_base::limits::MOST_EPOCHS;
use hb_rules::is_correct;
use hb_wire::Post;
use std::marker::Model;

/// What finds the lists of ledgers among the posts of a run. It takes no memory. Clauses see the posts.
///
/// Where each closed vote of a correct node's desk is as the desk's first one for the epoch, a table leads to the list of a
/// correct node. Where one is not, and for a liar, the posts are gone through for each epoch, and each that closes it is
/// compared with those before.
#[derive(Drop)]
pub struct LedgerFinder<'a> {
    config: Config,
    posts: &'a [Post],
    table: [Option<usize>; PLACES],
    are_repeated: bool,
}

impl<'a> Model for LedgerFinder<'a> {
    ghost use Rattle.std.specs.Prelude.{◌≡◌};
    ghost use Rattle.std.specs.List.{list_all};
    ghost use Rattle.acs_world.specs.Firsts.{repeats};
    ghost use Rattle.acs_world.specs.Closures.{FinderView};

    ghost Value = { FinderView };

    ghost view = { λ l. record { config = l.config; posts = l.posts.now } };

    ghost invariant = { λ l. l.are_repeated ≡ list_all (repeats l.config l.posts.now l.table) l.posts.now };
}

impl<'a> LedgerFinder<'a> {
    /// Those of these posts. It goes through the posts twice.
    pub fn new(config: &Config, posts: &'a [Post]) -> LedgerFinder<'a>
        ensures { result ≡ record { config = config.now; posts = posts.now } }
    {
        let table = first_numbers(config, posts, CLOSED);
        let are_repeated = all_repeat(config, posts, &table);
        LedgerFinder {
            config: *config,
            posts,
            table,
            are_repeated,
        }
    }

    /// The numbers of the run.
    pub fn config(&self) -> &Config
        ensures { result.now ≡ self.now.config }
    {
        &self.config
    }

    /// How many lists the ledger of a node has.
    pub fn count(&self, node: u8) -> usize
        ensures { result ≡ length (ledger self.now.config self.now.posts node) }
    {
        if is_correct(&self.config, node) {
            count_at(
                &self.config,
                self.posts,
                &self.table,
                self.are_repeated,
                node,
            )
        } else {
            closed_count(&self.config, self.posts, node)
        }
    }

    /// The list at this place of the ledger of a node, with its epoch, if the ledger has so many.
    pub fn at(&self, node: u8, place: usize) -> Option<Closing<'a>>
        ensures none { IfNone result (slice_get (closures self.now.config self.now.posts node) place ≡ None) }
        ensures missing { IfNone result (slice_get (ledger self.now.config self.now.posts node) place ≡ None) }
        ensures some { IfSome result (λ g. IsClosureAt (closures self.now.config self.now.posts node) place g.epoch g.rest.now) }
    {
        let mut left = place;
        for epoch in 0..MOST_EPOCHS {
            match self.search(node, epoch, left) {
                Search::Found(rest) => return Some(Closing { epoch, rest }),
                Search::Fewer(count) => left -= count,
            }
        }
        None
    }

    // Looks for the list at a place among those with which the desk of a node closes an epoch.
    fn search(&self, node: u8, epoch: u8, place: usize) -> Search<'a>
        ensures { Searched (lists_of self.now.config node epoch self.now.posts) place result }
    {
        if self.are_repeated && is_correct(&self.config, node) {
            tabled_list(&self.config, self.posts, &self.table, node, epoch, place)
        } else {
            list_in(&self.config, self.posts, node, epoch, place)
        }
    }
}

// Looks for the list at a place among those with which the desk of a correct node closes an epoch: the one to which the table
// leads, or none.
fn tabled_list<'a>(
    config: &Config,
    posts: &'a [Post],
    table: &[Option<usize>],
    node: u8,
    epoch: u8,
    place: usize,
) -> Search<'a>
    requires repeated { list_all (repeats config.now posts.now table.now) posts.now ≡ true }
    requires correct { is_correct config.now node ≡ true }
    ensures { Searched (lists_of config.now node epoch posts.now) place result }
{
    match tabled_rest(config, posts, table, node, epoch) {
        None => Search::Fewer(0),
        Some(rest) => {
            if place == 0 {
                Search::Found(rest)
            } else {
                Search::Fewer(1)
            }
        }
    }
}

// What stands behind kind and epoch in the vote to which the table leads for the desk of a correct node and an epoch, if it
// closes the epoch.
fn tabled_rest<'a>(
    config: &Config,
    posts: &'a [Post],
    table: &[Option<usize>],
    node: u8,
    epoch: u8,
) -> Option<&'a [u8]>
    ensures none { IfNone result (has_closed config.now posts.now table.now node epoch ≡ false) }
    ensures some { IfSome result (λ rest. IsTabledRest config.now posts.now table.now node epoch rest.now) }
{
    let post = post_at(posts, table, place_of(node, epoch))?;
    let closing = closing_of(config, post)?;
    if post.from != node || closing.epoch != epoch {
        return None;
    }
    Some(closing.rest)
}
