//! Which lanes have spent their rounds: in some epoch they have picked in the last round, and decided nothing.

ghost use Rattle.std.specs.Prelude.{◌≡◌, ◌<◌, length, replicate, false, IfSome};
ghost use Rattle.hb_wire.specs.Views.{vote_of};
ghost use Rattle.run_status.specs.Spent.{number_of, number_in, mark_of, entry, is_stuck_in, is_stuck_by, AreMarked, AreMarkedBy};

use hb_base::Config;
use hb_base::limits::{MOST_EPOCHS, MOST_NODES};
use hb_wire::{Post, VoteView, view};

// How many places all lanes and epochs have, one for each node, lane and epoch.
const PLACES: usize = MOST_NODES as usize * MOST_NODES as usize * MOST_EPOCHS as usize;

/// How many numbers there are, one for each place and mark.
pub(crate) const NUMBERS: usize = 2 * PLACES;

// What a lane has done in an epoch: it has picked in the last round, or it has decided.
#[derive(Clone, Copy, Debug, PartialEq, Eq)]
enum Mark {
    LastPick,
    Decision,
}

/// Which numbers these posts mark.
pub(crate) fn marked(config: &Config, posts: &[Post]) -> [bool; NUMBERS]
    ensures { AreMarked config.now posts.now result }
{
    let mut table = no_marks();
    for post in posts {
        take_mark(config, post, &mut table);
    }
    table
}

// A table in which no number stands out.
fn no_marks() -> [bool; NUMBERS]
    ensures { result ≡ replicate 16384 false }
{
    [false; NUMBERS]
}

// Marks the number of one more post, if it has one.
fn take_mark(config: &Config, post: &Post, table: &mut [bool])
    requires { length table.old ≡ 16384 }
    ensures { AreMarkedBy config.now post.now table.old table.new }
{
    if let Some(number) = mark_of(config, post) {
        table[number] = true;
    }
}

// The number that a post marks, if it is of a lane and picks in the last round or decides.
fn mark_of(config: &Config, post: &Post) -> Option<usize>
    ensures exact { result ≡ mark_of config.now post.now }
    ensures inside { IfSome result (λ number. number < 16384) }
{
    if post.from >= MOST_NODES || post.actor >= MOST_NODES {
        return None;
    }
    let vote = view(config.n(), config.version(), post.bytes.as_slice())?;
    number_in(config, post.from, post.actor, &vote)
}

// The number that a vote of a lane marks.
fn number_in(config: &Config, node: u8, lane: u8, vote: &VoteView<'_>) -> Option<usize>
    ensures { result ≡ number_in config.now node lane (vote_of vote.now) }
{
    match vote {
        VoteView::Pick { epoch, round, .. } => {
            if *round == config.rounds() - 1 {
                Some(number_of(Mark::LastPick, node, lane, *epoch))
            } else {
                None
            }
        }
        VoteView::Decided { epoch, .. } => Some(number_of(Mark::Decision, node, lane, *epoch)),
        _ => None,
    }
}

// The number of a mark of a lane in an epoch: first those of last picks, then those of decisions.
fn number_of(mark: Mark, node: u8, lane: u8, epoch: u8) -> usize
    ensures { result ≡ number_of mark node lane epoch }
{
    let nodes = MOST_NODES as usize;
    let place = (node as usize * nodes + lane as usize) * MOST_EPOCHS as usize + epoch as usize;
    match mark {
        Mark::LastPick => place,
        Mark::Decision => PLACES + place,
    }
}

/// Whether by a table a lane has picked in the last round of an epoch in which it has decided nothing.
#[tactic(auto, unfolding(crate::specs::Spent::is_stuck_by))]
pub(crate) fn is_stuck(table: &[bool], node: u8, lane: u8) -> bool
    ensures { result ≡ is_stuck_by table.now node lane }
{
    (0..MOST_EPOCHS).any(|epoch| is_stuck_in(table, node, lane, epoch))
}

// Whether it is so in one epoch.
fn is_stuck_in(table: &[bool], node: u8, lane: u8, epoch: u8) -> bool
    ensures { result ≡ is_stuck_in table.now node lane epoch }
{
    has(table, Mark::LastPick, node, lane, epoch) && !has(table, Mark::Decision, node, lane, epoch)
}

// Whether a mark stands in the table.
fn has(table: &[bool], mark: Mark, node: u8, lane: u8, epoch: u8) -> bool
    ensures { result ≡ entry table.now (number_of mark node lane epoch) }
{
    let number = number_of(mark, node, lane, epoch);
    number < table.len() && table[number]
}
