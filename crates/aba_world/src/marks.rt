//! Tables of what lanes of correct nodes have said of the agreements.

ghost use Rattle.std.specs.Prelude.{◌≡◌, ℕ, ◌+◌, ◌<◌, ◌↔◌, length, replicate, false, IfSome, IsTrue};
ghost use Rattle.hb_wire.specs.Views.{vote_of};
ghost use Rattle.aba_world.specs.Marked.{number_of, number_in, mark_of, entry, AreMarked, AreMarkedBy, agrees_at, AllAgree};

use hb_base::Config;
use hb_base::limits::{MOST_EPOCHS, MOST_NODES};
use hb_rules::posting_lane;
use hb_wire::{Post, VoteView, view};

// How many epochs each lane has.
const EPOCHS: usize = MOST_EPOCHS as usize;

// How many places all lanes and epochs have, one for each lane and epoch.
const PLACES: usize = MOST_NODES as usize * EPOCHS;

/// How many numbers there are, one for each place and bit.
pub(crate) const NUMBERS: usize = 2 * PLACES;

/// Of what a table is made: of the bits with which lanes begin, which are their estimates of round 0, or of those that they
/// decide.
#[derive(Clone, Copy, Debug, PartialEq, Eq)]
pub(crate) enum Kind {
    Beginning,
    Decision,
}

/// Which numbers posts of lanes of correct nodes mark.
pub(crate) fn marked(config: &Config, kind: Kind, posts: &[Post]) -> [bool; NUMBERS]
    ensures { AreMarked config.now kind posts.now result }
{
    let mut table = no_marks();
    for post in posts {
        mark(config, kind, post, &mut table);
    }
    table
}

// A table in which no number stands out.
fn no_marks() -> [bool; NUMBERS]
    ensures { result ≡ replicate 1024 false }
{
    [false; NUMBERS]
}

// Marks the number of one more post, if it has one.
fn mark(config: &Config, kind: Kind, post: &Post, table: &mut [bool])
    requires { length table.old ≡ 1024 }
    ensures { AreMarkedBy config.now kind post.now table.old table.new }
{
    match mark_of(config, kind, post) {
        None => {}
        Some(number) => table[number] = true,
    }
}

// The number that a post marks, if it is of a lane of a correct node and a vote of this kind.
fn mark_of(config: &Config, kind: Kind, post: &Post) -> Option<usize>
    ensures exact { result ≡ mark_of config.now kind post.now }
    ensures inside { IfSome result (λ number. number < 1024) }
{
    let lane = posting_lane(config, post)?;
    let vote = view(config.n(), config.version(), post.bytes.as_slice())?;
    number_in(kind, lane, &vote)
}

// The number that a vote of a lane marks.
fn number_in(kind: Kind, lane: u8, vote: &VoteView<'_>) -> Option<usize>
    ensures { result ≡ number_in kind lane (vote_of vote.now) }
{
    match (kind, vote) {
        (
            Kind::Beginning,
            VoteView::Est {
                epoch,
                round: 0,
                bit,
            },
        ) => Some(number_of(lane, *epoch, *bit)),
        (Kind::Decision, VoteView::Decided { epoch, bit }) => Some(number_of(lane, *epoch, *bit)),
        _ => None,
    }
}

// The number of a lane, an epoch and a bit: first those of bit 0, then those of bit 1.
fn number_of(lane: u8, epoch: u8, bit: bool) -> usize
    ensures { result ≡ number_of lane epoch bit }
{
    let place = lane as usize * EPOCHS + epoch as usize;
    if bit { PLACES + place } else { place }
}

/// Whether at each place not both bits are decided, and each one that is was begun with.
pub(crate) fn all_agree(begun: &[bool], decided: &[bool]) -> bool
    requires begun { length begun.now ≡ 1024 }
    requires decided { length decided.now ≡ 1024 }
    ensures { IsTrue result ↔ AllAgree begun.now decided.now }
{
    for place in 0..PLACES {
        if !agree_at(begun, decided, place) {
            return false;
        }
    }
    true
}

// Whether it is so at one place.
fn agree_at(begun: &[bool], decided: &[bool], place: usize) -> bool
    requires begun { length begun.now ≡ 1024 }
    requires decided { length decided.now ≡ 1024 }
    requires inside { place < 512 }
    ensures { result ≡ agrees_at begun.now decided.now place }
{
    let zero = decided[place];
    let one = decided[PLACES + place];
    !(zero && one) && ((begun[place] || !zero) && (begun[PLACES + place] || !one))
}
