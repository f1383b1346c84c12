//! Which post claims something for each lane and epoch.

ghost use Rattle.std.specs.Prelude.{◌≡◌, ℕ, ◌+◌, ◌<◌, length, take, replicate, None, false, IfSome, IfNone, IsTrue};
ghost use Rattle.rbc_world.specs.Claimed.{entry, AreOne, AreEntries};

use crate::claims::{Kind, PLACES, claim_of, has_body};
use hb_base::Config;
use hb_wire::Post;

/// For each place the number of a post with a claim of this kind, if there is one. None where two posts claim different
/// things for one place.
pub(crate) fn first_claims(
    config: &Config,
    kind: Kind,
    posts: &[Post],
) -> Option<[Option<usize>; PLACES]>
    ensures agree { IfSome result (λ table. AreEntries config.now kind posts.now posts.now table) }
    ensures differ { IfNone result (¬ AreOne config.now kind posts.now) }
{
    let mut table = no_entries();
    for number in 0..posts.len() {
        if !take_claim(config, kind, posts, number, &mut table) {
            return None;
        }
    }
    Some(table)
}

// Takes in the claim of one more post: it is the first for its place, or claims what the first one does.
fn take_claim(
    config: &Config,
    kind: Kind,
    posts: &[Post],
    number: usize,
    table: &mut [Option<usize>],
) -> bool
    requires inside { number < length posts.now }
    requires sound { AreEntries config.now kind posts.now (take number posts.now) table.old }
    ensures agrees { IsTrue result → AreEntries config.now kind posts.now (take (number + 1) posts.now) table.new }
    ensures differs { result ≡ false → ¬ AreOne config.now kind posts.now }
{
    let Some(claim) = claim_of(config, kind, &posts[number]) else {
        return true;
    };
    match entry_at(table, claim.place) {
        None => {
            table[claim.place] = Some(number);
            true
        }
        Some(first) => has_body(config, kind, &posts[first], claim.body),
    }
}

// A table with no number.
fn no_entries() -> [Option<usize>; PLACES]
    ensures { result ≡ replicate 512 None }
{
    [None; PLACES]
}

/// The number in a table at a place.
pub(crate) fn entry_at(table: &[Option<usize>], place: usize) -> Option<usize>
    requires { place < length table.now }
    ensures { result ≡ entry table.now place }
{
    table[place]
}
