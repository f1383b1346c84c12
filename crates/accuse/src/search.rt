//! The first two posts of a node that contradict each other.
ghost use Rattle.std.specs.Prelude.{◌≡◌, ◌+◌, ◌<◌, ◌^◌, length, None, IfOk, OnOk, IfSome};
ghost use Rattle.std.specs.Option.{option_or, option_and_then};
ghost use Rattle.hb_rules.specs.Slots.{when};
ghost use Rattle.accuse.specs.declared.place.Place.{Place};
ghost use Rattle.accuse.specs.Accused.{said, first_against, first_contradiction, accusation};
ghost use Rattle.accuse.specs.Places.{first_at, is_place, told, AreFirsts};

use crate::accusation::Accusation;
use crate::firsts::Firsts;
use crate::place::Place;
use crate::placing::{place_of, root_place};
use crate::saying::{contradict, vote_by};
use hb_base::Config;
use hb_wire::Post;
use std::alloc::{AllocError, Global};

// The first post at a place, if it contradicts this one.
fn told_at(
    config: &Config,
    node: u8,
    posts: &[Post],
    firsts: &Firsts,
    place: Option<Place>,
    post: &Post,
) -> Option<u32>
    requires { IfSome (option_and_then (first_at firsts.now) place) (λ p. p < length posts.now) }
    ensures { result ≡ option_and_then (told config.now node posts.now (said config.now node post.now)) (option_and_then (first_at firsts.now) place) }
{
    let first = firsts.first(place?)?;
    if contradict(config, node, &posts[first as usize], post) {
        Some(first)
    } else {
        None
    }
}

// The first of the two at two places that contradicts this post.
fn first_told(
    config: &Config,
    node: u8,
    posts: &[Post],
    firsts: &Firsts,
    root: Option<Place>,
    place: Option<Place>,
    post: &Post,
) -> Option<u32>
    requires root { IfSome (option_and_then (first_at firsts.now) root) (λ p. p < length posts.now) }
    requires place { IfSome (option_and_then (first_at firsts.now) place) (λ p. p < length posts.now) }
    ensures { result ≡ option_or
        (option_and_then (told config.now node posts.now (said config.now node post.now)) (option_and_then (first_at firsts.now) root))
        (option_and_then (told config.now node posts.now (said config.now node post.now)) (option_and_then (first_at firsts.now) place)) }
{
    match told_at(config, node, posts, firsts, root, post) {
        Some(first) => Some(first),
        None => told_at(config, node, posts, firsts, place, post),
    }
}

// Notes a post at a place, if there is one.
fn note_at(firsts: &mut Firsts, place: Option<Place>, post: u32) -> Result<(), AllocError>
    ensures { OnOk result ((wanted : Place) → first_at firsts.new wanted ≡ option_or (first_at firsts.old wanted) (when (is_place wanted place) post)) }
{
    match place {
        Some(place) => firsts.note(place, post),
        None => Ok(()),
    }
}

// Takes in one more post, where none before it contradicts an earlier one: gives the first that it contradicts, and if there is
// none, notes its places.
fn take(
    config: &Config,
    node: u8,
    posts: &[Post],
    number: u32,
    firsts: &mut Firsts,
) -> Result<Option<u32>, AllocError>
    requires inside { number < length posts.now }
    requires sound { AreFirsts config.now node posts.now number firsts.old }
    requires quiet { first_contradiction config.now node posts.now number ≡ None }
    ensures found { IfOk result (λ first. first ≡ first_against config.now node posts.now number) }
    ensures sound { IfOk result (λ first. first ≡ None → AreFirsts config.now node posts.now (number + 1) firsts.new) }
{
    let post = &posts[number as usize];
    let Some(vote) = vote_by(config, node, post) else {
        return Ok(None);
    };
    let root = root_place(post.actor, &vote);
    let place = place_of(post.actor, &vote);
    match first_told(config, node, posts, firsts, root, place, post) {
        Some(first) => Ok(Some(first)),
        None => {
            note_at(firsts, root, number)?;
            note_at(firsts, place, number)?;
            Ok(None)
        }
    }
}

// The first post of a node that contradicts an earlier one, with the first that it contradicts.
pub(crate) fn accusation_of(
    alloc: Global,
    config: &Config,
    node: u8,
    posts: &[Post],
) -> Result<Option<Accusation>, AllocError>
    requires { length posts.now < 2 ^ 32 }
    ensures { IfOk result (λ found. found ≡ accusation config.now posts.now node) }
{
    let mut firsts = Firsts::new(alloc);
    for number in 0..posts.len() as u32 {
        match take(config, node, posts, number, &mut firsts)? {
            Some(first) => {
                return Ok(Some(Accusation {
                    node,
                    first,
                    second: number,
                }));
            }
            None => {}
        }
    }
    Ok(None)
}
