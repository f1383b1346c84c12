//! Envelopes for posts.

ghost use Rattle.std.specs.Prelude.{◌≡◌, ◌<◌, ◌≤◌, length, OnOk};
ghost use Rattle.hb_base.specs.Limits.{most_posts};
ghost use Rattle.step_driver.specs.Places.{spots, spot_of, names};
ghost use Rattle.step_driver.specs.Directory.{IsDirectory};
ghost use Rattle.step_driver.specs.Delivering.{most_places, AreSent, AreResent, IsSent, IsSentTo, AreResentTo, IsResentTo};

use crate::coming::comes_to;
use crate::directory::Directory;
use crate::envelope::Envelope;
use crate::hired::Mouth;
use crate::line::Line;
use crate::place::Place;
use hb_base::Config;
use hb_rules::{Actor, PlainBook};
use hb_wire::Post;
use net_script::{Script, Shape, shape};
use std::alloc::AllocError;

// Adds the envelopes of the posts from number `first` on, by shape, for each place that they reach.
pub(crate) fn send<A: Actor<PlainBook>, L: Mouth>(
    script: &Script,
    config: &Config,
    posts: &[Post],
    places: &[Place<A, L>],
    directory: &Directory,
    line: &mut Line,
    first: u32,
) -> Result<(), AllocError>
    requires first { first ≤ length posts.now }
    requires posts { length posts.now ≤ most_posts }
    requires few { length (spots A.seat A.view places.now) ≤ most_places }
    requires listed { IsDirectory config.now.n directory.now (names (spots A.seat A.view places.now)) }
    ensures { OnOk result (AreSent config.now script.now posts.now (spots A.seat A.view places.now) first line.old line.new) }
{
    for k in first..posts.len() as u32 {
        let post = &posts[k as usize];
        send_post(script, config, post, k, places, directory, line)?;
    }
    Ok(())
}

// Adds the envelopes of one post, by shape, for each place that it reaches. It looks only at the places to which the address of
// the post leads: at none for Book, at those of one node for Home and Node, at most n + 1, and at one of each node for All.
fn send_post<A: Actor<PlainBook>, L: Mouth>(
    script: &Script,
    config: &Config,
    post: &Post,
    k: u32,
    places: &[Place<A, L>],
    directory: &Directory,
    line: &mut Line,
) -> Result<(), AllocError>
    requires listed { IsDirectory config.now.n directory.now (names (spots A.seat A.view places.now)) }
    ensures { OnOk result (IsSent config.now script.now post.now k (spots A.seat A.view places.now) (length (spots A.seat A.view places.now)) line.old line.new) }
{
    for number in directory.led_to(post) {
        let place = &places[*number];
        send_to(script, config, post, k, place, *number, line)?;
    }
    Ok(())
}

// Adds the envelope of one post for one place, by shape, if the post reaches it.
fn send_to<A: Actor<PlainBook>, L: Mouth>(
    script: &Script,
    config: &Config,
    post: &Post,
    k: u32,
    place: &Place<A, L>,
    number: usize,
    line: &mut Line,
) -> Result<(), AllocError>
    ensures { OnOk result (IsSentTo config.now script.now post.now k number (spot_of A.seat A.view place.now) line.old line.new) }
{
    if !place.is_reached(config, post) {
        return Ok(());
    }
    let shape = shape(script, post.from, place.node(), k);
    let envelope = Envelope {
        post: k,
        place: number,
    };
    line.add(shape, envelope)
}

// Adds one envelope for each post below a number that comes to the actor at a place.
pub(crate) fn send_again<A: Actor<PlainBook>, L: Mouth>(
    script: &Script,
    config: &Config,
    posts: &[Post],
    places: &[Place<A, L>],
    line: &mut Line,
    number: usize,
    stood: u32,
) -> Result<(), AllocError>
    requires stood { stood ≤ length posts.now }
    requires number { number < length (spots A.seat A.view places.now) }
    ensures { OnOk result (AreResent config.now script.now posts.now (spots A.seat A.view places.now) number stood line.old line.new) }
{
    let place = &places[number];
    match place {
        Place::Correct(player) => {
            let node = player.node();
            let actor = player.actor();
            let to = Address {
                node,
                actor,
                place: number,
            };
            resend(script, config, posts, line, to, stood)
        }
        Place::Lying(_) => Ok(()),
    }
}

// An actor of a node, and the index of its place.
#[derive(Clone, Copy)]
struct Address {
    node: u8,
    actor: u8,
    place: usize,
}

// Adds one envelope for each post below a number that comes to an actor.
fn resend(
    script: &Script,
    config: &Config,
    posts: &[Post],
    line: &mut Line,
    to: Address,
    stood: u32,
) -> Result<(), AllocError>
    requires stood { stood ≤ length posts.now }
    ensures { OnOk result (AreResentTo config.now script.now posts.now to.place to.node to.actor stood line.old line.new) }
{
    for k in 0..stood {
        let post = &posts[k as usize];
        resend_to(script, config, post, k, line, to)?;
    }
    Ok(())
}

// Adds one envelope for one post, if it comes to an actor.
fn resend_to(
    script: &Script,
    config: &Config,
    post: &Post,
    k: u32,
    line: &mut Line,
    to: Address,
) -> Result<(), AllocError>
    ensures { OnOk result (IsResentTo config.now script.now post.now k to.place to.node to.actor line.old line.new) }
{
    if !comes_to(config, script, post, to.node, to.actor, k) {
        return Ok(());
    }
    let envelope = Envelope {
        post: k,
        place: to.place,
    };
    line.add(Shape::Once, envelope)
}
