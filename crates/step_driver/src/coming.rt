//! What comes to whom.

ghost use Rattle.std.specs.Prelude.{◌≡◌, ◌+◌, length};
ghost use Rattle.std.specs.List.{list_any, range_with_len};
ghost use Rattle.hb_wire.specs.Addresses.{reaches};
ghost use Rattle.hb_rules.specs.Report.{comes_to, is_drop};
ghost use Rattle.step_driver.specs.Playing.{comes_found};

use hb_base::Config;
use hb_rules::PlainBook;
use hb_wire::{Post, reaches};
use net_script::{Script, Shape, shape};

/// Whether post k comes to this actor of this node: it reaches the actor, and is not dropped on its way.
pub fn comes_to(config: &Config, script: &Script, post: &Post, node: u8, actor: u8, k: u32) -> bool
    ensures { result ≡ comes_to config.now script.now post.now node actor k }
{
    reaches(config.n(), post, node, actor) && !is_drop(shape(script, post.from, node, k))
}

/// Whether a post that was looked for stands, reaches this actor of this node, and is not dropped on its way.
pub fn comes_found(
    config: &Config,
    script: &Script,
    found: &Option<Post>,
    node: u8,
    actor: u8,
    k: u32,
) -> bool
    ensures { result ≡ comes_found config.now script.now found.now node actor k }
{
    match found {
        Some(post) => comes_to(config, script, post, node, actor, k),
        None => false,
    }
}

/// Whether a post reaches some actor of this node.
pub fn reaches_node(config: &Config, post: &Post, node: u8) -> bool
    ensures { result ≡ list_any (reaches config.now.n post.now node) (range_with_len 0 (config.now.n + 1)) }
{
    let n = config.n();
    (0..n + 1).any(|actor| reaches(n, post, node, actor))
}

// How many posts stand.
pub(crate) fn count_posts(book: &PlainBook) -> u32
    ensures { result ≡ length book.now.posts }
{
    book.history().len() as u32
}

// Whether posts of this shape are not delivered.
pub(crate) fn is_drop(shape: Shape) -> bool
    ensures { result ≡ is_drop shape }
{
    match shape {
        Shape::Drop => true,
        Shape::Once | Shape::Twice | Shape::Late => false,
    }
}
