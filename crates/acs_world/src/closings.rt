//! With which lists desks close epochs.

ghost use Rattle.std.specs.Prelude.{◌≡◌, ℕ, List, length, Some, None, IfSome, IfNone};
ghost use Rattle.std.specs.Option.{option_and_then};
ghost use Rattle.hb_wire.specs.declared.items.Item.{Item};
ghost use Rattle.hb_wire.specs.Glances.{IsClosedRest};
ghost use Rattle.hb_wire.specs.Reading.{vote_at};
ghost use Rattle.hb_rules.specs.Hearing.{vote_by};
ghost use Rattle.acs_world.specs.Closed.{Closure, closing, closing_by, IsShown};

use hb_base::Config;
use hb_rules::is_correct;
use hb_wire::{Post, glance};

/// The first byte of a closed vote.
pub(crate) const CLOSED: u8 = 0x12;

/// An epoch that was closed, and what its vote has behind kind and epoch: the list.
#[derive(Clone, Copy, Debug)]
pub struct Closing<'a> {
    pub epoch: u8,
    pub rest: &'a [u8],
}

/// What a post closes, if it is of a correct node's desk and its vote closes an epoch.
pub(crate) fn closing_of<'a>(config: &Config, post: &'a Post) -> Option<Closing<'a>>
    ensures none { IfNone result (closing_by config.now post.now ≡ None) }
    ensures some { IfSome result (λ g. (closure : Closure) × (closing_by config.now post.now ≡ Some closure) × IsShown closure g.epoch g.rest.now) }
{
    if !is_correct(config, post.from) || post.actor != config.n() {
        return None;
    }
    closing_in(config, post.bytes.as_slice())
}

/// What a post closes, if it is of the desk of this node, which may lie, and its vote closes an epoch.
pub(crate) fn closing_at<'a>(config: &Config, node: u8, post: &'a Post) -> Option<Closing<'a>>
    ensures none { IfNone result (option_and_then closing (vote_by config.now node config.now.n post.now) ≡ None) }
    ensures some { IfSome result (λ g. (closure : Closure) × (option_and_then closing (vote_by config.now node config.now.n post.now) ≡ Some closure)
        × IsShown closure g.epoch g.rest.now) }
{
    if post.from != node || post.actor != config.n() {
        return None;
    }
    closing_in(config, post.bytes.as_slice())
}

// What the vote closes that these bytes spell, if they spell one that closes an epoch.
fn closing_in<'a>(config: &Config, bytes: &'a [u8]) -> Option<Closing<'a>>
    ensures none { IfNone result (option_and_then closing (vote_at config.now.n config.now.version bytes.now) ≡ None) }
    ensures some { IfSome result (λ g. (closure : Closure) × (option_and_then closing (vote_at config.now.n config.now.version bytes.now) ≡ Some closure)
        × IsShown closure g.epoch g.rest.now) }
{
    let glance = glance(config.n(), config.version(), bytes)?;
    if glance.kind != CLOSED {
        return None;
    }
    Some(Closing {
        epoch: glance.epoch,
        rest: glance.rest,
    })
}

/// How many items a closed list has, by what its vote has behind kind and epoch.
pub fn count_of(rest: &[u8]) -> u8
    requires { (items : List Item) × IsClosedRest rest.now items }
    ensures { (items : List Item) → IsClosedRest rest.now items → result ≡ length items }
{
    rest[0]
}
