//! What posts of correct nodes claim of the broadcasts.

ghost use Rattle.std.specs.Prelude.{◌≡◌, ℕ, ◌*◌, ◌+◌, ◌/◌, ◌<◌, ◌↔◌, IfSome, IsTrue, Some};
ghost use Rattle.std.specs.Option.{option_map};
ghost use Rattle.hb_base.specs.Limits.{most_epochs};
ghost use Rattle.rbc_world.specs.Claimed.{code_of, lane_of, claim_of, shown, place_of};

use hb_base::Config;
use hb_base::limits::{MOST_EPOCHS, MOST_NODES};
use hb_rules::{is_correct, posting_lane};
use hb_wire::{Post, glance};

// How many epochs each lane has.
const EPOCHS: usize = MOST_EPOCHS as usize;

/// How many places all lanes and epochs have, one for each lane and epoch.
pub(crate) const PLACES: usize = MOST_NODES as usize * EPOCHS;

/// A kind of vote of the broadcast, with the first byte of its spelling.
#[derive(Clone, Copy, Debug, PartialEq, Eq)]
pub(crate) enum Kind {
    Ready = 0x03,
    Delivered = 0x04,
    Propose = 0x10,
}

impl Kind {
    /// The first byte of the votes of this kind.
    fn code(self) -> u8
        ensures { result ≡ code_of self }
    {
        self as u8
    }
}

/// The place of the lane and epoch that a post speaks of, and what its vote has behind kind and epoch: the root or the
/// value.
#[derive(Clone, Copy, Debug)]
pub(crate) struct Claim<'a> {
    pub(crate) place: usize,
    pub(crate) body: &'a [u8],
}

// The lane in whose broadcasts a post of a correct node has its part.
fn lane_of(config: &Config, kind: Kind, post: &Post) -> Option<u8>
    ensures exact { result ≡ lane_of config.now kind post.now }
    ensures inside { IfSome result (λ lane. lane < 16) }
{
    match kind {
        Kind::Ready | Kind::Delivered => posting_lane(config, post),
        Kind::Propose if is_correct(config, post.from) && post.actor == config.n() => {
            Some(post.from)
        }
        Kind::Propose => None,
    }
}

/// What a post claims, if its node is correct and its vote of this kind.
pub(crate) fn claim_of<'a>(config: &Config, kind: Kind, post: &'a Post) -> Option<Claim<'a>>
    ensures exact { option_map shown result ≡ claim_of config.now kind post.now }
    ensures inside { IfSome result (λ claim. claim.place < 512) }
{
    let lane = lane_of(config, kind, post)?;
    let glance = glance(config.n(), config.version(), post.bytes.as_slice())?;
    if glance.kind != kind.code() {
        return None;
    }
    Some(Claim {
        place: lane as usize * EPOCHS + glance.epoch as usize,
        body: glance.rest,
    })
}

/// Whether a post claims this body, for some place.
pub(crate) fn has_body(config: &Config, kind: Kind, post: &Post, body: &[u8]) -> bool
    ensures { IsTrue result ↔ (option_map (λ claim. claim.1) (claim_of config.now kind post.now) ≡ Some body.now) }
{
    match claim_of(config, kind, post) {
        Some(claim) => claim.body == body,
        None => false,
    }
}

/// The lane of a place.
pub(crate) fn lane_at(place: usize) -> u8
    requires { place < 512 }
    ensures { result ≡ place / most_epochs }
{
    (place / EPOCHS) as u8
}
