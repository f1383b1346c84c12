//! Posts of lanes of correct nodes.
ghost use Rattle.std.specs.Prelude.{◌≡◌, ◌<◌, IfSome};
ghost use Rattle.hb_rules.specs.Lanes.{is_correct, posting_lane};

use hb_base::Config;
use hb_wire::Post;

/// Whether a node is of the run and no liar.
pub fn is_correct(config: &Config, node: u8) -> bool
    ensures { result ≡ is_correct config.now node }
{
    node < config.n() && !config.liars().has(node)
}

/// The lane that has posted a post, if its node is correct. A lane is a number below n.
pub fn posting_lane(config: &Config, post: &Post) -> Option<u8>
    ensures exact { result ≡ posting_lane config.now post.now }
    ensures inside { IfSome result (λ lane. lane < 16) }
{
    if is_correct(config, post.from) && post.actor < config.n() {
        Some(post.actor)
    } else {
        None
    }
}
