//! Whether closed lists have batches enough.

ghost use Rattle.std.specs.Prelude.{◌≡◌, ◌↔◌, IsTrue};
ghost use Rattle.std.specs.List.{list_all};
ghost use Rattle.hb_rules.specs.History.{IsLegal};
ghost use Rattle.hb_rules.specs.Ledger.{BatchesAreEnough};
ghost use Rattle.hb_rules.specs.Strings.{NoCollision};
ghost use Rattle.acs_world.specs.Closed.{is_enough, closing_by};

use crate::closings::{closing_of, count_of};
use hb_base::Config;
use hb_rules::Report;
use hb_wire::Post;

/// Whether each list of each correct node's ledger has the batches of n - f nodes at least (CCS 2016, section 4). It is so
/// for each legal history in which no two hashed strings share a digest. It takes no memory.
///
/// It goes through the posts once and reads the bytes of those of desks once, so time is linear in the bytes of the history.
pub fn batches_ok(report: &Report) -> bool
    ensures exact { IsTrue result ↔ BatchesAreEnough report.now.config report.now.history.items }
    ensures legal { IsLegal report.now.config report.now.history.items → NoCollision report.now.config report.now.history.items → IsTrue result }
{
    let config = &report.config;
    // what this call ensures says that the numbers of the run are sound
    let _sound = config.liars();
    all_enough(config, report.history.as_slice())
}

// Whether each list with which a post closes an epoch has batches enough.
fn all_enough(config: &Config, posts: &[Post]) -> bool
    ensures { result ≡ list_all (λ post. is_enough config.now (closing_by config.now post)) posts.now }
{
    posts.iter().all(|post| has_enough(config, post))
}

// Whether the list with which a post closes an epoch, if it closes one, has batches enough.
fn has_enough(config: &Config, post: &Post) -> bool
    ensures { result ≡ is_enough config.now (closing_by config.now post.now) }
{
    match closing_of(config, post) {
        None => true,
        Some(closing) => count_of(closing.rest) >= config.n() - config.f(),
    }
}
