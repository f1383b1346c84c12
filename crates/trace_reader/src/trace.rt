//! The whole text.

ghost use Rattle.std.specs.Prelude.{◌≡◌, ℕ, ◌≤◌, List, ◌++◌, length, MatchResult};
ghost use Rattle.hb_base.specs.Numbers.{Numbers};
ghost use Rattle.trace_text.specs.Text.{trace_line};
ghost use Rattle.trace_reader.specs.Trace.{longest_trace, IsConfig};
ghost use Rattle.trace_reader.specs.Sources.{IsReadAs, IsRefusedAs};

use crate::fault::TraceFault;
use crate::head::config_at;
use crate::post::end_at;
use crate::posts::posts_at;
use hb_base::Config;
use hb_wire::Post;
use std::alloc::Global;

/// What the text of a history tells: the numbers of the run, and its posts in order.
#[derive(Debug, Drop)]
pub struct Trace {
    pub config: Config,
    pub posts: Vec<Post>,
}

// Reads a text that isn't too long.
pub(crate) fn trace_of(alloc: Global, bytes: &[u8]) -> Result<Trace, TraceFault>
    requires { length bytes.now ≤ longest_trace }
    ensures { MatchResult result (λ trace. IsReadAs bytes.now trace.config trace.posts.items) (IsRefusedAs bytes.now) }
{
    match config_at(bytes) {
        None => Err(TraceFault::NotATrace { line: 1 }),
        Some((config, rest)) => match all_posts(alloc, rest) {
            Ok(posts) => Ok(Trace { config, posts }),
            Err(fault) => Err(fault),
        },
    }
}

// Reads what is behind the first line.
fn all_posts(alloc: Global, bytes: &[u8]) -> Result<Vec<Post>, TraceFault>
    requires { length bytes.now ≤ longest_trace }
    ensures { (whole : List ℕ) (c : Numbers) → IsConfig c → whole ≡ trace_line c ++ bytes.now → MatchResult result (λ posts. IsReadAs whole c posts.items) (IsRefusedAs whole) }
{
    let (posts, rest) = posts_at(alloc, bytes)?;
    let count = posts.len();
    match end_at(count as u64, rest) {
        None => Err(TraceFault::NotATrace {
            line: count as u32 + 2,
        }),
        Some(later) if later.is_empty() => Ok(posts),
        Some(_) => Err(TraceFault::NotATrace {
            line: count as u32 + 3,
        }),
    }
}
