//! A caller of accusations, as one who watches a run. What it promises is proved by the contract of the call alone.

ghost use Rattle.std.specs.Prelude.{◌≡◌, ◌<◌, ◌^◌, length, IfOk};
ghost use Rattle.accuse.specs.Accused.{accused};

use accuse::accuse;
use hb_base::Config;
use hb_wire::Post;
use std::alloc::{AllocError, Global};

/// How many nodes of a run are accused by their own posts.
pub fn count_accused(alloc: Global, config: &Config, history: &[Post]) -> Result<usize, AllocError>
    requires { length history.now < 2 ^ 32 }
    ensures { IfOk result (λ count. count ≡ length (accused config.now history.now)) }
{
    let found = accuse(alloc, config, history)?;
    Ok(found.len())
}
