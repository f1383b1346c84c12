//! The lines of posts, and the last line.

ghost use Rattle.std.specs.Prelude.{◌≡◌, ◌*◌, ◌≤◌, ℕ, List, ◌++◌, length, All, IfOk};
ghost use Rattle.hb_wire.specs.declared.post.Post.{Post};
ghost use Rattle.trace_text.specs.Text.{post_line, posts_text};
ghost use Rattle.trace_reader.specs.Trace.{longest_trace, IsPost};

use crate::post::post_at;
use hb_wire::Post;
use std::alloc::{AllocError, Global};

// Bytes of the line of a post at least: `post 0 from 0 actor 0 to all -`, and the line's end.
const SHORTEST_LINE: usize = 31;

/// Posts numbered from 0 on, as many as come, and the bytes behind the last of them. Room for as many posts as these bytes can
/// tell of is asked for before the first is read, so that the list is never moved. Err where there is no memory.
pub(crate) fn posts_at(alloc: Global, bytes: &[u8]) -> Result<(Vec<Post>, &[u8]), AllocError>
    requires { length bytes.now ≤ longest_trace }
    ensures posts { IfOk result (λ x. All IsPost x.0.items) }
    ensures text { IfOk result (λ x. bytes.now ≡ posts_text 0 x.0.items ++ x.1.now) }
    ensures last { IfOk result (λ x. (post : Post) (later : List ℕ) → IsPost post → x.1.now ≡ post_line (length x.0.items) post ++ later → ⊥) }
    ensures few { IfOk result (λ x. 31 * length x.0.items ≤ length bytes.now) }
{
    let mut posts = Vec::with_capacity(alloc, bytes.len() / SHORTEST_LINE)?;
    let mut rest = bytes;
    loop {
        match post_at(alloc, posts.len() as u64, rest)? {
            None => return Ok((posts, rest)),
            Some((post, later)) => {
                posts.push(post)?;
                rest = later;
            }
        }
    }
}
