//! The verdict on a history.
ghost use Rattle.std.specs.Prelude.{◌≡◌, ◌≤◌, [], length, IfOk};
ghost use Rattle.hb_base.specs.Limits.{most_posts};
ghost use Rattle.history_verdict.specs.Verdicts.{IsVerdict};

use crate::judge::Judge;
use crate::verdict::Verdict;
use hb_wire::Post;
use std::alloc::AllocError;

/// The verdict on posts, by a judge that has judged none before. It stops at the first post that may not follow those before
/// it. Err where there is no memory.
pub fn judge_all<J: Judge>(judge: &mut J, posts: &[Post]) -> Result<Verdict, AllocError>
    requires fresh { J.seen judge.old ≡ [] }
    requires short { length posts.now ≤ most_posts }
    ensures { IfOk result (IsVerdict (J.config judge.old) posts.now) }
{
    for number in 0..posts.len() {
        let may_follow = judge.judge(&posts[number])?;
        if !may_follow {
            return Ok(Verdict::Illegal {
                post: number as u32,
            });
        }
    }
    Ok(Verdict::Legal {
        posts: posts.len() as u32,
    })
}
