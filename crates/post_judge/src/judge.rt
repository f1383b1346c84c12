//! The judge of a history.
ghost use Rattle.std.specs.Prelude.{◌≡◌, [], IfOk};

use crate::allowing::judged;
use crate::table::{Table, vote_of};
use hb_base::Config;
use hb_wire::Post;
use history_verdict::Judge;
use rbc_judge::Known;
use std::alloc::{AllocError, Global};
use std::marker::Model;

/// Judges the posts of a history one after another, by the rules of the whole protocol (CCS 2016, figures 2 to 4; PODC 2014,
/// figure 2), and keeps them, and by their places the numbers and the votes of those at which later judgements look. After want
/// of memory, or of a number below 2 ^ 32 for the next post, it judges no more. Clauses see a `JudgeView`.
///
/// The vote of a post is read once, and kept beside its number. The branch of an Echo or a share of a coin is checked as it comes
/// in, and by no look at it later; that of a correct node's Echo is also checked as it is judged. That of a share is checked only
/// if it is not the one that was dealt. A post of a correct node is compared with the votes that its actor has cast in the epoch,
/// a desk's with all of the desk. If it is new, its rule goes through the posts at the places at which it looks: a lane's Echoes
/// and Readies of the epoch, the claims of a round, the shares of a round, or of each round for a decision, or what its own
/// node's desk or lanes have said. What it encodes or rebuilds for a lane is kept until the lane's next is another. So a post is
/// looked at by 5n judgements at most, and a history is judged in time linear in its posts, but for look-ups in a table of
/// places. A vote that is kept has its shard or its value in common with its post; the batches of a Closed are copies.
#[derive(Drop)]
pub struct HistoryJudge {
    table: Table,
    known: Known,

    // False while a post is judged, and after want of memory: then it may be that a part of the post was kept.
    is_whole: bool,
}

impl Model for HistoryJudge {
    ghost use Rattle.std.specs.Prelude.{◌≡◌, true};
    ghost use Rattle.post_judge.specs.Tables.{AreTold};
    ghost use Rattle.post_judge.specs.Views.{JudgeView};

    ghost Value = { JudgeView };

    ghost view = { λ j. record { config = j.table.config; seen = j.table.posts.items } };

    ghost invariant = { λ j. (j.table.deal ≡ j.table.config)
        × (j.is_whole ≡ true → AreTold j.table.config j.table.posts.items j.table.buckets.by_place) };
}

impl HistoryJudge {
    /// A judge that has judged no post of a run with this config. It deals the run's coins. Err where there is no memory.
    pub fn new(alloc: Global, config: &Config) -> Result<HistoryJudge, AllocError>
        ensures { IfOk result (λ judge. (judge.config ≡ config.now) × (judge.seen ≡ [])) }
    {
        Ok(HistoryJudge {
            table: Table::new(alloc, config)?,
            known: Known::new(alloc),
            is_whole: true,
        })
    }
}

impl Judge for HistoryJudge {
    ghost config = { λ judge. judge.config };

    ghost seen = { λ judge. judge.seen };

    fn judge(&mut self, post: &Post) -> Result<bool, AllocError> {
        if !self.is_whole {
            return Err(AllocError);
        }
        self.is_whole = false;
        let vote = vote_of(self.table.alloc, &self.table.config, post)?;
        let may_follow = judged(&self.table, &mut self.known, post, &vote)?;
        self.table.note(post, &vote)?;
        self.is_whole = true;
        Ok(may_follow)
    }
}
