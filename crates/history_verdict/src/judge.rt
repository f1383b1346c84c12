//! What an audit asks of each post.
ghost use Rattle.std.specs.Prelude.{◌≡◌, List, [], ◌∷◌, ◌++◌, IfOk};
ghost use Rattle.hb_base.specs.Numbers.{Numbers};
ghost use Rattle.hb_wire.specs.declared.post.Post.{Post};
ghost use Rattle.hb_rules.specs.History.{IsLegal};
ghost use Rattle.history_verdict.specs.Verdicts.{Judges};

use hb_wire::Post;
use std::alloc::AllocError;

/// Judges the posts of a history one after another.
pub trait Judge {
    /// The numbers of the run.
    ghost config: { Self → Numbers };

    /// The posts that were judged, in order.
    ghost seen: { Self → List Post };

    /// Whether a post may follow those that were judged before it, which are legal. Err where there is no memory; after it
    /// nothing is known of the posts that were judged.
    fn judge(&mut self, post: &Post) -> Result<bool, AllocError>
        ensures config { config self.new ≡ config self.old }
        ensures judged { IfOk result (λ answer. IsLegal (config self.old) (seen self.old) → Judges (config self.old) (seen self.old) post.now answer) }
        ensures seen { IfOk result (λ answer. seen self.new ≡ seen self.old ++ post.now ∷ []) };
}
