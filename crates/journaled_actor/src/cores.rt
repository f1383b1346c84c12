//! What an actor over its journal asks of its core.
ghost use Rattle.std.specs.Prelude.{◌≡◌, List, [], ◌∷◌, ◌++◌, OnOk};
ghost use Rattle.hb_wire.specs.declared.vote.Vote.{Vote};
ghost use Rattle.hb_wire.specs.declared.post.Post.{Post};
ghost use Rattle.hb_rules.specs.Hearing.{Hearing, hearing};
ghost use Rattle.hb_rules.specs.Room.{KeepsRoom};
ghost use Rattle.hb_rules.specs.Terms.{Terms, AreLawful, AreVotes};
ghost use Rattle.journaled_actor.specs.Cores.{IsHearing};

use hb_base::Config;
use hb_rules::Due;
use hb_wire::{Spoken, Vote};
use std::alloc::{AllocError, Global};

/// The core of an actor: it hears votes, and says which votes are owed then. It posts nothing and keeps nothing that lasts.
pub trait Core: Drop {
    /// By what it goes. It never changes.
    ghost terms: { Self → Terms };

    /// It stands for an actor that has cast these votes and has heard this since it was rebuilt, and that owes nothing.
    ghost stands: { Self → List Vote → List Hearing → Type 0 };

    /// The config of the run.
    fn config(&self) -> Config
        ensures { result ≡ (terms self.now).config };

    /// The node of the actor.
    fn node(&self) -> u8
        ensures { result ≡ (terms self.now).node };

    /// The number of the actor: a lane's is below n, the desk's is n.
    fn actor(&self) -> u8
        ensures { result ≡ (terms self.now).actor };

    /// What it owes is lawful. The call does nothing.
    fn lawful(&self)
        ensures { AreLawful (terms self.now) };

    /// Becomes the core of an actor that has cast these votes and has heard nothing since, and adds the votes that it owes
    /// then, in their order. The votes are ones that an actor may keep, by some history. After an error it is of no use
    /// until it is rebuilt.
    fn rebuild(&mut self, alloc: Global, own: &[Vote], due: &mut Due) -> Result<(), AllocError>
        requires own { (seen : List Post) × AreVotes (terms self.old) seen own.now }
        ensures terms { terms self.new ≡ terms self.old }
        ensures owed { OnOk result (due.new.votes ≡ due.old.votes ++ (terms self.old).owed own.now []) }
        ensures stands { OnOk result (stands self.new (own.now ++ (terms self.old).owed own.now []) []) }
        ensures keeps_room { KeepsRoom due.old due.new };

    /// Hears one vote more, and adds the votes that are owed then, in their order. `from` is the node that has cast the
    /// vote; at a desk, which hears its own node's lanes alone, it is the lane. After an error the core is of no use until it
    /// is rebuilt.
    fn hear(
        &mut self,
        alloc: Global,
        from: u8,
        vote: &Spoken,
        due: &mut Due,
    ) -> Result<(), AllocError>
        requires stands { (own : List Vote) × (heard : List Hearing) × stands self.old own heard }
        requires heard { IsHearing (terms self.old) (hearing from vote.now) }
        ensures terms { terms self.new ≡ terms self.old }
        ensures owed { OnOk result ((own : List Vote) (heard : List Hearing) → stands self.old own heard
            → due.new.votes ≡ due.old.votes ++ (terms self.old).owed own (heard ++ hearing from vote.now ∷ [])) }
        ensures stands { OnOk result ((own : List Vote) (heard : List Hearing) → stands self.old own heard
            → stands self.new (own ++ (terms self.old).owed own (heard ++ hearing from vote.now ∷ [])) (heard ++ hearing from vote.now ∷ [])) }
        ensures keeps_room { KeepsRoom due.old due.new };
}
