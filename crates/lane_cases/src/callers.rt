//! Callers of an agreement, as a lane calls it. What they promise is proved by the contracts alone.

ghost use Rattle.std.specs.Prelude.{◌≡◌, ◌+◌, ◌*◌, ◌<◌, ◌≤◌, true, List, [], ◌∷◌, ◌++◌, None, IfOk, OnOk};
ghost use Rattle.std.specs.Arc.{arc_value};
ghost use Rattle.hb_wire.specs.declared.vote.Vote.{Vote};
ghost use Rattle.hb_rules.specs.Hearing.{Hearing, hearing};
ghost use Rattle.hb_rules.specs.Slots.{IsOwed};
ghost use Rattle.aba_core.specs.State.{place_of};
ghost use Rattle.aba_core.specs.Standing.{slots_at, Stands, Hears};

use aba_core::Aba;
use coin_deal::Deal;
use hb_base::Config;
use hb_rules::Due;
use hb_wire::Vote;
use std::alloc::{AllocError, Global};
use std::sync::Arc;

/// An agreement in which the node has cast and heard nothing.
pub fn begin(
    alloc: Global,
    config: &Config,
    deal: &Arc<Deal, Global>,
    node: u8,
    lane: u8,
    epoch: u8,
) -> Result<Aba, AllocError>
    requires deal { arc_value deal.now ≡ config.now }
    requires node { node < config.now.n }
    requires lane { lane < config.now.n }
    requires epoch { epoch < config.now.epochs }
    ensures place { IfOk result (λ a. place_of a ≡ record { config = config.now; node = node; lane = lane; epoch = epoch }) }
    ensures new { IfOk result (λ a. Stands a [] []) }
{
    Aba::rebuild(alloc, config, deal, node, lane, epoch, &[])
}

/// What is decided in an agreement in which nothing was cast or heard: nothing.
pub fn first_decision(aba: &Aba) -> Option<bool>
    requires { Stands aba.now [] [] }
    ensures { result ≡ None }
{
    aba.decided()
}

/// Hears a vote. What is owed then is what is due.
pub fn hear(aba: &mut Aba, from: u8, vote: &Vote, due: &mut Due) -> Result<(), AllocError>
    requires from { from < (place_of aba.old).config.n }
    ensures { (own : List Vote) (heard : List Hearing) → Stands aba.old own heard
        → OnOk result (IsOwed (slots_at (place_of aba.old)) own (heard ++ hearing from vote.now ∷ []) due.new.votes
        × Stands aba.new (own ++ due.new.votes) (heard ++ hearing from vote.now ∷ [])) }
{
    due.clear();
    aba.hear(from, vote, due)
}

/// Hears a vote with room for all that may become due. It is heard in any case, and what is owed then is due behind the others.
pub fn is_heard(aba: &mut Aba, from: u8, vote: &Vote, due: &mut Due) -> bool
    requires from { from < (place_of aba.old).config.n }
    requires room { 7 * (place_of aba.old).config.rounds + 1 ≤ due.old.spare }
    ensures always { result ≡ true }
    ensures heard { Hears aba.old aba.new (hearing from vote.now) due.old.votes due.new.votes }
{
    aba.hear(from, vote, due).is_ok()
}
