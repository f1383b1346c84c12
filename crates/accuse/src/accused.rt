//! The call.
ghost use Rattle.std.specs.Prelude.{◌≡◌, ℕ, ◌<◌, ◌^◌, ◌++◌, true, length, IfOk, OnOk, Contains};
ghost use Rattle.std.specs.Option.{option_to_list};
ghost use Rattle.hb_base.specs.NodeSet.{is_in};
ghost use Rattle.hb_rules.specs.History.{IsLegal};
ghost use Rattle.accuse.specs.declared.accusation.Accusation.{Accusation};
ghost use Rattle.accuse.specs.Accused.{accused};

use crate::accusation::Accusation;
use crate::search::accusation_of;
use hb_base::Config;
use hb_wire::Post;
use std::alloc::{AllocError, Global};

// Appends an accusation, if there is one.
fn push_some(found: &mut Vec<Accusation>, accusation: Option<Accusation>) -> Result<(), AllocError>
    ensures { OnOk result (found.new.items ≡ found.old.items ++ option_to_list accusation) }
{
    match accusation {
        Some(accusation) => Ok(found.push(accusation)?),
        None => Ok(()),
    }
}

/// Which nodes of a run have posts that contradict each other, the nodes rising: for each the first of its posts that contradicts
/// an earlier one of the same actor, and the first of those that it contradicts.
///
/// Two votes contradict each other where a correct actor casts one of them at most (CCS 2016, figures 2 to 4; PODC 2014, figure
/// 2): they differ, and are of one kind, one epoch, and one round where the kind has rounds; two Vals also for one node, unless
/// they show two roots. Two Bvals never do. The history may be any posts with any bytes, legal or not: a post from a node that
/// the run has not accuses nobody, nor do bytes that spell no vote under the run's version. Err where there is no memory.
///
/// For each node it goes through the posts once, up to the first that contradicts another. A post of the node is read and
/// compared with the first post at its place in a table, and a Val also with the first Val of its epoch: votes that are the same
/// are equally long, so time is linear in the bytes of the history, and in the number of its posts times that of nodes, but for
/// look-ups in the table, which are logarithmic in the number of places.
pub fn accuse(
    alloc: Global,
    config: &Config,
    history: &[Post],
) -> Result<Vec<Accusation>, AllocError>
    requires { length history.now < 2 ^ 32 }
    ensures exact { IfOk result (λ found. found.items ≡ accused config.now history.now) }

    // In a legal history only liars are accused, whatever strings share a digest.
    ensures liars { IfOk result (λ found. IsLegal config.now history.now
        → (a : Accusation) → Contains found.items a → is_in config.now.liars a.node ≡ true) }
{
    // A config is sound where its liars can be told.
    let _sound = config.liars();
    let mut found = Vec::new(alloc);
    for node in 0..config.n() {
        let accusation = accusation_of(alloc, config, node, history)?;
        push_some(&mut found, accusation)?;
    }
    Ok(found)
}
