//! The rights of one actor, or of a node that lies, at all mailboxes.
ghost use Rattle.std.specs.Prelude.{◌≡◌, [], map, All, IfOk};
ghost use Rattle.actor_cell.specs.Passes.{AreDealt, IsNewTake, IsNewPut, names_of};

use mailbox::{Mailbox, PutPass, TakePass};
use std::alloc::{AllocError, Global};
use std::marker::Model;

/// The take pass of one mailbox, and a put pass of each mailbox of a run. It has the place of that mailbox among all, and the
/// passes have no bytes. Clauses see a `PassesView`.
#[derive(Drop)]
pub struct Passes {
    pub(crate) place: usize,
    pub(crate) take: TakePass,
    pub(crate) puts: Vec<PutPass>,
}

impl Model for Passes {
    ghost use Rattle.actor_cell.specs.Passes.{PassesView};

    ghost Value = { PassesView };

    ghost view = { λ p. record { place = p.place; take = p.take; puts = p.puts.items } };
}

impl Passes {
    // For each mailbox, in their order, its take pass with a put pass of each, where `firsts` are passes of all in their order.
    pub(crate) fn deal(
        alloc: Global,
        boxes: &[Mailbox],
        firsts: &mut Vec<PutPass>,
        takes: Vec<TakePass>,
    ) -> Result<Vec<Passes>, AllocError>
        requires firsts { map (λ p. p.at) firsts.old.items ≡ boxes.now }
        requires takes { (map (λ t. t.at) takes.items ≡ boxes.now) × All IsNewTake takes.items }
        ensures { IfOk result (λ all. AreDealt boxes.now all.items) }
    {
        let mut all = Vec::new(alloc);
        for take in takes {
            let place = all.len();
            let puts = split_each(alloc, boxes, firsts)?;
            all.push(Passes { place, take, puts })?;
        }
        Ok(all)
    }
}

// A new put pass of each mailbox, in their order.
fn split_each(
    alloc: Global,
    boxes: &[Mailbox],
    firsts: &mut Vec<PutPass>,
) -> Result<Vec<PutPass>, AllocError>
    requires firsts { map (λ p. p.at) firsts.old.items ≡ boxes.now }
    ensures firsts { map (λ p. p.at) firsts.new.items ≡ boxes.now }
    ensures at { IfOk result (λ puts. map (λ p. p.at) puts.items ≡ boxes.now) }
    ensures new { IfOk result (λ puts. All IsNewPut puts.items) }
{
    let mut puts = Vec::with_capacity(alloc, boxes.len())?;
    for place in 0..boxes.len() {
        let mailbox = &boxes[place];
        let first = &mut firsts[place];
        puts.push(mailbox.split(first))?;
    }
    Ok(puts)
}
