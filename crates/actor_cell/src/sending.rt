//! What an actor sends of the posts that it made, over any kind of book.

ghost use Rattle.std.specs.Prelude.{◌≡◌, ◌≢◌, ℕ, ◌<◌, ◌++◌, [], List, length, OnOk, OnErr, slice_get};
ghost use Rattle.std.specs.List.{AllByRecursion};
ghost use Rattle.hb_rules.specs.declared.report.Fate.TheVariants.{Running};
ghost use Rattle.actor_cell.specs.Held.{player_at, WasShown};
ghost use Rattle.actor_cell.specs.Mail.{AreSent, IsSameTaker, of_found, deliveries};
ghost use Rattle.actor_cell.specs.Turning.{IsShown};

use crate::mail::Mail;
use hb_rules::{Actor, Book};
use net_script::Script;
use std::alloc::AllocError;
use std::sync::Wait;

/// Puts the numbers of these posts, by shape, for all whom they reach. Each post is read by the actor's seat. The error is want
/// of memory to read one, for which it looked at the whole history, and the numbers before it were put.
pub fn send_all<R: Wait, B: Book, A: Actor<B>>(
    rt: &R,
    script: &Script,
    book: &mut B,
    actor: &mut A,
    mail: &mut Mail,
    numbers: &[u32],
) -> Result<(), AllocError>
    requires seat { B.knows book.old (A.seat actor.old) }
    requires config { mail.old.boxes.config ≡ script.now.config }
    requires stand { AllByRecursion (λ k. k < length (B.seen (A.seat actor.old))) numbers.now }
    ensures seat { B.knows book.new (A.seat actor.new) }
    ensures moved { B.moved (B.node (A.seat actor.old)) (B.actor (A.seat actor.old)) book.old book.new }
    ensures shown { IsShown (player_at B.config B.node B.actor B.seen A.seat A.view actor.old Running)
        (player_at B.config B.node B.actor B.seen A.seat A.view actor.new Running) }
    ensures taker { IsSameTaker mail.old mail.new }
    ensures all { OnOk result (AreSent script.now.config (deliveries script.now.config script.now (B.seen (A.seat actor.new)) numbers.now) mail.old mail.new) }
    ensures some { OnErr result ((front rest : List ℕ) × (rest ≢ []) × (numbers.now ≡ front ++ rest)
        × AreSent script.now.config (deliveries script.now.config script.now (B.seen (A.seat actor.new)) front) mail.old mail.new) }
    ensures looked { OnErr result (WasShown B.is_whole B.moved B.seen (B.node (A.seat actor.old)) (B.actor (A.seat actor.old))
        book.old book.new (A.seat actor.new)) }
{
    actor.kept();
    for k in numbers {
        send_one(rt, script, book, actor, mail, *k)?;
    }
    Ok(())
}

// The same for one post. Where there is no memory to read it, nothing is put.
fn send_one<R: Wait, B: Book, A: Actor<B>>(
    rt: &R,
    script: &Script,
    book: &mut B,
    actor: &mut A,
    mail: &mut Mail,
    k: u32,
) -> Result<(), AllocError>
    requires seat { B.knows book.old (A.seat actor.old) }
    requires config { mail.old.boxes.config ≡ script.now.config }
    ensures seat { B.knows book.new (A.seat actor.new) }
    ensures moved { B.moved (B.node (A.seat actor.old)) (B.actor (A.seat actor.old)) book.old book.new }
    ensures shown { IsShown (player_at B.config B.node B.actor B.seen A.seat A.view actor.old Running)
        (player_at B.config B.node B.actor B.seen A.seat A.view actor.new Running) }
    ensures taker { IsSameTaker mail.old mail.new }
    ensures sent { OnOk result (AreSent script.now.config (of_found script.now.config script.now (slice_get (B.seen (A.seat actor.new)) k) k) mail.old mail.new) }
    ensures none { OnErr result (mail.new ≡ mail.old) }
    ensures whole { B.is_whole book.old book.new (A.seat actor.old) (A.seat actor.new) }
{
    actor.kept();
    let found = actor.read(book, k)?;
    if let Some(post) = &found {
        mail.send(rt, script, post, k);
    }
    Ok(())
}
