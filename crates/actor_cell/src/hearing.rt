//! What an actor does with one post, over any kind of book.

ghost use Rattle.std.specs.Prelude.{◌≡◌, ◌<◌, true, [], length, IfOk, OnErr, slice_get};
ghost use Rattle.std.specs.List.{AllByRecursion};
ghost use Rattle.hb_rules.specs.Actor.{ReachesActor};
ghost use Rattle.step_driver.specs.Playing.{IsRefused};
ghost use Rattle.actor_cell.specs.Held.{player_at};
ghost use Rattle.actor_cell.specs.Turning.{arrival_found, IsShown, IsTried, Recovers, Starts, Hears};

use crate::arrival::{Arrival, arrival_found};
use hb_rules::{Actor, ActorFault, Book, Fate, Outbox};
use net_script::Script;
use std::alloc::{AllocError, Global};
use step_driver::{fate_of, may_restart};

/// How post k arrives at the actor. It shows the actor the whole history of that moment. Err is want of memory to read the post,
/// which then stands.
pub fn look<B: Book, A: Actor<B>>(
    script: &Script,
    book: &mut B,
    actor: &mut A,
    k: u32,
) -> Result<Arrival, AllocError>
    requires seat { B.knows book.old (A.seat actor.old) }
    ensures seat { B.knows book.new (A.seat actor.new) }
    ensures moved { B.moved (B.node (A.seat actor.old)) (B.actor (A.seat actor.old)) book.old book.new }
    ensures whole { B.is_whole book.old book.new (A.seat actor.old) (A.seat actor.new) }
    ensures shown { IsShown (player_at B.config B.node B.actor B.seen A.seat A.view actor.old Fate.Running)
        (player_at B.config B.node B.actor B.seen A.seat A.view actor.new Fate.Running) }
    ensures arrival { IfOk result (λ arrival. arrival ≡ arrival_found script.now (slice_get (B.seen (A.seat actor.new)) k)
        (B.node (A.seat actor.new)) (B.actor (A.seat actor.new)) k) }
    ensures stands { OnErr result (k < length (B.seen (A.seat actor.new))) }
{
    actor.kept();
    let found = actor.read(book, k)?;
    Ok(arrival_found(script, &found, actor.node(), actor.actor(), k))
}

/// Starts an actor that was never started. A power stop is followed by restarts. The answer is its fate after that, and `out` has
/// the numbers of the posts that it made, if it works.
pub fn start<B: Book, A: Actor<B>>(
    alloc: Global,
    book: &mut B,
    actor: &mut A,
    out: &mut Outbox,
) -> Fate
    requires seat { B.knows book.old (A.seat actor.old) }
    requires fresh { (A.view actor.old).fresh ≡ true }
    ensures seat { B.knows book.new (A.seat actor.new) }
    ensures moved { B.moved (B.node (A.seat actor.old)) (B.actor (A.seat actor.old)) book.old book.new }
    ensures starts { Starts (player_at B.config B.node B.actor B.seen A.seat A.view actor.old Fate.Running)
        (player_at B.config B.node B.actor B.seen A.seat A.view actor.new result) out.old out.new }
{
    match actor.start(alloc, book, out) {
        Ok(()) => Fate::Running,
        Err(fault) => recover(alloc, book, actor, out, fault),
    }
}

/// Lets the actor hear post k. A power stop is followed by restarts. The answer is its fate after that, and `out` has the numbers
/// of the posts that it made, if it works.
pub fn hear<B: Book, A: Actor<B>>(
    alloc: Global,
    book: &mut B,
    actor: &mut A,
    k: u32,
    out: &mut Outbox,
) -> Fate
    requires seat { B.knows book.old (A.seat actor.old) }
    requires live { (A.view actor.old).live ≡ true }
    requires reaches { ReachesActor (B.config (A.seat actor.old)) (B.seen (A.seat actor.old)) (B.node (A.seat actor.old)) (B.actor (A.seat actor.old)) k }
    ensures seat { B.knows book.new (A.seat actor.new) }
    ensures moved { B.moved (B.node (A.seat actor.old)) (B.actor (A.seat actor.old)) book.old book.new }
    ensures hears { Hears k (player_at B.config B.node B.actor B.seen A.seat A.view actor.old Fate.Running)
        (player_at B.config B.node B.actor B.seen A.seat A.view actor.new result) out.old out.new }
{
    match actor.step(alloc, book, k, out) {
        Ok(()) => Fate::Running,
        Err(fault) => recover(alloc, book, actor, out, fault),
    }
}

/// Restarts an actor whose call was refused while a stop has left it without power. Another refusal ends it, and so does a fault
/// that leaves the power on; the fate names the fault where no restart was tried. `out` has the numbers of the posts that the
/// refused call made.
pub fn recover<B: Book, A: Actor<B>>(
    alloc: Global,
    book: &mut B,
    actor: &mut A,
    out: &mut Outbox,
    fault: ActorFault,
) -> Fate
    requires seat { B.knows book.old (A.seat actor.old) }
    requires refused { IsRefused fault (player_at B.config B.node B.actor B.seen A.seat A.view actor.old Fate.Running) }
    ensures seat { B.knows book.new (A.seat actor.new) }
    ensures moved { B.moved (B.node (A.seat actor.old)) (B.actor (A.seat actor.old)) book.old book.new }
    ensures recovers { Recovers (player_at B.config B.node B.actor B.seen A.seat A.view actor.old Fate.Running)
        (player_at B.config B.node B.actor B.seen A.seat A.view actor.new result) out.old out.new }
    ensures tried { IsTried fault (player_at B.config B.node B.actor B.seen A.seat A.view actor.old Fate.Running)
        (player_at B.config B.node B.actor B.seen A.seat A.view actor.new result) }
    ensures journal { result ≡ Fate.Running → fault ≡ ActorFault.Journal }
{
    let mut fault = fault;
    'off: while may_restart(fault, actor.is_off()) {
        match actor.restart(alloc, book, out) {
            Ok(()) => return Fate::Running,
            Err(next) => fault = next,
        }
    }
    fate_of(fault)
}
