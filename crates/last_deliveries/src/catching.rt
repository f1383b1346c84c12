//! An actor catches up with the posts of a book.

ghost use Rattle.std.specs.Prelude.{◌≡◌, ◌⊎◌, ℕ, ◌<◌, ◌≤◌, ◌++◌, ◌∷◌, ◌&&◌, ◌==◌, [], true, false, length, IfOk};
ghost use Rattle.hb_base.specs.Limits.{most_posts};
ghost use Rattle.hb_rules.specs.Report.{IsReceived, is_running_fate};
ghost use Rattle.last_deliveries.specs.Catching.{HasReceivedTo, LacksNoOther, HasHeardTo, HasTaken, WasRestarted};
ghost use Rattle.last_deliveries.specs.Settling.{player_of, IsOfRun, HasGoneOn};

use crate::listing::ListedPosts;
use crate::marking::{coming, lacking, marks_for};
use actor_cell::{Arrival, hear, look};
use hb_base::Gate;
use hb_rules::{Actor, Book, Fate, Outbox};
use hb_wire::Post;
use net_script::Script;
use std::alloc::{AllocError, Global};
use step_driver::{Player, is_running};

// An actor that works hears those of the new posts that come to it and that it has not received, in their order. Of the posts
// before them it has received all that come to it. Where it was restarted in a delivery it has forgotten what it received,
// and hears all of these posts that come to it. So it has received each of them then, if it still works. Each delivery is
// counted.
//
// It costs a look at each new post in the two lists where those that may come to it stand. Where all are new it costs a mark
// for each post too. A post that is delivered is read once, and then once more by `reread`. A restart costs a look at each post.
pub(crate) fn catch_up<B: Book, A: Actor<B>, G: Gate>(
    alloc: Global,
    script: &Script,
    book: &mut B,
    player: &mut Player<A>,
    posts: &ListedPosts,
    gate: &G,
    deliveries: &mut u64,
)
    requires seat { B.knows book.old (A.seat player.old.actor) }
    requires of_run { IsOfRun script.now (player_of B.config B.node B.actor B.seen A.seat A.view player.old) }
    requires few { length posts.now.posts ≤ most_posts }
    requires before { HasHeardTo script.now posts.now.posts posts.now.first (player_of B.config B.node B.actor B.seen A.seat A.view player.old) }
    ensures seat { B.knows book.new (A.seat player.new.actor) }
    ensures moved { B.moved (B.node (A.seat player.old.actor)) (B.actor (A.seat player.old.actor)) book.old book.new }
    ensures of_run { IsOfRun script.now (player_of B.config B.node B.actor B.seen A.seat A.view player.new) }
    ensures went { HasGoneOn (player_of B.config B.node B.actor B.seen A.seat A.view player.old)
        (player_of B.config B.node B.actor B.seen A.seat A.view player.new) }
    ensures all { HasHeardTo script.now posts.now.posts (length posts.now.posts) (player_of B.config B.node B.actor B.seen A.seat A.view player.new) }
    ensures unheard { deliveries.new ≡ 0 → (deliveries.old ≡ 0) × (A.view player.new.actor ≡ A.view player.old.actor) }
{
    if !is_running(player.fate) {
        return;
    }
    receive(alloc, script, book, player, posts, gate, deliveries);
}

// Does so where the actor works. It ends where it finds no memory for the numbers of what it lacks, or for the marks of what
// it has received.
fn receive<B: Book, A: Actor<B>, G: Gate>(
    alloc: Global,
    script: &Script,
    book: &mut B,
    player: &mut Player<A>,
    posts: &ListedPosts,
    gate: &G,
    deliveries: &mut u64,
)
    requires seat { B.knows book.old (A.seat player.old.actor) }
    requires of_run { IsOfRun script.now (player_of B.config B.node B.actor B.seen A.seat A.view player.old) }
    requires running { player.old.fate ≡ Fate.Running }
    requires few { length posts.now.posts ≤ most_posts }
    requires before { HasReceivedTo script.now posts.now.posts posts.now.first (B.node (A.seat player.old.actor)) (B.actor (A.seat player.old.actor))
        (A.view player.old.actor).got }
    ensures seat { B.knows book.new (A.seat player.new.actor) }
    ensures moved { B.moved (B.node (A.seat player.old.actor)) (B.actor (A.seat player.old.actor)) book.old book.new }
    ensures of_run { IsOfRun script.now (player_of B.config B.node B.actor B.seen A.seat A.view player.new) }
    ensures went { HasGoneOn (player_of B.config B.node B.actor B.seen A.seat A.view player.old)
        (player_of B.config B.node B.actor B.seen A.seat A.view player.new) }
    ensures all { HasHeardTo script.now posts.now.posts (length posts.now.posts) (player_of B.config B.node B.actor B.seen A.seat A.view player.new) }
    ensures unheard { deliveries.new ≡ 0 → (deliveries.old ≡ 0) × (A.view player.new.actor ≡ A.view player.old.actor) }
{
    match wanted::<B, A>(alloc, script, &player.actor, posts) {
        Err(_) => player.fate = Fate::Memory,
        Ok(numbers) => hear_all(
            alloc,
            script,
            book,
            player,
            posts.as_slice(),
            numbers,
            gate,
            deliveries,
        ),
    }
}

// The numbers of what an actor lacks of these posts, rising, where it has received all that come to it of those before the
// new ones. The error is want of memory for the marks of what it has received, or for the numbers.
fn wanted<B: Book, A: Actor<B>>(
    alloc: Global,
    script: &Script,
    actor: &A,
    posts: &ListedPosts,
) -> Result<Vec<u32>, AllocError>
    requires before { HasReceivedTo script.now posts.now.posts posts.now.first (B.node (A.seat actor.now)) (B.actor (A.seat actor.now)) (A.view actor.now).got }
    ensures { IfOk result (λ numbers. LacksNoOther script.now posts.now.posts (B.node (A.seat actor.now)) (B.actor (A.seat actor.now))
        (A.view actor.now).got numbers.items) }
{
    actor.kept();
    let marks = marks_for(alloc, actor.got(), posts)?;
    lacking(
        alloc,
        script,
        posts,
        marks.as_slice(),
        actor.node(),
        actor.actor(),
    )
}

// Lets an actor that works hear the posts with these numbers, which are what it lacks of these posts. Where it is restarted
// it hears all of them that come to it, from the first on. It ends where it finds no memory for the numbers of these.
fn hear_all<B: Book, A: Actor<B>, G: Gate>(
    alloc: Global,
    script: &Script,
    book: &mut B,
    player: &mut Player<A>,
    posts: &[Post],
    numbers: Vec<u32>,
    gate: &G,
    deliveries: &mut u64,
)
    requires seat { B.knows book.old (A.seat player.old.actor) }
    requires of_run { IsOfRun script.now (player_of B.config B.node B.actor B.seen A.seat A.view player.old) }
    requires running { player.old.fate ≡ Fate.Running }
    requires few { length posts.now ≤ most_posts }
    requires lacks { LacksNoOther script.now posts.now (B.node (A.seat player.old.actor)) (B.actor (A.seat player.old.actor))
        (A.view player.old.actor).got numbers.items }
    ensures seat { B.knows book.new (A.seat player.new.actor) }
    ensures moved { B.moved (B.node (A.seat player.old.actor)) (B.actor (A.seat player.old.actor)) book.old book.new }
    ensures of_run { IsOfRun script.now (player_of B.config B.node B.actor B.seen A.seat A.view player.new) }
    ensures went { HasGoneOn (player_of B.config B.node B.actor B.seen A.seat A.view player.old)
        (player_of B.config B.node B.actor B.seen A.seat A.view player.new) }
    ensures all { HasHeardTo script.now posts.now (length posts.now) (player_of B.config B.node B.actor B.seen A.seat A.view player.new) }
    ensures unheard { deliveries.new ≡ 0 → (deliveries.old ≡ 0) × (A.view player.new.actor ≡ A.view player.old.actor) }
{
    let mut numbers = numbers;
    'restarts: while hand_over_all(
        alloc,
        script,
        book,
        player,
        numbers.as_slice(),
        gate,
        deliveries,
    ) {
        match all_of::<B, A>(alloc, script, &player.actor, posts) {
            Err(_) => {
                player.fate = Fate::Memory;
                return;
            }
            Ok(all) => numbers = all,
        }
    }
}

// The numbers of all posts that come to an actor, rising. Err is want of memory for them.
fn all_of<B: Book, A: Actor<B>>(
    alloc: Global,
    script: &Script,
    actor: &A,
    posts: &[Post],
) -> Result<Vec<u32>, AllocError>
    requires few { length posts.now ≤ most_posts }
    ensures { IfOk result (λ numbers. LacksNoOther script.now posts.now (B.node (A.seat actor.now)) (B.actor (A.seat actor.now))
        (A.view actor.now).got numbers.items) }
{
    actor.kept();
    coming(alloc, script, posts, actor.node(), actor.actor())
}

// Lets an actor that works hear the posts with these numbers, in their order, until it is restarted or ends. Whether it was
// restarted.
fn hand_over_all<B: Book, A: Actor<B>, G: Gate>(
    alloc: Global,
    script: &Script,
    book: &mut B,
    player: &mut Player<A>,
    numbers: &[u32],
    gate: &G,
    deliveries: &mut u64,
) -> bool
    requires seat { B.knows book.old (A.seat player.old.actor) }
    requires of_run { IsOfRun script.now (player_of B.config B.node B.actor B.seen A.seat A.view player.old) }
    requires running { player.old.fate ≡ Fate.Running }
    ensures seat { B.knows book.new (A.seat player.new.actor) }
    ensures moved { B.moved (B.node (A.seat player.old.actor)) (B.actor (A.seat player.old.actor)) book.old book.new }
    ensures of_run { IsOfRun script.now (player_of B.config B.node B.actor B.seen A.seat A.view player.new) }
    ensures went { HasGoneOn (player_of B.config B.node B.actor B.seen A.seat A.view player.old)
        (player_of B.config B.node B.actor B.seen A.seat A.view player.new) }
    ensures works { result ≡ true → player.new.fate ≡ Fate.Running }
    ensures again { result ≡ true → WasRestarted (A.view player.old.actor) (A.view player.new.actor) }
    ensures heard { result ≡ false → player.new.fate ≡ Fate.Running → (A.view player.new.actor).got ≡ (A.view player.old.actor).got ++ numbers.now }
    ensures unheard { deliveries.new ≡ 0 → (deliveries.old ≡ 0) × (A.view player.new.actor ≡ A.view player.old.actor) }
{
    for k in numbers {
        if !hand_over(alloc, script, book, player, *k, gate, deliveries) {
            return is_running(player.fate);
        }
    }
    false
}

// Lets an actor that works hear post k. Before that the gate is entered. It ends where its own seat can't read the post, or
// does not show it one that comes to it, as no book does. Whether it has received the post, and still has all that it had
// received; if it works and has not, it was restarted.
fn hand_over<B: Book, A: Actor<B>, G: Gate>(
    alloc: Global,
    script: &Script,
    book: &mut B,
    player: &mut Player<A>,
    k: u32,
    gate: &G,
    deliveries: &mut u64,
) -> bool
    requires seat { B.knows book.old (A.seat player.old.actor) }
    requires of_run { IsOfRun script.now (player_of B.config B.node B.actor B.seen A.seat A.view player.old) }
    requires running { player.old.fate ≡ Fate.Running }
    ensures seat { B.knows book.new (A.seat player.new.actor) }
    ensures moved { B.moved (B.node (A.seat player.old.actor)) (B.actor (A.seat player.old.actor)) book.old book.new }
    ensures of_run { IsOfRun script.now (player_of B.config B.node B.actor B.seen A.seat A.view player.new) }
    ensures went { HasGoneOn (player_of B.config B.node B.actor B.seen A.seat A.view player.old)
        (player_of B.config B.node B.actor B.seen A.seat A.view player.new) }
    ensures works { result ≡ true → player.new.fate ≡ Fate.Running }
    ensures heard { result ≡ true → HasTaken k (A.view player.old.actor) (A.view player.new.actor) }
    ensures again { result ≡ false → player.new.fate ≡ Fate.Running → WasRestarted (A.view player.old.actor) (A.view player.new.actor) }
    ensures unheard { deliveries.new ≡ 0 → (deliveries.old ≡ 0) × (result ≡ false) × (A.view player.new.actor ≡ A.view player.old.actor) }
{
    gate.enter(player.actor.node(), player.actor.actor());
    match look(script, book, &mut player.actor, k) {
        Err(_) | Ok(Arrival::Aside) => {
            player.fate = Fate::Memory;
            false
        }
        Ok(Arrival::Prompt) | Ok(Arrival::Late) => {
            *deliveries = deliveries.saturating_add(1);
            listen(alloc, script, book, player, k)
        }
    }
}

// Lets an actor that works hear a post that comes to it. The answer is that of `hand_over`.
fn listen<B: Book, A: Actor<B>>(
    alloc: Global,
    _script: &Script,
    book: &mut B,
    player: &mut Player<A>,
    k: u32,
) -> bool
    requires seat { B.knows book.old (A.seat player.old.actor) }
    requires of_run { IsOfRun _script.now (player_of B.config B.node B.actor B.seen A.seat A.view player.old) }
    requires running { player.old.fate ≡ Fate.Running }
    requires comes { IsReceived _script.now.config _script.now (B.seen (A.seat player.old.actor)) (B.node (A.seat player.old.actor))
        (B.actor (A.seat player.old.actor)) k }
    ensures seat { B.knows book.new (A.seat player.new.actor) }
    ensures moved { B.moved (B.node (A.seat player.old.actor)) (B.actor (A.seat player.old.actor)) book.old book.new }
    ensures of_run { IsOfRun _script.now (player_of B.config B.node B.actor B.seen A.seat A.view player.new) }
    ensures went { HasGoneOn (player_of B.config B.node B.actor B.seen A.seat A.view player.old)
        (player_of B.config B.node B.actor B.seen A.seat A.view player.new) }
    ensures works { result ≡ true → player.new.fate ≡ Fate.Running }
    ensures heard { result ≡ true → HasTaken k (A.view player.old.actor) (A.view player.new.actor) }
    ensures again { result ≡ false → player.new.fate ≡ Fate.Running → WasRestarted (A.view player.old.actor) (A.view player.new.actor) }
{
    let restarts = player.actor.restarts();
    let mut out = Outbox::new(alloc);
    player.fate = hear(alloc, book, &mut player.actor, k, &mut out);
    has_kept(player.fate, restarts, player.actor.restarts())
}

// Whether an actor with this fate works, and was not restarted between these counts of restarts.
fn has_kept(fate: Fate, before: u8, after: u8) -> bool
    ensures { result ≡ (is_running_fate fate && (before == after)) }
{
    is_running(fate) && before == after
}
