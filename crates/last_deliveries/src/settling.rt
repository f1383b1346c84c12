//! The posts of a run are read and delivered, until nothing is left to deliver.

ghost use Rattle.std.specs.Prelude.{◌≡◌, ◌≢◌, ℕ, ◌<◌, ◌≤◌, List, [], slice_get, true, false, length, All, IfOk, IfSome, None, OnOk};
ghost use Rattle.std.specs.List.{AllZip};
ghost use Rattle.hb_base.specs.Limits.{most_posts};
ghost use Rattle.hb_wire.specs.declared.post.Post.{Post};
ghost use Rattle.hb_rules.specs.Ledger.{IsPrefix};
ghost use Rattle.last_deliveries.specs.Catching.{HasHeardTo, HasLooked, HasReadAt, HasReadFront};
ghost use Rattle.last_deliveries.specs.Listing.{listing};
ghost use Rattle.last_deliveries.specs.Settling.{player_of, players_of, seats_at, IsOfRun, HasGoneOn, HasWatched, HasHeardNothing, IsSettled};

use crate::catching::catch_up;
use crate::levels::{are_level, highest};
use crate::listing::ListedPosts;
use crate::reading::read_on;
use hb_base::Gate;
use hb_base::limits::MOST_POSTS;
use hb_rules::{Actor, Fate};
use net_script::Script;
use post_book::NamedBook;
use std::alloc::{AllocError, Global};
use step_driver::Player;

/// What the last deliveries of a run came to.
#[derive(Clone, Copy, Debug, PartialEq, Eq)]
pub struct Settled {
    /// How many posts there are: no actor or seat has seen more.
    pub posts: u32,
    /// How many deliveries were made. Clauses say only what 0 means.
    pub deliveries: u64,
}

/// Delivers what is left of a run whose threads have all returned. Posts are read on, and each actor that works hears those
/// of the new ones that come to it and that it has not received. So it goes on until no new ones stand. Before each delivery
/// the gate is entered.
///
/// An actor that a stop leaves without power is restarted at once, and hears all posts that come to it again. One with
/// another refusal ends. So does one that finds no memory to hear a post, for the marks of what it has received, or for the
/// numbers of what it lacks. The others go on. That nobody hears a post again, or one that does not come to it, is read.
///
/// Err is want of memory to read or to list the posts. It is also a book of which somebody has seen more posts than are read
/// in it, or an actor that works fewer; there is no such book. Some posts may have been delivered then, and all that is said
/// of actors and seats holds.
///
/// Each post is read and listed once, and again only where the actor that reads has ended by a full book. An actor looks once
/// at each post in two lists, as `catch_up` tells, and again only after a restart.
pub fn settle<B: NamedBook, A: Actor<B>, G: Gate>(
    alloc: Global,
    script: &Script,
    book: &mut B,
    players: &mut Vec<Player<A>>,
    liars: &mut Vec<B::Seat>,
    gate: &G,
) -> Result<Settled, AllocError>
    requires seats { All (λ player. B.knows book.old (A.seat player.actor)) players.old.items }
    requires players { All (IsOfRun script.now) (players_of B.config B.node B.actor B.seen A.seat A.view players.old.items) }
    requires liars { All (λ seat. B.knows book.old seat) liars.old.items }
    ensures book { B.name book.new ≡ B.name book.old }
    ensures seats { All (λ player. B.knows book.new (A.seat player.actor)) players.new.items }
    ensures players { All (IsOfRun script.now) (players_of B.config B.node B.actor B.seen A.seat A.view players.new.items) }
    ensures went { AllZip HasGoneOn (players_of B.config B.node B.actor B.seen A.seat A.view players.old.items)
        (players_of B.config B.node B.actor B.seen A.seat A.view players.new.items) }
    ensures liars { All (λ seat. B.knows book.new seat) liars.new.items }
    ensures watched { AllZip HasWatched (seats_at B.config B.node B.actor B.seen liars.old.items) (seats_at B.config B.node B.actor B.seen liars.new.items) }
    ensures settled { IfOk result (λ settled. IsSettled script.now (players_of B.config B.node B.actor B.seen A.seat A.view players.new.items)
        (seats_at B.config B.node B.actor B.seen liars.new.items) settled.posts) }
    ensures unheard { IfOk result (λ settled. settled.deliveries ≡ 0 → AllZip HasHeardNothing
        (players_of B.config B.node B.actor B.seen A.seat A.view players.old.items) (players_of B.config B.node B.actor B.seen A.seat A.view players.new.items)) }
{
    let mut deliveries = 0;
    for reader in 0..players.len() {
        match settle_by_one(
            alloc,
            script,
            book,
            players,
            liars,
            gate,
            reader,
            &mut deliveries,
        )? {
            None => {}
            Some(posts) => return Ok(Settled { posts, deliveries }),
        }
    }
    let posts = highest(book, liars, MOST_POSTS);
    Ok(Settled { posts, deliveries })
}

// Whether the actor at this place has not ended by a full book. Of those that have it is known how many posts they have seen.
fn may_read<A>(players: &[Player<A>], place: usize) -> bool
    requires within { place < length players.now }
    ensures reads { result ≡ true → IfSome (slice_get players.now place) (λ player. player.fate ≢ Fate.Full) }
    ensures full { result ≡ false → IfSome (slice_get players.now place) (λ player. player.fate ≡ Fate.Full) }
{
    players[place].fate != Fate::Full
}

// Does so as long as the actor at this place may read the posts. It answers the number of posts where nothing was left to
// deliver, and nothing where that actor has ended by a full book.
fn settle_by_one<B: NamedBook, A: Actor<B>, G: Gate>(
    alloc: Global,
    script: &Script,
    book: &mut B,
    players: &mut Vec<Player<A>>,
    liars: &mut Vec<B::Seat>,
    gate: &G,
    reader: usize,
    deliveries: &mut u64,
) -> Result<Option<u32>, AllocError>
    requires seats { All (λ player. B.knows book.old (A.seat player.actor)) players.old.items }
    requires players { All (IsOfRun script.now) (players_of B.config B.node B.actor B.seen A.seat A.view players.old.items) }
    requires liars { All (λ seat. B.knows book.old seat) liars.old.items }
    requires within { reader < length players.old.items }
    ensures book { B.name book.new ≡ B.name book.old }
    ensures seats { All (λ player. B.knows book.new (A.seat player.actor)) players.new.items }
    ensures players { All (IsOfRun script.now) (players_of B.config B.node B.actor B.seen A.seat A.view players.new.items) }
    ensures went { AllZip HasGoneOn (players_of B.config B.node B.actor B.seen A.seat A.view players.old.items)
        (players_of B.config B.node B.actor B.seen A.seat A.view players.new.items) }
    ensures liars { All (λ seat. B.knows book.new seat) liars.new.items }
    ensures watched { AllZip HasWatched (seats_at B.config B.node B.actor B.seen liars.old.items) (seats_at B.config B.node B.actor B.seen liars.new.items) }
    ensures settled { IfOk result (λ done. IfSome done (IsSettled script.now (players_of B.config B.node B.actor B.seen A.seat A.view players.new.items)
        (seats_at B.config B.node B.actor B.seen liars.new.items))) }
    ensures full { IfOk result (λ done. done ≡ None → IfSome (slice_get players.new.items reader) (λ player. player.fate ≡ Fate.Full)) }
    ensures unheard { deliveries.new ≡ 0 → (deliveries.old ≡ 0) × AllZip HasHeardNothing
        (players_of B.config B.node B.actor B.seen A.seat A.view players.old.items) (players_of B.config B.node B.actor B.seen A.seat A.view players.new.items) }
{
    if !may_read(players.as_slice(), reader) {
        return Ok(None);
    }
    let mut posts = ListedPosts::new(alloc)?;
    let is_all = deliver_all(
        alloc, script, book, players, gate, reader, &mut posts, deliveries,
    )?;
    if !is_all {
        return Ok(None);
    }
    let count = posts.as_slice().len() as u32;
    close(script, book, players, liars, count)?;
    Ok(Some(count))
}

// Reads and delivers, until no new posts stand or the actor at this place may read no more. Whether it has read all: then
// each actor that works has received all of them that come to it.
fn deliver_all<B: NamedBook, A: Actor<B>, G: Gate>(
    alloc: Global,
    script: &Script,
    book: &mut B,
    players: &mut Vec<Player<A>>,
    gate: &G,
    reader: usize,
    posts: &mut ListedPosts,
    deliveries: &mut u64,
) -> Result<bool, AllocError>
    requires seats { All (λ player. B.knows book.old (A.seat player.actor)) players.old.items }
    requires players { All (IsOfRun script.now) (players_of B.config B.node B.actor B.seen A.seat A.view players.old.items) }
    requires within { reader < length players.old.items }
    requires none { posts.old ≡ listing [] 0 }
    ensures book { B.name book.new ≡ B.name book.old }
    ensures seats { All (λ player. B.knows book.new (A.seat player.actor)) players.new.items }
    ensures players { All (IsOfRun script.now) (players_of B.config B.node B.actor B.seen A.seat A.view players.new.items) }
    ensures went { AllZip HasGoneOn (players_of B.config B.node B.actor B.seen A.seat A.view players.old.items)
        (players_of B.config B.node B.actor B.seen A.seat A.view players.new.items) }
    ensures read { IfOk result (λ is_all. is_all ≡ true
        → HasReadAt posts.new.posts reader (players_of B.config B.node B.actor B.seen A.seat A.view players.new.items)) }
    ensures all { IfOk result (λ is_all. is_all ≡ true
        → All (HasHeardTo script.now posts.new.posts (length posts.new.posts)) (players_of B.config B.node B.actor B.seen A.seat A.view players.new.items)) }
    ensures full { IfOk result (λ is_all. is_all ≡ false → IfSome (slice_get players.new.items reader) (λ player. player.fate ≡ Fate.Full)) }
    ensures few { IfOk result (λ _. length posts.new.posts ≤ most_posts) }
    ensures unheard { deliveries.new ≡ 0 → (deliveries.old ≡ 0) × AllZip HasHeardNothing
        (players_of B.config B.node B.actor B.seen A.seat A.view players.old.items) (players_of B.config B.node B.actor B.seen A.seat A.view players.new.items) }
{
    'rounds: while may_read(players.as_slice(), reader) {
        let is_more = read_more(script, book, players, reader, posts)?;
        if !is_more {
            return Ok(true);
        }
        catch_up_each(alloc, script, book, players, posts, gate, deliveries);
    }
    Ok(false)
}

// Reads on by the seat of the actor at this place, so that only what was read now is new. Whether anything is.
fn read_more<B: NamedBook, A: Actor<B>>(
    script: &Script,
    book: &mut B,
    players: &mut Vec<Player<A>>,
    reader: usize,
    posts: &mut ListedPosts,
) -> Result<bool, AllocError>
    requires seats { All (λ player. B.knows book.old (A.seat player.actor)) players.old.items }
    requires players { All (IsOfRun script.now) (players_of B.config B.node B.actor B.seen A.seat A.view players.old.items) }
    requires within { reader < length players.old.items }
    requires reads { IfSome (slice_get players.old.items reader) (λ player. player.fate ≢ Fate.Full) }
    requires front { HasReadFront posts.old.posts reader (players_of B.config B.node B.actor B.seen A.seat A.view players.old.items) }
    requires few { length posts.old.posts ≤ most_posts }
    requires before { All (HasHeardTo script.now posts.old.posts (length posts.old.posts)) (players_of B.config B.node B.actor B.seen A.seat A.view players.old.items) }
    ensures book { B.name book.new ≡ B.name book.old }
    ensures seats { All (λ player. B.knows book.new (A.seat player.actor)) players.new.items }
    ensures players { All (IsOfRun script.now) (players_of B.config B.node B.actor B.seen A.seat A.view players.new.items) }
    ensures looked { AllZip HasLooked (players_of B.config B.node B.actor B.seen A.seat A.view players.old.items)
        (players_of B.config B.node B.actor B.seen A.seat A.view players.new.items) }
    ensures read { IfOk result (λ _. HasReadAt posts.new.posts reader (players_of B.config B.node B.actor B.seen A.seat A.view players.new.items)) }
    ensures few { IfOk result (λ _. length posts.new.posts ≤ most_posts) }
    ensures before { IfOk result (λ _. All (HasHeardTo script.now posts.new.posts posts.new.first) (players_of B.config B.node B.actor B.seen A.seat A.view players.new.items)) }
    ensures more { IfOk result (λ more. more ≡ true → length posts.old.posts < length posts.new.posts) }
    ensures end { IfOk result (λ more. more ≡ false → posts.new.first ≡ length posts.new.posts) }
{
    posts.grow_old();
    read_by(script, book, players, reader, posts)?;
    Ok(posts.has_new())
}

// Reads on by the seat of the actor at this place, until these are all posts.
fn read_by<B: NamedBook, A: Actor<B>>(
    _script: &Script,
    book: &mut B,
    players: &mut Vec<Player<A>>,
    reader: usize,
    posts: &mut ListedPosts,
) -> Result<(), AllocError>
    requires seats { All (λ player. B.knows book.old (A.seat player.actor)) players.old.items }
    requires players { All (IsOfRun _script.now) (players_of B.config B.node B.actor B.seen A.seat A.view players.old.items) }
    requires within { reader < length players.old.items }
    requires reads { IfSome (slice_get players.old.items reader) (λ player. player.fate ≢ Fate.Full) }
    requires front { HasReadFront posts.old.posts reader (players_of B.config B.node B.actor B.seen A.seat A.view players.old.items) }
    requires few { length posts.old.posts ≤ most_posts }
    ensures book { B.name book.new ≡ B.name book.old }
    ensures seats { All (λ player. B.knows book.new (A.seat player.actor)) players.new.items }
    ensures players { All (IsOfRun _script.now) (players_of B.config B.node B.actor B.seen A.seat A.view players.new.items) }
    ensures looked { AllZip HasLooked (players_of B.config B.node B.actor B.seen A.seat A.view players.old.items)
        (players_of B.config B.node B.actor B.seen A.seat A.view players.new.items) }
    ensures more { IsPrefix posts.old.posts posts.new.posts }
    ensures first { posts.new.first ≡ posts.old.first }
    ensures read { IfOk result (λ _. HasReadAt posts.new.posts reader (players_of B.config B.node B.actor B.seen A.seat A.view players.new.items)) }
    ensures few { IfOk result (λ _. length posts.new.posts ≤ most_posts) }
{
    let player = &mut players[reader];
    read_on(book, &mut player.actor, posts)
}

// Lets each actor catch up with these posts.
fn catch_up_each<B: NamedBook, A: Actor<B>, G: Gate>(
    alloc: Global,
    script: &Script,
    book: &mut B,
    players: &mut Vec<Player<A>>,
    posts: &ListedPosts,
    gate: &G,
    deliveries: &mut u64,
)
    requires seats { All (λ player. B.knows book.old (A.seat player.actor)) players.old.items }
    requires players { All (IsOfRun script.now) (players_of B.config B.node B.actor B.seen A.seat A.view players.old.items) }
    requires few { length posts.now.posts ≤ most_posts }
    requires before { All (HasHeardTo script.now posts.now.posts posts.now.first) (players_of B.config B.node B.actor B.seen A.seat A.view players.old.items) }
    ensures book { B.name book.new ≡ B.name book.old }
    ensures seats { All (λ player. B.knows book.new (A.seat player.actor)) players.new.items }
    ensures players { All (IsOfRun script.now) (players_of B.config B.node B.actor B.seen A.seat A.view players.new.items) }
    ensures went { AllZip HasGoneOn (players_of B.config B.node B.actor B.seen A.seat A.view players.old.items)
        (players_of B.config B.node B.actor B.seen A.seat A.view players.new.items) }
    ensures all { All (HasHeardTo script.now posts.now.posts (length posts.now.posts)) (players_of B.config B.node B.actor B.seen A.seat A.view players.new.items) }
    ensures unheard { deliveries.new ≡ 0 → (deliveries.old ≡ 0) × AllZip HasHeardNothing
        (players_of B.config B.node B.actor B.seen A.seat A.view players.old.items) (players_of B.config B.node B.actor B.seen A.seat A.view players.new.items) }
{
    for number in 0..players.len() {
        let player = &mut players[number];
        catch_up(alloc, script, book, player, posts, gate, deliveries);
    }
}

// Looks that nobody has seen more posts than so many, and each actor that works as many. Err: want of memory to look, or that
// it is not so.
fn close<B: NamedBook, A: Actor<B>>(
    script: &Script,
    book: &mut B,
    players: &mut Vec<Player<A>>,
    liars: &mut Vec<B::Seat>,
    count: u32,
) -> Result<(), AllocError>
    requires seats { All (λ player. B.knows book.old (A.seat player.actor)) players.old.items }
    requires players { All (IsOfRun script.now) (players_of B.config B.node B.actor B.seen A.seat A.view players.old.items) }
    requires liars { All (λ seat. B.knows book.old seat) liars.old.items }
    ensures book { B.name book.new ≡ B.name book.old }
    ensures seats { All (λ player. B.knows book.new (A.seat player.actor)) players.new.items }
    ensures players { All (IsOfRun script.now) (players_of B.config B.node B.actor B.seen A.seat A.view players.new.items) }
    ensures went { AllZip HasGoneOn (players_of B.config B.node B.actor B.seen A.seat A.view players.old.items)
        (players_of B.config B.node B.actor B.seen A.seat A.view players.new.items) }
    ensures liars { All (λ seat. B.knows book.new seat) liars.new.items }
    ensures watched { AllZip HasWatched (seats_at B.config B.node B.actor B.seen liars.old.items) (seats_at B.config B.node B.actor B.seen liars.new.items) }
    ensures settled { OnOk result ((posts : List Post) (reader : ℕ) → length posts ≡ count → HasReadAt posts reader (players_of B.config B.node B.actor B.seen A.seat A.view players.old.items)
        → All (HasHeardTo script.now posts (length posts)) (players_of B.config B.node B.actor B.seen A.seat A.view players.old.items)
        → IsSettled script.now (players_of B.config B.node B.actor B.seen A.seat A.view players.new.items) (seats_at B.config B.node B.actor B.seen liars.new.items) count) }
    ensures looked { AllZip HasLooked (players_of B.config B.node B.actor B.seen A.seat A.view players.old.items)
        (players_of B.config B.node B.actor B.seen A.seat A.view players.new.items) }
{
    let is_level = are_level(script, book, players, count);
    let most = highest(book, liars, count);
    if is_level && most <= count {
        return Ok(());
    }
    Err(AllocError)
}
