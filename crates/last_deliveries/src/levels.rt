//! How many posts actors and the seats of liars have seen.

ghost use Rattle.std.specs.Prelude.{◌≡◌, ◌≤◌, true, length, All};
ghost use Rattle.std.specs.List.{AllZip};
ghost use Rattle.last_deliveries.specs.Catching.{HasLooked, IsLevelWith};
ghost use Rattle.last_deliveries.specs.Settling.{player_of, players_of, seats_at, IsOfRun, HasWatched};

use crate::reading::{ends_by, is_level};
use hb_base::limits::MOST_POSTS;
use hb_rules::{Actor, Book, Fate};
use net_script::Script;
use post_book::NamedBook;
use step_driver::Player;

// Whether each actor that works has seen this many posts, and each other no more. They look at the book.
pub(crate) fn are_level<B: NamedBook, A: Actor<B>>(
    script: &Script,
    book: &mut B,
    players: &mut Vec<Player<A>>,
    count: u32,
) -> bool
    requires seats { All (λ player. B.knows book.old (A.seat player.actor)) players.old.items }
    requires players { All (IsOfRun script.now) (players_of B.config B.node B.actor B.seen A.seat A.view players.old.items) }
    ensures book { B.name book.new ≡ B.name book.old }
    ensures seats { All (λ player. B.knows book.new (A.seat player.actor)) players.new.items }
    ensures players { All (IsOfRun script.now) (players_of B.config B.node B.actor B.seen A.seat A.view players.new.items) }
    ensures looked { AllZip HasLooked (players_of B.config B.node B.actor B.seen A.seat A.view players.old.items)
        (players_of B.config B.node B.actor B.seen A.seat A.view players.new.items) }
    ensures level { result ≡ true → All (IsLevelWith count) (players_of B.config B.node B.actor B.seen A.seat A.view players.new.items) }
{
    let mut level = true;
    for number in 0..players.len() {
        let player = &mut players[number];
        if !stands_by(script, book, player, count) {
            level = false;
        }
    }
    level
}

// Whether an actor that works has seen this many posts, or another no more.
fn stands_by<B: Book, A: Actor<B>>(
    _script: &Script,
    book: &mut B,
    player: &mut Player<A>,
    count: u32,
) -> bool
    requires seat { B.knows book.old (A.seat player.old.actor) }
    requires of_run { IsOfRun _script.now (player_of B.config B.node B.actor B.seen A.seat A.view player.old) }
    ensures seat { B.knows book.new (A.seat player.new.actor) }
    ensures moved { B.moved (B.node (A.seat player.old.actor)) (B.actor (A.seat player.old.actor)) book.old book.new }
    ensures of_run { IsOfRun _script.now (player_of B.config B.node B.actor B.seen A.seat A.view player.new) }
    ensures looked { HasLooked (player_of B.config B.node B.actor B.seen A.seat A.view player.old)
        (player_of B.config B.node B.actor B.seen A.seat A.view player.new) }
    ensures level { result ≡ true → IsLevelWith count (player_of B.config B.node B.actor B.seen A.seat A.view player.new) }
{
    match player.fate {
        Fate::Running => is_level(book, &mut player.actor, count),
        Fate::Full => count >= MOST_POSTS,
        Fate::Memory | Fate::Journal => ends_by(book, &mut player.actor, count),
    }
}

// The greatest of this number and of the counts of posts that these seats have seen, after a look of each at the book.
pub(crate) fn highest<B: NamedBook>(book: &mut B, seats: &mut Vec<B::Seat>, least: u32) -> u32
    requires seats { All (λ seat. B.knows book.old seat) seats.old.items }
    ensures book { B.name book.new ≡ B.name book.old }
    ensures seats { All (λ seat. B.knows book.new seat) seats.new.items }
    ensures watched { AllZip HasWatched (seats_at B.config B.node B.actor B.seen seats.old.items) (seats_at B.config B.node B.actor B.seen seats.new.items) }
    ensures least { least ≤ result }
    ensures most { All (λ seat. length seat.seen ≤ result) (seats_at B.config B.node B.actor B.seen seats.new.items) }
{
    let mut most = least;
    for number in 0..seats.len() {
        let count = book.posts(&mut seats[number]);
        if count > most {
            most = count;
        }
    }
    most
}
