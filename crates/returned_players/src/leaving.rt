//! How a run ends whose workers have all returned.
ghost use Rattle.std.specs.Prelude.{◌≡◌, ℕ, ◌+◌, length, All, IfOk, OnOk};
ghost use Rattle.std.specs.List.Sorted.{IsNonDecreasingBy};
ghost use Rattle.ledger_run.specs.Team.{names_below};
ghost use Rattle.last_deliveries.specs.Settling.{player_of, players_of, seats_at};
ghost use Rattle.run_closing.specs.Returning.{IsBack, IsLiarBack, HaveReturned};
ghost use Rattle.returned_players.specs.Ordering.{place_number};
ghost use Rattle.returned_players.specs.Leaving.{IsLeft};
ghost use Rattle.returned_players.specs.Marking.{EndsIfMarked};

use crate::ends::ends_of;
use crate::marking::end_noted;
use crate::seats::seats_of;
use actor_cell::Marks;
use hb_base::Gate;
use hb_rules::{Actor, End};
use last_deliveries::settle;
use net_script::Script;
use post_book::NamedBook;
use std::alloc::{AllocError, Global};
use step_driver::Player;

/// What a run leaves.
#[derive(Drop)]
pub struct Left<S> {
    /// The ends of the actors of the correct nodes, by node and then actor.
    pub ends: Vec<End>,
    /// The seats of all that came back: of the actors in the same order, and then of the nodes that lie.
    pub seats: Vec<S>,
}

/// Ends a run whose workers have returned, with all its actors in order and all seats of its nodes that lie. An actor that
/// works and whose mailbox refused a number ends for want of memory. What is left to deliver is delivered, and each gives its
/// end and its seat. Err is as of `settle`.
pub fn finish<B, A, G>(
    alloc: Global,
    script: &Script,
    book: B,
    players: Vec<Player<A>>,
    liars: Vec<B::Seat>,
    noted: &Marks,
    gate: &G,
) -> Result<Left<B::Seat>, AllocError>
where
    B: NamedBook + Drop,
    A: Actor<B>,
    G: Gate,
    requires seats { All (λ player. B.knows book (A.seat player.actor)) players.items }
    requires back { All (λ player. IsBack script.now (player_of B.config B.node B.actor B.seen A.seat A.view player)) players.items }
    requires in_order { IsNonDecreasingBy (place_number B.node B.actor A.seat) players.items }
    requires of_book { All (λ seat. B.knows book seat) liars.items }
    requires liars { All (IsLiarBack script.now) (seats_at B.config B.node B.actor B.seen liars.items) }
    requires all { length players.items + length liars.items ≡ length (names_below script.now.config script.now.config.n) }
    ensures left { IfOk result (λ left. IsLeft script.now (seats_at B.config B.node B.actor B.seen left.seats.items) left.ends.items) }
    ensures of_book { IfOk result (λ left. All (B.knows book) left.seats.items) }
    ensures noted { IfOk result (λ left. All (λ e. EndsIfMarked noted.now e.node e.actor e.fate) left.ends.items) }
{
    let mut book = book;
    let mut players = players;
    let mut liars = liars;
    end_and_settle(
        alloc,
        script,
        &mut book,
        &mut players,
        &mut liars,
        noted,
        gate,
    )?;
    let ends = ends_of::<B, A>(alloc, players.as_slice())?;
    let seats = seats_of::<B, A>(alloc, players, liars)?;
    Ok(Left { ends, seats })
}

// Ends the noted actors, and delivers what is left.
fn end_and_settle<B: NamedBook, A: Actor<B>, G: Gate>(
    alloc: Global,
    script: &Script,
    book: &mut B,
    players: &mut Vec<Player<A>>,
    liars: &mut Vec<B::Seat>,
    noted: &Marks,
    gate: &G,
) -> Result<(), AllocError>
    requires seats { All (λ player. B.knows book.old (A.seat player.actor)) players.old.items }
    requires back { All (λ player. IsBack script.now (player_of B.config B.node B.actor B.seen A.seat A.view player)) players.old.items }
    requires in_order { IsNonDecreasingBy (place_number B.node B.actor A.seat) players.old.items }
    requires of_book { All (λ seat. B.knows book.old seat) liars.old.items }
    requires liars { All (IsLiarBack script.now) (seats_at B.config B.node B.actor B.seen liars.old.items) }
    requires all { length players.old.items + length liars.old.items ≡ length (names_below script.now.config script.now.config.n) }
    ensures book { B.name book.new ≡ B.name book.old }
    ensures seats { All (λ player. B.knows book.new (A.seat player.actor)) players.new.items }
    ensures of_book { All (λ seat. B.knows book.new seat) liars.new.items }
    ensures returned { OnOk result ((m : ℕ) × HaveReturned script.now m (players_of B.config B.node B.actor B.seen A.seat A.view players.new.items)
        (seats_at B.config B.node B.actor B.seen liars.new.items)) }
    ensures noted { OnOk result (All (λ p. EndsIfMarked noted.now p.seat.node p.seat.actor p.fate) (players_of B.config B.node B.actor B.seen A.seat A.view players.new.items)) }
{
    end_noted::<B, A>(players, noted);
    settle(alloc, script, book, players, liars, gate)?;
    Ok(())
}
