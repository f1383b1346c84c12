//! Actors that missed a post.
ghost use Rattle.std.specs.Prelude.{◌≡◌, map};
ghost use Rattle.returned_players.specs.Marking.{ended_by};

use actor_cell::Marks;
use hb_rules::{Actor, Book, Fate};
use step_driver::{Player, is_running};

/// Ends each actor that works and whose mailbox refused a number, for want of memory.
pub fn end_noted<B: Book, A: Actor<B>>(players: &mut Vec<Player<A>>, noted: &Marks)
    ensures { players.new.items ≡ map (ended_by B.node B.actor A.seat noted.now) players.old.items }
{
    for player in players.iter_mut() {
        end_if_noted::<B, A>(player, noted);
    }
}

// The same for one.
fn end_if_noted<B: Book, A: Actor<B>>(player: &mut Player<A>, noted: &Marks)
    ensures { player.new ≡ ended_by B.node B.actor A.seat noted.now player.old }
{
    player.actor.kept();
    if is_running(player.fate) && noted.has(player.actor.node(), player.actor.actor()) {
        player.fate = Fate::Memory;
    }
}
