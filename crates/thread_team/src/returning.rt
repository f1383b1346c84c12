//! What was behind locks is taken out of them.
ghost use Rattle.std.specs.Prelude.{◌≡◌, ◌+◌, ◌<◌, ◌||◌, ℕ, length, All, IfOk, OnOk, sum_by};
ghost use Rattle.actor_cell.specs.Marks.{is_marked};
ghost use Rattle.step_driver.specs.Places.{player_at};
ghost use Rattle.node_workers.specs.Rounds.{locks_of};
ghost use Rattle.thread_team.specs.Returning.{IsOut, IsLiarOut, AreOut, AreNotedToo, StayNoted};

use actor_cell::{Cell, Held, Marks, RunName};
use hb_rules::{Actor, Book};
use liar_cell::{HeldLiar, LiarCell};
use net_script::Script;
use node_workers::Node;
use post_book::NamedBook;
use returned_players::insert_in_order;
use std::alloc::{AllocError, Global};
use step_driver::{Mouth, Player};

/// What came out of the locks of a run.
#[derive(Drop)]
pub struct Returned<A, S> {
    /// The actors of the correct nodes, by node and then actor.
    pub players: Vec<Player<A>>,
    /// The seats of the nodes that lie.
    pub liars: Vec<S>,
    /// The actors whose mailbox refused a number.
    pub noted: Marks,
}

/// Takes all that is at the nodes of a run out of its locks. Err is want of memory.
pub fn take_out<'b, B: NamedBook + Drop, A: Actor<B>, L: Mouth, J: RunName>(
    alloc: Global,
    script: &Script,
    book: &B,
    nodes: Vec<Node<'b, B, A, L, J>>,
) -> Result<Returned<A, B::Seat>, AllocError>
    requires name { B.name book.now ≡ J.book }
    requires script { J.is_script script.now }
    ensures out { IfOk result (λ all. AreOut (B.knows book.now) B.config B.node B.actor B.seen A.seat A.view script.now all) }
    ensures count { IfOk result (λ all. length all.players.items + length all.liars.items ≡ sum_by locks_of nodes.entry.items) }
{
    let mut all = Returned {
        players: Vec::new(alloc),
        liars: Vec::new(alloc),
        noted: Marks::new(),
    };
    for node in nodes {
        take_node(script, book, node, &mut all)?;
    }
    Ok(all)
}

// Takes out all that is at a node.
fn take_node<'b, B: NamedBook + Drop, A: Actor<B>, L: Mouth, J: RunName>(
    script: &Script,
    book: &B,
    node: Node<'b, B, A, L, J>,
    all: &mut Returned<A, B::Seat>,
) -> Result<(), AllocError>
    requires name { B.name book.now ≡ J.book }
    requires script { J.is_script script.now }
    requires out { AreOut (B.knows book.now) B.config B.node B.actor B.seen A.seat A.view script.now all.old }
    ensures out { OnOk result (AreOut (B.knows book.now) B.config B.node B.actor B.seen A.seat A.view script.now all.new) }
    ensures count { OnOk result (length all.new.players.items + length all.new.liars.items
        ≡ length all.old.players.items + length all.old.liars.items + locks_of node.entry) }
    ensures noted { OnOk result (StayNoted all.old.noted all.new.noted) }
{
    match node {
        Node::Correct(cells) => {
            take_actors(script, book, cells, all)?;
            Ok(())
        }
        Node::Lying(liar) => {
            take_liar(script, book, liar.into_liar(), all)?;
            Ok(())
        }
    }
}

// Takes out the actors of a correct node.
fn take_actors<'b, B: NamedBook + Drop, A: Actor<B>, J: RunName>(
    script: &Script,
    book: &B,
    cells: Vec<Cell<'b, B, A, J>>,
    all: &mut Returned<A, B::Seat>,
) -> Result<(), AllocError>
    requires name { B.name book.now ≡ J.book }
    requires script { J.is_script script.now }
    requires out { AreOut (B.knows book.now) B.config B.node B.actor B.seen A.seat A.view script.now all.old }
    ensures out { OnOk result (AreOut (B.knows book.now) B.config B.node B.actor B.seen A.seat A.view script.now all.new) }
    ensures count { OnOk result (length all.new.players.items ≡ length all.old.players.items + length cells.entry.items) }
    ensures liars { OnOk result (all.new.liars.items ≡ all.old.liars.items) }
    ensures noted { OnOk result (StayNoted all.old.noted all.new.noted) }
{
    for cell in cells {
        take_actor(script, book, cell.into_held(), all)?;
    }
    Ok(())
}

// Takes in one actor that came out of its lock, and notes the actors whose mailbox refused a number of it.
fn take_actor<'b, B: NamedBook + Drop, A: Actor<B>, J: RunName>(
    script: &Script,
    book: &B,
    held: Held<'b, B, A, J>,
    all: &mut Returned<A, B::Seat>,
) -> Result<(), AllocError>
    requires name { B.name book.now ≡ J.book }
    requires script { J.is_script script.now }
    requires out { AreOut (B.knows book.now) B.config B.node B.actor B.seen A.seat A.view script.now all.old }
    ensures out { OnOk result (AreOut (B.knows book.now) B.config B.node B.actor B.seen A.seat A.view script.now all.new) }
    ensures count { OnOk result (length all.new.players.items ≡ length all.old.players.items + 1) }
    ensures liars { OnOk result (all.new.liars.items ≡ all.old.liars.items) }
    ensures noted { OnOk result (AreNotedToo held.entry.mail.noted all.old.noted all.new.noted) }
{
    let (player, noted) = out_of(script, book, held);
    all.noted.add_all(&noted);
    insert_in_order::<B, A>(&mut all.players, player)?;
    Ok(())
}

// The actor that a lock held, its fate, and the actors whose mailbox refused a number of it.
fn out_of<'b, B: NamedBook + Drop, A: Actor<B>, J: RunName>(
    script: &Script,
    book: &B,
    held: Held<'b, B, A, J>,
) -> (Player<A>, Marks)
    requires name { B.name book.now ≡ J.book }
    requires script { J.is_script script.now }
    ensures parts { (result.0.actor ≡ held.entry.actor) × (result.0.fate ≡ held.entry.fate) × (result.1 ≡ held.entry.mail.noted) }
    ensures out { IsOut (B.knows book.now) B.config B.node B.actor B.seen A.seat A.view script.now result.0 }
{
    let (actor, fate, noted) = held.into_parts();
    let _ = script;
    let _ = book;
    (Player { actor, fate }, noted)
}

// Takes in a node that lies, which came out of its lock, and notes the actors whose mailbox refused a number of it.
fn take_liar<'b, B: NamedBook + Drop, A: Actor<B>, L: Mouth, J: RunName>(
    script: &Script,
    book: &B,
    liar: HeldLiar<'b, B, L, J>,
    all: &mut Returned<A, B::Seat>,
) -> Result<(), AllocError>
    requires name { B.name book.now ≡ J.book }
    requires script { J.is_script script.now }
    requires out { AreOut (B.knows book.now) B.config B.node B.actor B.seen A.seat A.view script.now all.old }
    ensures out { OnOk result (AreOut (B.knows book.now) B.config B.node B.actor B.seen A.seat A.view script.now all.new) }
    ensures count { OnOk result (length all.new.liars.items ≡ length all.old.liars.items + 1) }
    ensures players { OnOk result (all.new.players.items ≡ all.old.players.items) }
    ensures noted { OnOk result (AreNotedToo liar.entry.mail.noted all.old.noted all.new.noted) }
{
    let (seat, refused) = seat_of(script, book, liar);
    all.noted.add_all(&refused);
    all.liars.push(seat)?;
    Ok(())
}

// The seat of a node that lies, and the actors whose mailbox refused a number of it.
fn seat_of<'b, B: NamedBook + Drop, L: Mouth, J: RunName>(
    script: &Script,
    book: &B,
    liar: HeldLiar<'b, B, L, J>,
) -> (B::Seat, Marks)
    requires name { B.name book.now ≡ J.book }
    requires script { J.is_script script.now }
    ensures noted { result.1 ≡ liar.entry.mail.noted }
    ensures out { IsLiarOut (B.knows book.now) B.config B.node B.actor B.seen script.now result.0 }
{
    let _ = script;
    let _ = book;
    liar.into_parts()
}
