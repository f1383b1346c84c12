//! How an actor takes numbers from its mailbox, and puts those of its posts into the mailboxes of others.

ghost use Rattle.std.specs.Prelude.{◌≡◌, ℕ, ◌+◌, ◌<◌, ◌≤◌, true, false, [], ◌∷◌, ◌++◌, IfNone, MatchOption};
ghost use Rattle.std.specs.List.{flat_map, range_with_len};
ghost use Rattle.hb_base.specs.NodeSet.{is_in};
ghost use Rattle.mailbox.specs.Interleaving.{HasAll};
ghost use Rattle.actor_cell.specs.Marks.{is_marked};
ghost use Rattle.actor_cell.specs.Passes.{ArePassesOf, own_puts};
ghost use Rattle.actor_cell.specs.Mail.{delivery, at_node, at_liar, at_correct, if_reached, by_shape, of_post, copies, sent_of, AreSent};

use crate::boxes::Boxes;
use crate::marks::Marks;
use crate::passes::Passes;
use hb_wire::{Post, reaches};
use net_script::{Script, Shape, shape};
use std::marker::Model;
use std::sync::Wait;
use step_driver::reaches_node;

/// The mailboxes of a run with the passes of one actor, and the actors whose mailbox refused a number of it. Clauses see a
/// `MailView`.
#[derive(Drop)]
pub struct Mail<'b> {
    boxes: &'b Boxes,
    passes: Passes,
    noted: Marks,
}

impl<'b> Model for Mail<'b> {
    ghost use Rattle.actor_cell.specs.Passes.{ArePassesOf};
    ghost use Rattle.actor_cell.specs.Mail.{MailView};

    ghost Value = { MailView };

    ghost view = { λ m. record { boxes = m.boxes.now; passes = m.passes; noted = m.noted } };

    ghost invariant = { λ m. ArePassesOf m.boxes.now m.passes };
}

impl<'b> Mail<'b> {
    /// The mailboxes of a run, and the passes of one actor, or of a node that lies. Nobody is noted.
    pub fn new(boxes: &'b Boxes, passes: Passes) -> Mail<'b>
        requires { ArePassesOf boxes.now passes }
        ensures boxes { result.boxes ≡ boxes.now }
        ensures passes { result.passes ≡ passes }
        ensures noted { (i x : ℕ) → is_marked result.noted i x ≡ false }
    {
        Mail {
            boxes,
            passes,
            noted: Marks::new(),
        }
    }

    /// The actors whose mailbox refused a number. A node that lies is noted as actor 0.
    pub fn noted(&self) -> Marks
        ensures { result ≡ self.now.noted }
    {
        self.noted
    }

    /// Takes a number from the own mailbox, as `Boxes::take`.
    pub fn take<R: Wait>(&mut self, rt: &R) -> Option<u32>
        ensures boxes { self.new.boxes ≡ self.old.boxes }
        ensures place { self.new.passes.place ≡ self.old.passes.place }
        ensures sent { sent_of self.new ≡ sent_of self.old }
        ensures joined { self.new.passes.take.joined ≡ self.old.passes.take.joined }
        ensures asked { self.new.passes.take.asked ≡ self.old.passes.take.asked + 1 }
        ensures empty { IfNone result (HasAll self.old.passes.take.joined self.old.passes.take.taken) }
        ensures own { IfNone result (HasAll (own_puts self.old.passes ∷ []) self.old.passes.take.taken) }
        ensures looked { IfNone result (self.new.passes.take.saw_empty ≡ true) }
        ensures taken { MatchOption result (self.new.passes.take.taken ≡ self.old.passes.take.taken)
            (λ number. self.new.passes.take.taken ≡ self.old.passes.take.taken ++ number ∷ []) }
    {
        self.boxes.take(rt, &mut self.passes)
    }

    // Puts one number for an actor, or for its node if it lies. Where the mailbox refuses it, the actor is noted.
    fn put<R: Wait>(&mut self, rt: &R, node: u8, actor: u8, k: u32)
        requires known { (node < self.old.boxes.config.n) × (actor ≤ self.old.boxes.config.n) }
        ensures { AreSent self.old.boxes.config (delivery node actor k ∷ []) self.old self.new }
    {
        // what this call ensures says that a run has 16 nodes at most
        let _n = self.boxes.config().n();
        if self
            .boxes
            .put(rt, &mut self.passes, node, actor, k)
            .is_err()
        {
            self.noted.note(node, actor);
        }
    }

    // Puts one number for an actor, or for its node if it lies, as often as the shape of the post says.
    fn put_by_shape<R: Wait>(
        &mut self,
        rt: &R,
        script: &Script,
        post: &Post,
        node: u8,
        actor: u8,
        k: u32,
    )
        requires known { (node < self.old.boxes.config.n) × (actor ≤ self.old.boxes.config.n) }
        ensures { AreSent self.old.boxes.config (by_shape script.now post.now k node actor) self.old self.new }
    {
        match shape(script, post.from, node, k) {
            Shape::Drop => {}
            Shape::Once | Shape::Late => self.put(rt, node, actor, k),
            Shape::Twice => {
                self.put(rt, node, actor, k);
                self.put(rt, node, actor, k);
            }
        }
    }

    // The same, if the post reaches the actor.
    fn send_to_actor<R: Wait>(
        &mut self,
        rt: &R,
        script: &Script,
        post: &Post,
        node: u8,
        actor: u8,
        k: u32,
    )
        requires known { (node < self.old.boxes.config.n) × (actor ≤ self.old.boxes.config.n) }
        ensures { AreSent self.old.boxes.config (if_reached self.old.boxes.config script.now post.now k node actor) self.old self.new }
    {
        if reaches(self.boxes.config().n(), post, node, actor) {
            self.put_by_shape(rt, script, post, node, actor, k);
        }
    }

    // Puts the number of a post for the actors of a correct node that it reaches.
    fn send_to_correct<R: Wait>(&mut self, rt: &R, script: &Script, post: &Post, node: u8, k: u32)
        requires known { node < self.old.boxes.config.n }
        ensures { AreSent self.old.boxes.config (at_correct self.old.boxes.config script.now post.now k node) self.old self.new }
    {
        let n = self.boxes.config().n();
        for actor in 0..n + 1 {
            self.send_to_actor(rt, script, post, node, actor, k);
        }
    }

    // Puts the number of a post for a node that lies, if it reaches an actor of it.
    fn send_to_liar<R: Wait>(&mut self, rt: &R, script: &Script, post: &Post, node: u8, k: u32)
        requires known { node < self.old.boxes.config.n }
        ensures { AreSent self.old.boxes.config (at_liar self.old.boxes.config script.now post.now k node) self.old self.new }
    {
        if reaches_node(&self.boxes.config(), post, node) {
            self.put_by_shape(rt, script, post, node, 0, k);
        }
    }

    // Puts the number of a post for one node.
    fn send_to_node<R: Wait>(&mut self, rt: &R, script: &Script, post: &Post, node: u8, k: u32)
        requires known { node < self.old.boxes.config.n }
        ensures { AreSent self.old.boxes.config (at_node self.old.boxes.config script.now post.now k node) self.old self.new }
    {
        if self.boxes.config().liars().has(node) {
            self.send_to_liar(rt, script, post, node, k);
        } else {
            self.send_to_correct(rt, script, post, node, k);
        }
    }

    /// Puts the number of a post, by shape, for all whom it reaches: one that is dropped not at all, one that comes twice twice.
    /// An actor whose mailbox refuses it is noted, and a node that lies as its actor 0.
    pub fn send<R: Wait>(&mut self, rt: &R, script: &Script, post: &Post, k: u32)
        ensures { AreSent self.old.boxes.config (of_post self.old.boxes.config script.now post.now k) self.old self.new }
    {
        let n = self.boxes.config().n();
        for node in 0..n {
            self.send_to_node(rt, script, post, node, k);
        }
    }
}
