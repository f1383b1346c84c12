//! Votes of HoneyBadgerBFT as bytes, and where they go: one spelling for each vote, read and written.
#![tactic(auto)]

ghost use Rattle.std.specs.Prelude.{◌≡◌, ◌↔◌, ℕ, List, ◌++◌, Some};
ghost use Rattle.std.specs.Bool.{Decides};
ghost use Rattle.hb_wire.specs.declared.fault.WireFault.{WireFault};
ghost use Rattle.hb_wire.specs.declared.glimpse.Glance.{Glance};
ghost use Rattle.hb_wire.specs.declared.items.Item.{Item};
ghost use Rattle.hb_wire.specs.declared.post.Post.{Post};
ghost use Rattle.hb_wire.specs.declared.post.Lie.{Lie};
ghost use Rattle.hb_wire.specs.declared.vote.To.{To};
ghost use Rattle.hb_wire.specs.declared.vote.Vals.{Vals};
ghost use Rattle.hb_wire.specs.declared.vote.Vote.{Vote};
ghost use Rattle.hb_wire.specs.Votes.{Spells};
ghost use Rattle.hb_wire.specs.Reading.{vote_at};

mod batches;
mod fault;
mod fields;
mod glances;
mod glimpse;
mod items;
mod items_view;
mod kinds;
mod lengths;
mod post;
mod post_bytes;
mod reading;
mod spoken;
mod vote;
mod vote_view;
mod writing;

pub use batches::{batch_at, batch_len, one_batch, read_batch, write_batch};
pub use fault::WireFault;
pub use glances::{glance, item};
pub use glimpse::Glance;
pub use items::{Item, Items};
pub use items_view::ItemsView;
pub use post::{Lie, Post, reaches};
pub use post_bytes::PostBytes;
pub use reading::{read, read_shared, view};
pub use spoken::Spoken;
pub use vote::{To, Vals, Vote};
pub use vote_view::VoteView;
pub use writing::{front_of_delivered, write};

/// What is read of a byte string is the one vote that it spells. No spelling goes on as another, and no
/// bytes spell two votes: where two spellings begin the same bytes they are equal, and so are the votes.
pub fn spelling_laws()
    ensures read { (n version : ℕ) (bytes : List ℕ) (vote : Vote) → (vote_at n version bytes ≡ Some vote) ↔ Spells n version bytes vote }
    ensures one { (n version : ℕ) (a b x y : List ℕ) (v w : Vote) → Spells n version a v → Spells n version b w
        → a ++ x ≡ b ++ y → (a ≡ b) × (v ≡ w) }
{}

/// What `==` answers: true exactly where the two are the same, of one kind and with the same fields. It compares bytes
/// and items in their order.
pub fn equality_laws()
    ensures votes { (v w : Vote) → Decides (⟦<Vote as PartialEq>⟧.eq v w) (v ≡ w) }
    ensures lists { (xs ys : List Item) → Decides (⟦<Items as PartialEq>⟧.eq xs ys) (xs ≡ ys) }
    ensures items { (x y : Item) → Decides (⟦<Item as PartialEq>⟧.eq x y) (x ≡ y) }
    ensures posts { (p q : Post) → Decides (⟦<Post as PartialEq>⟧.eq p q) (p ≡ q) }
    ensures lies { (p q : Lie) → Decides (⟦<Lie as PartialEq>⟧.eq p q) (p ≡ q) }
    ensures addresses { (a b : To) → Decides (⟦<To as PartialEq>⟧.eq a b) (a ≡ b) }
    ensures glances { (g h : Glance) → Decides (⟦<Glance<'static> as PartialEq>⟧.eq g h)
        ((g.kind ≡ h.kind) × (g.epoch ≡ h.epoch) × (g.rest.now ≡ h.rest.now)) }
    ensures faults { (a b : WireFault) → Decides (⟦<WireFault as PartialEq>⟧.eq a b) (a ≡ b) }
    ensures sets { (a b : Vals) → Decides (⟦<Vals as PartialEq>⟧.eq a b) (a ≡ b) }
{}
