//! The contract of an actor, over any kind of book, and why an actor ends.
ghost use Rattle.std.specs.Prelude.{◌≡◌, ◌+◌, ◌≤◌, ◌⊎◌, true, false, [], ◌∷◌, ◌++◌, length, IfOk, IfErr, IsOk, OnOk, OnErr, IsErrOf, slice_get};
ghost use Rattle.hb_base.specs.Outside.{Rose};
ghost use Rattle.disk_model.specs.Supply.{IsNamed};
ghost use Rattle.hb_base.specs.Limits.{most_posts, most_stops};
ghost use Rattle.hb_rules.specs.Ledger.{IsPrefix};
ghost use Rattle.hb_rules.specs.Book.{Watched};
ghost use Rattle.hb_rules.specs.Same.{firsts};
ghost use Rattle.hb_rules.specs.Terms.{AreProper, cast_in};
ghost use Rattle.hb_rules.specs.Actor.{ActorView, budget, Goes, IsStillOff, IsOnAgain, IsFew, OwesNothing, ReachesActor, AreSeen, Told, IsUnfailed, IsUnfailedAgain, AreCastAgain, LeavesAlone};

use crate::book::Book;
use crate::outbox::Outbox;
use disk_model::Note;
use hb_wire::Post;
use std::alloc::{AllocError, AllocFailed, Global};
use thiserror::Error;

/// Why an actor ended, or was stopped.
#[derive(Clone, Copy, Debug, PartialEq, Eq, Error)]
pub enum ActorFault {
    /// Its disk failed. With any other fault the disk has not failed in the call, and has lost no power: it is on, or it was
    /// off and was not switched on.
    #[error("the journal failed")]
    Journal,
    /// The book was full when it had a vote to post.
    #[error("the book is full")]
    Full,
    #[error("out of memory")]
    Memory,
}

impl From<AllocError> for ActorFault {
    ghost use Rattle.hb_rules.specs.declared.actor.ActorFault.TheVariants.{Memory};

    ghost from_gives = { λ _ fault. fault ≡ Memory };

    fn from(_: AllocError) -> ActorFault {
        ActorFault::Memory
    }
}

impl<T: Drop> From<AllocFailed<T>> for ActorFault {
    ghost use Rattle.hb_rules.specs.declared.actor.ActorFault.TheVariants.{Memory};

    ghost from_gives = { λ _ fault. fault ≡ Memory };

    fn from(_: AllocFailed<T>) -> ActorFault {
        ActorFault::Memory
    }
}

/// A lane or a desk of a correct node: it keeps what it casts in a journal, posts it by its seat of a book, and goes on
/// from its journal after a loss of power. It uses the book by its own seat alone.
pub trait Actor<B: Book>: Drop {
    ghost seat: { Self → B.Seat };

    /// By what it goes, and in which state it is.
    ghost view: { Self → ActorView };

    /// Its node.
    fn node(&self) -> u8
        ensures { result ≡ (view self.now).terms.node };

    /// Its number: a lane's is below n, the desk's is n.
    fn actor(&self) -> u8
        ensures { result ≡ (view self.now).terms.actor };

    /// Whether it works: it was started, and the last call succeeded.
    fn is_live(&self) -> bool
        ensures { result ≡ (view self.now).live };

    /// Whether its disk is without power.
    fn is_off(&self) -> bool
        ensures { result ≡ (view self.now).supply.off };

    /// How often its disk was switched on again.
    fn restarts(&self) -> u8
        ensures { result ≡ (view self.now).restarts };

    /// How many stops of its disk's plan are still to come.
    fn stops_left(&self) -> u8
        ensures { result ≡ (view self.now).supply.stops };

    /// How far its disk has come.
    fn note(&self) -> Note
        ensures { result ≡ (view self.now).supply.calls };

    /// The numbers of the posts that it received since it began or was restarted, in order.
    fn got(&self) -> &[u32]
        ensures { result.now ≡ (view self.now).got };

    /// What holds of it in every state. The call does nothing.
    fn kept(&self)
        ensures is { (B.config (seat self.now) ≡ (view self.now).terms.config) × (B.node (seat self.now) ≡ (view self.now).terms.node)
            × (B.actor (seat self.now) ≡ (view self.now).terms.actor) }
        ensures few { IsFew (view self.now).terms (B.seen (seat self.now)) (1 + (view self.now).restarts) }
        ensures proper { AreProper (view self.now).terms [] (firsts (cast_in (view self.now).terms (B.seen (seat self.now)))) }
        ensures bound { budget (view self.now).restarts (view self.now).supply ≤ most_stops }
        ensures fresh { (view self.now).fresh ≡ true → ((view self.now).got ≡ []) × ((view self.now).restarts ≡ 0) }
        ensures unused { (view self.now).fresh ≡ true → cast_in (view self.now).terms (B.seen (seat self.now)) ≡ [] }
        ensures begins_on { (view self.now).fresh ≡ true → (view self.now).supply.off ≡ false }
        ensures seen { (view self.now).live ≡ true → AreSeen (view self.now).terms (B.seen (seat self.now)) (view self.now).got }
        ensures power { (view self.now).live ≡ true → (view self.now).supply.off ≡ false }
        ensures idle { (view self.now).live ≡ true → OwesNothing (view self.now).terms (B.seen (seat self.now)) (view self.now).got };

    /// A copy of post k of the book: None exactly where fewer posts stand. It may be called in any state, and changes
    /// nothing but what the seat has seen.
    fn read(&mut self, book: &mut B, k: u32) -> Result<Option<Post>, AllocError>
        requires seat { B.knows book.old (seat self.old) }
        ensures seat { B.knows book.new (seat self.new) }
        ensures same { (B.config (seat self.new) ≡ B.config (seat self.old)) × (B.node (seat self.new) ≡ B.node (seat self.old))
            × (B.actor (seat self.new) ≡ B.actor (seat self.old)) }
        ensures moved { B.moved (B.node (seat self.old)) (B.actor (seat self.old)) book.old book.new }
        ensures whole { B.is_whole book.old book.new (seat self.old) (seat self.new) }
        ensures watched { Watched (B.config (seat self.old)) (B.node (seat self.old)) (B.actor (seat self.old))
            (B.seen (seat self.old)) (B.seen (seat self.new)) }
        ensures found { IfOk result (λ post. post ≡ slice_get (B.seen (seat self.new)) k) }
        ensures none { length (B.seen (seat self.new)) ≤ k → IsOk result }
        ensures still { view self.new ≡ view self.old };

    /// Recovers its journal and casts what is owed. It is called once, before any other.
    fn start(&mut self, alloc: Global, book: &mut B, out: &mut Outbox) -> Result<(), ActorFault>
        requires seat { B.knows book.old (seat self.old) }
        requires fresh { (view self.old).fresh ≡ true }
        ensures seat { B.knows book.new (seat self.new) }
        ensures same { (B.config (seat self.new) ≡ B.config (seat self.old)) × (B.node (seat self.new) ≡ B.node (seat self.old))
            × (B.actor (seat self.new) ≡ B.actor (seat self.old)) }
        ensures moved { B.moved (B.node (seat self.old)) (B.actor (seat self.old)) book.old book.new }
        ensures seen { IsPrefix (B.seen (seat self.old)) (B.seen (seat self.new)) }
        ensures goes { Goes (view self.old) (view self.new) }
        ensures live { OnOk result ((view self.new).live ≡ true) }
        ensures ended { OnErr result ((view self.new).live ≡ false) }
        ensures told { (IsErrOf result ActorFault.Memory → ⊥)
            → Told (view self.old).terms (B.seen (seat self.old)) (B.seen (seat self.new)) out.old out.new }
        ensures full { IsErrOf result ActorFault.Full → length (B.seen (seat self.new)) ≡ most_posts }
        ensures journal { IfErr result (λ fault. fault ≡ ActorFault.Journal
            → Rose (view self.old).faults (view self.new).faults × IsNamed (view self.new).supply) }
        ensures unfailed { (IsErrOf result ActorFault.Journal → ⊥) → IsUnfailed (view self.old) (view self.new) }
        ensures got { (view self.new).got ≡ [] }

        // Where nothing is owed at first it casts nothing, so that no book is too full for it.
        ensures owed { OwesNothing (view self.old).terms (B.seen (seat self.old)) [] → (IsErrOf result ActorFault.Full → ⊥)
            × (cast_in (view self.old).terms (B.seen (seat self.new)) ≡ cast_in (view self.old).terms (B.seen (seat self.old))) }
        ensures restarts { (view self.new).restarts ≡ (view self.old).restarts };

    /// Hears post k and casts what is then owed.
    fn step(
        &mut self,
        alloc: Global,
        book: &mut B,
        k: u32,
        out: &mut Outbox,
    ) -> Result<(), ActorFault>
        requires seat { B.knows book.old (seat self.old) }
        requires live { (view self.old).live ≡ true }
        requires post { ReachesActor (B.config (seat self.old)) (B.seen (seat self.old)) (B.node (seat self.old)) (B.actor (seat self.old)) k }
        ensures seat { B.knows book.new (seat self.new) }
        ensures same { (B.config (seat self.new) ≡ B.config (seat self.old)) × (B.node (seat self.new) ≡ B.node (seat self.old))
            × (B.actor (seat self.new) ≡ B.actor (seat self.old)) }
        ensures moved { B.moved (B.node (seat self.old)) (B.actor (seat self.old)) book.old book.new }
        ensures seen { IsPrefix (B.seen (seat self.old)) (B.seen (seat self.new)) }
        ensures goes { Goes (view self.old) (view self.new) }
        ensures live { OnOk result ((view self.new).live ≡ true) }
        ensures ended { OnErr result ((view self.new).live ≡ false) }
        ensures told { (IsErrOf result ActorFault.Memory → ⊥)
            → Told (view self.old).terms (B.seen (seat self.old)) (B.seen (seat self.new)) out.old out.new }
        ensures full { IsErrOf result ActorFault.Full → length (B.seen (seat self.new)) ≡ most_posts }
        ensures journal { IfErr result (λ fault. fault ≡ ActorFault.Journal
            → Rose (view self.old).faults (view self.new).faults × IsNamed (view self.new).supply) }
        ensures unfailed { (IsErrOf result ActorFault.Journal → ⊥) → IsUnfailed (view self.old) (view self.new) }
        ensures got { OnOk result ((view self.new).got ≡ (view self.old).got ++ k ∷ []) }
        ensures kept { ((view self.new).got ≡ (view self.old).got) ⊎ ((view self.new).got ≡ (view self.old).got ++ k ∷ []) }

        // Where it has not received the post, memory was wanting before anything was done.
        ensures unheard { (view self.new).got ≡ (view self.old).got → IsErrOf result ActorFault.Memory × (out.new ≡ out.old)
            × LeavesAlone (view self.old) (view self.new) (B.seen (seat self.old)) (B.seen (seat self.new)) }

        // Where nothing is owed then, nothing but memory can be wanting.
        ensures owed { OwesNothing (view self.old).terms (B.seen (seat self.old)) ((view self.old).got ++ k ∷ [])
            → IfErr result (λ fault. fault ≡ ActorFault.Memory)
            × LeavesAlone (view self.old) (view self.new) (B.seen (seat self.old)) (B.seen (seat self.new)) }
        ensures restarts { (view self.new).restarts ≡ (view self.old).restarts };

    /// Switches the disk on, recovers the journal, forgets what was received, posts every vote of the journal again and
    /// then casts what is owed.
    fn restart(&mut self, alloc: Global, book: &mut B, out: &mut Outbox) -> Result<(), ActorFault>
        requires seat { B.knows book.old (seat self.old) }
        requires off { (view self.old).supply.off ≡ true }
        ensures seat { B.knows book.new (seat self.new) }
        ensures same { (B.config (seat self.new) ≡ B.config (seat self.old)) × (B.node (seat self.new) ≡ B.node (seat self.old))
            × (B.actor (seat self.new) ≡ B.actor (seat self.old)) }
        ensures moved { B.moved (B.node (seat self.old)) (B.actor (seat self.old)) book.old book.new }
        ensures seen { IsPrefix (B.seen (seat self.old)) (B.seen (seat self.new)) }
        ensures goes { Goes (view self.old) (view self.new) }
        ensures live { OnOk result ((view self.new).live ≡ true) }
        ensures ended { OnErr result ((view self.new).live ≡ false) }
        ensures told { (IsErrOf result ActorFault.Memory → ⊥)
            → Told (view self.old).terms (B.seen (seat self.old)) (B.seen (seat self.new)) out.old out.new }
        ensures full { IsErrOf result ActorFault.Full → length (B.seen (seat self.new)) ≡ most_posts }
        ensures journal { IfErr result (λ fault. fault ≡ ActorFault.Journal
            → Rose (view self.old).faults (view self.new).faults × IsNamed (view self.new).supply) }
        ensures unfailed { (IsErrOf result ActorFault.Journal → ⊥) → IsUnfailedAgain (view self.old) (view self.new) }
        ensures again { OnOk result (AreCastAgain (view self.old).terms (B.seen (seat self.old)) (B.seen (seat self.new))) }
        ensures on { OnOk result (IsOnAgain (view self.old) (view self.new)) }
        ensures failed { IsErrOf result ActorFault.Journal → IsOnAgain (view self.old) (view self.new) }
        ensures either { IsStillOff (view self.old) (view self.new) ⊎ IsOnAgain (view self.old) (view self.new) }

        // Where it was not switched on, memory was wanting, and it has not looked at the book.
        ensures still { IsStillOff (view self.old) (view self.new) → IsErrOf result ActorFault.Memory × (out.new ≡ out.old)
            × (B.seen (seat self.new) ≡ B.seen (seat self.old)) };

    /// Shows a seat of the same book what the actor has seen. It may be called in any state, and takes no memory.
    fn show(&mut self, book: &mut B, to: &mut B::Seat)
        requires seat { B.knows book.old (seat self.old) }
        requires other { B.knows book.old to.old }
        ensures seat { B.knows book.new (seat self.new) }
        ensures other { B.knows book.new to.new }
        ensures moved { B.moved (B.node to.old) (B.actor to.old) book.old book.new }
        ensures same { (B.config to.new ≡ B.config to.old) × (B.node to.new ≡ B.node to.old) × (B.actor to.new ≡ B.actor to.old) }
        ensures watched { Watched (B.config to.old) (B.node to.old) (B.actor to.old) (B.seen to.old) (B.seen to.new) }
        ensures longer { (B.seen to.new ≡ B.seen to.old) ⊎ (B.seen to.new ≡ B.seen (seat self.old)) }
        ensures both { IsPrefix (B.seen (seat self.old)) (B.seen to.new) }
        ensures kept { (B.config (seat self.new) ≡ B.config (seat self.old)) × (B.node (seat self.new) ≡ B.node (seat self.old))
            × (B.actor (seat self.new) ≡ B.actor (seat self.old)) × (B.seen (seat self.new) ≡ B.seen (seat self.old)) }
        ensures still { view self.new ≡ view self.old };

    /// Hands the seat back, in any state. It takes no memory.
    fn into_seat(self) -> B::Seat
        ensures { result ≡ seat self };
}
