//! Hearing a post.
ghost use Rattle.std.specs.Prelude.{◌≡◌, ◌≤◌, ◌<◌, ◌⊎◌, ℕ, List, [], ◌∷◌, ◌++◌, OnOk, OnErr, IfErr, IsErrOf, true, slice_get, Some};
ghost use Rattle.hb_wire.specs.Addresses.{reaches};
ghost use Rattle.hb_rules.specs.Actor.{IsFew, AreSeen, ReachesActor, OwesNothing};
ghost use Rattle.hb_rules.specs.Hearing.{Hearing};
ghost use Rattle.hb_rules.specs.Room.{KeepsRoom};
ghost use Rattle.hb_rules.specs.Terms.{AreLawful, cast_in, heard_got};
ghost use Rattle.vote_journal.specs.Text.{text_of};
ghost use Rattle.vote_journal.specs.Usable.{disk_of};
ghost use Rattle.hb_rules.specs.Book.{Watched};
ghost use Rattle.hb_wire.specs.declared.vote.Vote.{Vote};
ghost use Rattle.hb_wire.specs.declared.post.Post.{Post};
ghost use Rattle.journaled_actor.specs.Folding.{IsReady};
ghost use Rattle.journaled_actor.specs.Going.{SeatGoes, DiskGoes};
ghost use Rattle.journaled_actor.specs.Kept.{IsOf, IsSafe, IsOpen, HearsPost};

use crate::casting::cast;
use crate::cores::Core;
use disk_model::Disk;
use hb_rules::{ActorFault, Book, Due, Outbox, hear};
use hb_wire::Post;
use std::alloc::{AllocError, Global};
use vote_journal::Journal;

// What the core makes of a post, if it hears anything of it: the votes that are owed then.
fn hear_post<C: Core>(
    alloc: Global,
    post: &Post,
    core: &mut C,
    due: &mut Due,
) -> Result<(), AllocError>
    requires reaches { reaches (C.terms core.old).config.n post.now (C.terms core.old).node (C.terms core.old).actor ≡ true }
    requires known { post.now.from < (C.terms core.old).config.n }
    requires stands { (own : List Vote) × (heard : List Hearing) × C.stands core.old own heard }
    ensures terms { C.terms core.new ≡ C.terms core.old }
    ensures owed { OnOk result ((own : List Vote) (heard : List Hearing) → C.stands core.old own heard → (C.terms core.old).owed own heard ≡ []
        → HearsPost (C.terms core.old) post.now own heard due.old.votes due.new.votes (C.stands core.new)) }
    ensures keeps_room { KeepsRoom due.old due.new }
{
    let heard = hear(alloc, &core.config(), post, core.node(), core.actor())?;
    match heard {
        None => Ok(()),
        Some(heard) => core.hear(alloc, heard.from, &heard.spoken, due),
    }
}

// Receives post k: what the core makes of it. Where memory is wanting it is not received.
fn receive<B: Book, C: Core>(
    alloc: Global,
    k: u32,
    core: &mut C,
    seat: &mut B::Seat,
    book: &mut B,
    got: &mut Vec<u32>,
    due: &mut Due,
) -> Result<(), AllocError>
    requires seat { B.knows book.old seat.old }
    requires is { IsOf (C.terms core.old) (B.config seat.old) (B.node seat.old) (B.actor seat.old) }
    requires post { ReachesActor (C.terms core.old).config (B.seen seat.old) (C.terms core.old).node (C.terms core.old).actor k }
    requires stands { (own : List Vote) × (heard : List Hearing) × C.stands core.old own heard }
    ensures terms { C.terms core.new ≡ C.terms core.old }
    ensures seat { B.knows book.new seat.new }
    ensures same { (B.config seat.new ≡ B.config seat.old) × (B.node seat.new ≡ B.node seat.old) × (B.actor seat.new ≡ B.actor seat.old) }
    ensures moved { B.moved (B.node seat.old) (B.actor seat.old) book.old book.new }
    ensures watched { Watched (B.config seat.old) (B.node seat.old) (B.actor seat.old) (B.seen seat.old) (B.seen seat.new) }
    ensures got { OnOk result (got.new.items ≡ got.old.items ++ k ∷ []) }
    ensures unheard { OnErr result (got.new.items ≡ got.old.items) }
    ensures owed { OnOk result ((post : Post) × (slice_get (B.seen seat.new) k ≡ Some post) × ((own : List Vote) (heard : List Hearing)
        → C.stands core.old own heard → (C.terms core.old).owed own heard ≡ []
        → HearsPost (C.terms core.old) post own heard due.old.votes due.new.votes (C.stands core.new))) }
    ensures keeps_room { KeepsRoom due.old due.new }
{
    let found = book.reread(seat, k)?;
    let post = found.unwrap();
    got.reserve(1)?;
    hear_post(alloc, &post, core, due)?;
    got.push_reserved(k);
    Ok(())
}

/// Receives post k, and casts what is owed then. Of `due` the code uses the room alone, so that no delivery asks for room that
/// one before has had; a clause says that it has no less afterwards (`KeepsRoom`).
pub(crate) fn advance<B: Book, D: Disk, C: Core>(
    alloc: Global,
    k: u32,
    core: &mut C,
    journal: &mut Journal<D>,
    seat: &mut B::Seat,
    book: &mut B,
    got: &mut Vec<u32>,
    due: &mut Due,
    out: &mut Outbox,
) -> Result<(), ActorFault>
    requires seat { B.knows book.old seat.old }
    requires is { IsOf (C.terms core.old) (B.config seat.old) (B.node seat.old) (B.actor seat.old) }
    requires lawful { AreLawful (C.terms core.old) }
    requires post { ReachesActor (C.terms core.old).config (B.seen seat.old) (C.terms core.old).node (C.terms core.old).actor k }
    requires ready { IsReady D.seen D.may_leave journal.old }
    requires got { AreSeen (C.terms core.old) (B.seen seat.old) got.old.items }
    requires opened { IsOpen (C.terms core.old) (B.seen seat.old) (text_of (D.seen (disk_of journal.old))) (C.stands core.old)
        (heard_got (C.terms core.old) (B.seen seat.old) got.old.items) }
    ensures terms { C.terms core.new ≡ C.terms core.old }
    ensures seat { SeatGoes B.config B.node B.actor B.seen B.knows B.moved (C.terms core.old)
        seat.old seat.new book.old book.new out.old out.new result }
    ensures safe { IsSafe (C.terms core.old) (B.seen seat.new) (D.may_leave (disk_of journal.new)) }
    ensures ready { OnOk result (IsReady D.seen D.may_leave journal.new) }
    ensures opened { OnOk result (IsOpen (C.terms core.old) (B.seen seat.new) (text_of (D.seen (disk_of journal.new))) (C.stands core.new)
        (heard_got (C.terms core.old) (B.seen seat.new) (got.old.items ++ k ∷ []))) }
    ensures got { OnOk result (got.new.items ≡ got.old.items ++ k ∷ []) }
    ensures kept { (got.new.items ≡ got.old.items) ⊎ (got.new.items ≡ got.old.items ++ k ∷ []) }
    ensures unheard { got.new.items ≡ got.old.items → IsErrOf result ActorFault.Memory × (out.new ≡ out.old) × (journal.new ≡ journal.old)
        × (cast_in (C.terms core.old) (B.seen seat.new) ≡ cast_in (C.terms core.old) (B.seen seat.old)) }
    ensures owed { OwesNothing (C.terms core.old) (B.seen seat.old) (got.old.items ++ k ∷ [])
        → IfErr result (λ fault. fault ≡ ActorFault.Memory) × (journal.new ≡ journal.old)
        × (cast_in (C.terms core.old) (B.seen seat.new) ≡ cast_in (C.terms core.old) (B.seen seat.old)) }
    ensures few { (most : ℕ) → 1 ≤ most → IsFew (C.terms core.old) (B.seen seat.old) most → IsFew (C.terms core.old) (B.seen seat.new) most }
    ensures disk { DiskGoes D.supply D.faults D.explains (disk_of journal.old) (disk_of journal.new) result }
    ensures keeps_room { KeepsRoom due.old due.new }
{
    due.clear();
    receive(alloc, k, core, seat, book, got, due)?;
    cast(alloc, due.votes(), core, journal, seat, book, out)
}
