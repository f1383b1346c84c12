//! An actor over its journal.
ghost use Rattle.std.specs.Prelude.{◌≡◌, [], true, false, Contains};
ghost use Rattle.disk_model.specs.Image.{Image};
ghost use Rattle.hb_wire.specs.declared.vote.Vote.{Vote};
ghost use Rattle.hb_rules.specs.Terms.{cast_in};
ghost use Rattle.vote_journal.specs.Calls.{IsEmpty};
ghost use Rattle.journaled_actor.specs.Images.{HasVote};
ghost use Rattle.journaled_actor.specs.Kept.{IsOf, actor_view};

use crate::beginning::take_up;
use crate::cores::Core;
use crate::stepping::advance;
use disk_model::{Note, Power};
use hb_base::limits::MOST_STOPS;
use hb_rules::{Actor, ActorFault, Book, Due, Outbox};
use hb_wire::Post;
use std::alloc::{AllocError, Global};
use std::marker::Model;
use vote_journal::Journal;

/// An actor of a correct node, over any kind of book, of disk and of core. Each vote that it has posted stands in every image
/// that a crash may leave. Clauses see its parts.
#[derive(Drop)]
pub struct JournaledActor<B: Book, D: Power + Drop, C: Core> {
    seat: B::Seat,
    core: C,
    journal: Journal<D>,
    fresh: bool,
    live: bool,
    got: Vec<u32>,
    restarts: u8,
    // The votes that became due last. Each delivery uses their room again.
    due: Due,
}

impl<B: Book, D: Power + Drop, C: Core> Model for JournaledActor<B, D, C> {
    ghost use Rattle.hb_rules.specs.Terms.{heard_got};
    ghost use Rattle.vote_journal.specs.Text.{text_of};
    ghost use Rattle.vote_journal.specs.Usable.{disk_of};
    ghost use Rattle.journaled_actor.specs.Folding.{IsReady};
    ghost use Rattle.journaled_actor.specs.Kept.{ActorParts, IsKept, IsOpen};

    ghost Value = { ActorParts B.Seat D C };

    ghost view = { λ a. record {
      seat = a.seat;
      disk = disk_of a.journal;
      core = a.core;
      fresh = a.fresh;
      live = a.live;
      got = a.got.items;
      restarts = a.restarts;
    } };

    ghost invariant = { λ a. IsKept (C.terms a.core) (B.config a.seat) (B.node a.seat) (B.actor a.seat) (B.seen a.seat)
        (D.may_leave (disk_of a.journal)) (D.supply (disk_of a.journal))
        (IsReady D.seen D.may_leave a.journal × IsOpen (C.terms a.core) (B.seen a.seat) (text_of (D.seen (disk_of a.journal)))
        (C.stands a.core) (heard_got (C.terms a.core) (B.seen a.seat) a.got.items))
        a.fresh a.live a.got.items a.restarts };
}

impl<B: Book, D: Power + Drop, C: Core> JournaledActor<B, D, C> {
    /// An actor that was never started, with its seat and its disk, which is empty and on. It takes no memory and touches no
    /// device.
    pub fn new(alloc: Global, core: C, disk: D, seat: B::Seat) -> JournaledActor<B, D, C>
        requires empty { IsEmpty D.seen D.may_leave disk }
        requires on { (D.supply disk).off ≡ false }
        requires is { IsOf (C.terms core) (B.config seat) (B.node seat) (B.actor seat) }
        requires unused { cast_in (C.terms core) (B.seen seat) ≡ [] }
        ensures { result ≡ record { seat = seat; disk = disk; core = core; fresh = true; live = false; got = []; restarts = 0 } }
    {
        core.lawful();
        let stops = disk.stops_left();
        prove!(stops <= MOST_STOPS);
        JournaledActor {
            seat,
            core,
            journal: Journal::shut(alloc, disk),
            fresh: true,
            live: false,
            got: Vec::new(alloc),
            restarts: 0,
            due: Due::new(alloc),
        }
    }

    /// Whatever a crash leaves of its disk now, in any state of the actor: it is sound, and the entries that a recovery gives of
    /// it have each vote that the actor has cast. The call does nothing.
    pub fn kept_in_images(&self)
        ensures { (image : Image) (vote : Vote) → D.may_leave self.now.disk image
            → Contains (cast_in (C.terms self.now.core) (B.seen self.now.seat)) vote → HasVote (C.terms self.now.core).config image vote }
    {
        // What holds of its parts holds of it.
        let _live = self.live;
    }
}

impl<B: Book, D: Power + Drop, C: Core> Actor<B> for JournaledActor<B, D, C> {
    ghost seat = { λ a. a.seat };

    ghost view = { λ a. actor_view C.terms D.supply D.faults a };

    fn node(&self) -> u8 {
        self.core.node()
    }

    fn actor(&self) -> u8 {
        self.core.actor()
    }

    fn is_live(&self) -> bool {
        self.live
    }

    fn is_off(&self) -> bool {
        self.journal.disk().is_off()
    }

    fn restarts(&self) -> u8 {
        self.restarts
    }

    fn stops_left(&self) -> u8 {
        self.journal.disk().stops_left()
    }

    fn note(&self) -> Note {
        self.journal.disk().note()
    }

    fn got(&self) -> &[u32] {
        self.got.as_slice()
    }

    fn kept(&self) {
        // What holds of its parts holds of it.
        let _live = self.live;
    }

    fn read(&mut self, book: &mut B, k: u32) -> Result<Option<Post>, AllocError> {
        book.read(&mut self.seat, k)
    }

    fn start(&mut self, alloc: Global, book: &mut B, out: &mut Outbox) -> Result<(), ActorFault> {
        self.fresh = false;
        let begun = take_up(
            alloc,
            &mut self.core,
            &mut self.journal,
            &mut self.seat,
            book,
            &mut self.due,
            out,
        );
        self.live = begun.is_ok();
        begun
    }

    fn step(
        &mut self,
        alloc: Global,
        book: &mut B,
        k: u32,
        out: &mut Outbox,
    ) -> Result<(), ActorFault> {
        self.fresh = false;
        let heard = advance(
            alloc,
            k,
            &mut self.core,
            &mut self.journal,
            &mut self.seat,
            book,
            &mut self.got,
            &mut self.due,
            out,
        );
        self.live = heard.is_ok();
        heard
    }

    fn restart(&mut self, alloc: Global, book: &mut B, out: &mut Outbox) -> Result<(), ActorFault> {
        self.fresh = false;
        self.live = false;
        self.journal.switch_on()?;
        self.restarts += 1;
        self.got.clear();
        let begun = take_up(
            alloc,
            &mut self.core,
            &mut self.journal,
            &mut self.seat,
            book,
            &mut self.due,
            out,
        );
        self.live = begun.is_ok();
        begun
    }

    fn show(&mut self, book: &mut B, to: &mut B::Seat) {
        book.meet(to, &mut self.seat);
    }

    fn into_seat(self) -> B::Seat {
        let JournaledActor {
            seat,
            core: _,
            journal: _,
            fresh: _,
            live: _,
            got: _,
            restarts: _,
            due: _,
        } = self;
        seat
    }
}
