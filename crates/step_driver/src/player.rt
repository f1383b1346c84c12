//! An actor of a correct node, and how it fares in a run.

ghost use Rattle.std.specs.Prelude.{◌≡◌, ◌⊎◌, ◌++◌, ◌∷◌, [], true, false, length, IfOk, IfErr, IfSome, OnOk, OnErr, None, Some};
ghost use Rattle.hb_rules.specs.Actor.{ReachesActor, IsStillOff, IsOnAgain};
ghost use Rattle.hb_rules.specs.Book.{IsSeatOf};
ghost use Rattle.hb_rules.specs.Report.{is_running_fate, IsReceived};
ghost use Rattle.net_script.specs.declared.script.Script.{Script};
ghost use Rattle.step_driver.specs.Places.{player_view};
ghost use Rattle.step_driver.specs.Delivering.{IsPlayer, Plays};
ghost use Rattle.step_driver.specs.Playing.{HasLooked, EndsOr, IsRefused, IsReady, Called, fate_of, may_restart};

use crate::coming::{comes_found, count_posts};
use hb_rules::{Actor, ActorFault, Fate, Outbox, PlainBook};
use net_script::Script;
use std::alloc::{AllocError, Global};

/// An actor of a correct node, and its fate so far.
#[derive(Drop)]
pub struct Player<A> {
    /// The actor.
    pub actor: A,
    /// Running, until it has ended.
    pub fate: Fate,
}

/// Whether an actor with this fate still works.
pub fn is_running(fate: Fate) -> bool
    ensures { result ≡ is_running_fate fate }
{
    match fate {
        Fate::Running => true,
        Fate::Memory | Fate::Journal | Fate::Full => false,
    }
}

/// The fate of an actor that ends with this fault.
pub fn fate_of(fault: ActorFault) -> Fate
    ensures { result ≡ fate_of fault }
{
    match fault {
        ActorFault::Journal => Fate::Journal,
        ActorFault::Full => Fate::Full,
        ActorFault::Memory => Fate::Memory,
    }
}

/// Whether an actor is restarted after a fault: a stop has left its disk without power.
pub fn may_restart(fault: ActorFault, is_off: bool) -> bool
    ensures { result ≡ may_restart fault is_off }
{
    match fault {
        ActorFault::Journal => is_off,
        ActorFault::Full | ActorFault::Memory => false,
    }
}

impl<A: Actor<PlainBook>> Player<A> {
    // Its node, by the actor's seat.
    pub(crate) fn node(&self) -> u8
        ensures { result ≡ (A.seat self.now.actor).node }
    {
        self.actor.kept();
        self.actor.node()
    }

    // Its number, by the actor's seat.
    pub(crate) fn actor(&self) -> u8
        ensures { result ≡ (A.seat self.now.actor).actor }
    {
        self.actor.kept();
        self.actor.actor()
    }

    // Starts it. Where a stop was met and it was restarted, it answers how many posts stood before the restart that succeeded.
    pub(crate) fn start(
        &mut self,
        alloc: Global,
        _script: &Script,
        book: &mut PlainBook,
    ) -> Option<u32>
        requires seat { IsSeatOf book.old (A.seat self.old.actor) }
        requires player { IsPlayer book.old.config _script.now false (player_view A.seat A.view self.old) }
        ensures plays { Plays _script.now (length book.new.posts) book.old book.new (player_view A.seat A.view self.old) (player_view A.seat A.view self.new) result }
        ensures works { self.old.fate ≡ Fate.Running → (A.view self.new.actor).live ≡ true → self.new.fate ≡ Fate.Running }
    {
        if !is_running(self.fate) {
            return None;
        }
        match self.call_start(alloc, book) {
            Ok(()) => None,
            Err(fault) => self.fail(alloc, book, fault),
        }
    }

    // Delivers post k to it, if the actor works and the post comes to it. The answer is that of `start`.
    pub(crate) fn hear(
        &mut self,
        alloc: Global,
        script: &Script,
        book: &mut PlainBook,
        k: u32,
    ) -> Option<u32>
        requires seat { IsSeatOf book.old (A.seat self.old.actor) }
        requires player { IsPlayer book.old.config script.now true (player_view A.seat A.view self.old) }
        ensures { Plays script.now k book.old book.new (player_view A.seat A.view self.old) (player_view A.seat A.view self.new) result }
    {
        if !is_running(self.fate) {
            return None;
        }
        match self.look(script, book, k) {
            Err(_) => {
                self.fate = Fate::Memory;
                None
            }
            Ok(comes) => {
                if !comes {
                    return None;
                }
                self.step(alloc, script, book, k)
            }
        }
    }

    // Whether post k stands and comes to it. It shows the actor the whole history.
    fn look(&mut self, script: &Script, book: &mut PlainBook, k: u32) -> Result<bool, AllocError>
        requires seat { IsSeatOf book.old (A.seat self.old.actor) }
        ensures looked { HasLooked book.old book.new (player_view A.seat A.view self.old) (player_view A.seat A.view self.new) }
        ensures comes { IfOk result (λ comes. comes ≡ true
            → IsReceived book.old.config script.now (A.seat self.new.actor).seen (A.seat self.new.actor).node (A.seat self.new.actor).actor k) }
        ensures stays { IfOk result (λ comes. comes ≡ false
            → IsReceived book.old.config script.now (A.seat self.new.actor).seen (A.seat self.new.actor).node (A.seat self.new.actor).actor k → ⊥) }
    {
        let config = book.config();
        let found = self.actor.read(book, k)?;
        let node = self.node();
        let actor = self.actor();
        Ok(comes_found(&config, script, &found, node, actor, k))
    }

    // Lets it hear a post that comes to it.
    fn step(&mut self, alloc: Global, script: &Script, book: &mut PlainBook, k: u32) -> Option<u32>
        requires ready { IsReady script.now k book.old (player_view A.seat A.view self.old) }
        ensures plays { Plays script.now k book.old book.new (player_view A.seat A.view self.old) (player_view A.seat A.view self.new) result }
        ensures works { (A.view self.new.actor).live ≡ true → self.new.fate ≡ Fate.Running }
    {
        match self.call_step(alloc, book, k) {
            Ok(()) => None,
            Err(fault) => self.fail(alloc, book, fault),
        }
    }

    // Restarts it while a stop has left it without power. Another refusal ends it, and so does a fault that leaves the power on.
    fn fail(&mut self, alloc: Global, book: &mut PlainBook, fault: ActorFault) -> Option<u32>
        requires seat { IsSeatOf book.old (A.seat self.old.actor) }
        requires running { self.old.fate ≡ Fate.Running }
        requires refused { IsRefused fault (player_view A.seat A.view self.old) }
        ensures { EndsOr book.old book.new (player_view A.seat A.view self.old) (player_view A.seat A.view self.new) result }
    {
        let mut fault = fault;
        'off: while may_restart(fault, self.actor.is_off()) {
            let stood = count_posts(book);
            match self.call_restart(alloc, book) {
                Ok(()) => return Some(stood),
                Err(next) => fault = next,
            }
        }
        self.fate = fate_of(fault);
        None
    }

    // The actor's `start`.
    fn call_start(&mut self, alloc: Global, book: &mut PlainBook) -> Result<(), ActorFault>
        requires seat { IsSeatOf book.old (A.seat self.old.actor) }
        requires fresh { (A.view self.old.actor).fresh ≡ true }
        ensures called { Called book.old book.new (player_view A.seat A.view self.old) (player_view A.seat A.view self.new) }
        ensures had { (A.view self.old.actor).got ≡ [] }
        ensures got { (A.view self.new.actor).got ≡ [] }
        ensures live { OnOk result ((A.view self.new.actor).live ≡ true) }
        ensures refused { IfErr result (λ fault. IsRefused fault (player_view A.seat A.view self.new)) }
    {
        self.actor.kept();
        let mut out = Outbox::new(alloc);
        self.actor.start(alloc, book, &mut out)
    }

    // The actor's `step`.
    fn call_step(&mut self, alloc: Global, book: &mut PlainBook, k: u32) -> Result<(), ActorFault>
        requires seat { IsSeatOf book.old (A.seat self.old.actor) }
        requires live { (A.view self.old.actor).live ≡ true }
        requires reaches { ReachesActor (A.seat self.old.actor).config (A.seat self.old.actor).seen (A.seat self.old.actor).node (A.seat self.old.actor).actor k }
        ensures called { Called book.old book.new (player_view A.seat A.view self.old) (player_view A.seat A.view self.new) }
        ensures got { OnOk result ((A.view self.new.actor).got ≡ (A.view self.old.actor).got ++ k ∷ []) }
        ensures kept { ((A.view self.new.actor).got ≡ (A.view self.old.actor).got) ⊎ ((A.view self.new.actor).got ≡ (A.view self.old.actor).got ++ k ∷ []) }
        ensures live { OnOk result ((A.view self.new.actor).live ≡ true) }
        ensures refused { IfErr result (λ fault. IsRefused fault (player_view A.seat A.view self.new)) }
    {
        let mut out = Outbox::new(alloc);
        self.actor.step(alloc, book, k, &mut out)
    }

    // The actor's `restart`.
    fn call_restart(&mut self, alloc: Global, book: &mut PlainBook) -> Result<(), ActorFault>
        requires seat { IsSeatOf book.old (A.seat self.old.actor) }
        requires off { (A.view self.old.actor).supply.off ≡ true }
        ensures called { Called book.old book.new (player_view A.seat A.view self.old) (player_view A.seat A.view self.new) }
        ensures either { IsStillOff (A.view self.old.actor) (A.view self.new.actor) ⊎ IsOnAgain (A.view self.old.actor) (A.view self.new.actor) }
        ensures on { OnOk result (IsOnAgain (A.view self.old.actor) (A.view self.new.actor)) }
        ensures live { OnOk result ((A.view self.new.actor).live ≡ true) }
        ensures again { IfErr result (λ fault. fault ≡ ActorFault.Journal → IsOnAgain (A.view self.old.actor) (A.view self.new.actor)) }
        ensures refused { IfErr result (λ fault. IsRefused fault (player_view A.seat A.view self.new)) }
    {
        let mut out = Outbox::new(alloc);
        self.actor.restart(alloc, book, &mut out)
    }
}
