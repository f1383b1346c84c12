//! Laws of schedules. They hold for every order of events, whatever posts are heard, heard again or never heard, whichever
//! actors stop, and whatever liars post, under both versions of the rules. The function does nothing: what it ensures are the
//! laws.

ghost use Rattle.std.specs.Prelude.{ℕ, List};
ghost use Rattle.hb_base.specs.Numbers.{Numbers, AreSound};
ghost use Rattle.hb_rules.specs.History.{IsLegal};
ghost use Rattle.schedule_theorem.specs.Schedule.{AreSubmittable, Event, world_after};

/// Where each transaction is one that may be submitted, the history of the world is legal after each list of events.
pub fn schedule_laws()
    ensures legal { (c : Numbers) (submitted : ℕ → List (List ℕ)) (events : List Event) → AreSound c → AreSubmittable submitted
        → IsLegal c (world_after c submitted events).history }
{}
