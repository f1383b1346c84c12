//! The laws of the end of a run. The function does nothing: what it ensures are the laws.
ghost use Rattle.std.specs.Prelude.{◌≡◌, ℕ, List, length};
ghost use Rattle.net_script.specs.declared.script.Script.{Script};
ghost use Rattle.hb_rules.specs.Book.{SeatView};
ghost use Rattle.post_book.specs.SharedSeats.{FirstView, AllJoined};
ghost use Rattle.step_driver.specs.Places.{PlayerView};
ghost use Rattle.step_driver.specs.Running.{report_of};
ghost use Rattle.step_driver.specs.declared.run.Done.{Done};
ghost use Rattle.ledger_run.specs.Run.{IsRunOf};
ghost use Rattle.run_closing.specs.Joining.{HasJoined, HasClosedWith};
ghost use Rattle.run_closing.specs.Returning.{seats_of, AreEndsOf};
ghost use Rattle.run_closing.specs.Closing.{IsRunOut};

/// As many seats have come back as were made. Where they were taken in, each that was made was taken in, as `PostBook::close`
/// asks. Once the book was closed with them, and with the ends of the actors, the report is of the run.
pub fn closing_laws()
    ensures as_many { (s : Script) (m : ℕ) (players : List PlayerView) (liars : List SeatView) (first : FirstView)
        → IsRunOut s m players liars first → length (seats_of players liars) ≡ length first.given }
    ensures all { (s : Script) (m : ℕ) (players : List PlayerView) (liars : List SeatView) (first last : FirstView)
        → IsRunOut s m players liars first → HasJoined s.config (seats_of players liars) first last → AllJoined last }
    ensures report { (s : Script) (m : ℕ) (players : List PlayerView) (liars : List SeatView) (first : FirstView) (done : Done)
        → IsRunOut s m players liars first → HasClosedWith s.config (seats_of players liars) first done.history.items
        → AreEndsOf players done.ends.items → IsRunOf s (report_of s.config s done) }
{}
