//! Whether a run's binary agreements agree.

ghost use Rattle.std.specs.Prelude.{◌≡◌, ◌↔◌, IsTrue};
ghost use Rattle.hb_rules.specs.History.{IsLegal};
ghost use Rattle.hb_rules.specs.Strings.{NoCollision};
ghost use Rattle.aba_world.specs.Agreed.{IsAgreed};

use crate::marks::{Kind, all_agree, marked};
use hb_rules::Report;

/// Whether in each lane and epoch of a run all correct nodes' Decided votes carry one bit, and some correct node has posted
/// this bit as its estimate of round 0 (Mostéfaoui, Moumen and Raynal, PODC 2014). It is so for each legal history in which
/// no two hashed strings share a digest, under both versions of the rules. It takes no memory.
///
/// It goes through the posts twice and reads each post's bytes once a time, so time is linear in the bytes of the history;
/// then it looks once at each of the 512 lanes and epochs.
pub fn decided_agree(report: &Report) -> bool
    ensures exact { IsTrue result ↔ IsAgreed report.now.config report.now.history.items }
    ensures legal { IsLegal report.now.config report.now.history.items → NoCollision report.now.config report.now.history.items → IsTrue result }
{
    let config = &report.config;
    // what this call ensures says that the numbers of the run are sound
    let _sound = config.liars();
    let posts = report.history.as_slice();
    let begun = marked(config, Kind::Beginning, posts);
    let decided = marked(config, Kind::Decision, posts);
    all_agree(&begun, &decided)
}
