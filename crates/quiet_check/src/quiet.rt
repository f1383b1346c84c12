ghost use Rattle.std.specs.Prelude.{◌≡◌, ◌<◌, ◌≤◌, ◌↔◌, true, map, IsTrue, IfOk};
ghost use Rattle.std.specs.Arc.{arc_value};
ghost use Rattle.hb_rules.specs.Hearing.{heard_of};
ghost use Rattle.hb_rules.specs.Owing.{slots_of};
ghost use Rattle.hb_rules.specs.Report.{submitted_at, cast_by, IsSettled, IsQuiet};
ghost use Rattle.hb_rules.specs.Slots.{IsIdle};
ghost use Rattle.quiet_check.specs.Receipts.{AreReceived, is_sent};
ghost use Rattle.lane_progress.specs.Calm.{IsLossless};
ghost use Rattle.quiet_check.specs.Ends.{IsEndQuiet};
ghost use Rattle.quiet_check.specs.Finished.{IsFinished};

use crate::desks::is_desk_idle;
use crate::ends::are_actors;
use crate::lanes::is_lane_idle;
use crate::receipts::{are_received, has_received, sent_posts};
use crate::votes::{hearings_of, votes_of};
use coin_deal::{Deal, deal};
use hb_rules::{End, Fate, Report};
use std::alloc::{AllocError, Global};
use std::sync::Arc;

/// Whether a report is quiet: whether nothing is left to do in its run. Each actor of each correct node has its end, has
/// received only what comes to it, and if it works has received all that it has to and owes nothing. It answers exactly for
/// any report, legal or not. Err where there was no memory.
///
/// A quiet run whose running nodes lost nothing is calm. All that calm runs come to holds of it: what a correct node delivered,
/// all running nodes did, and what a running node proposed; where all have begun an agreement, all decided or one spent its
/// rounds; and all closed every epoch, or one spent its rounds (CCS 2016, sections 4.2 to 4.4).
///
/// It goes through the actors one after the other: for each through the history once, and through what it received, each time
/// reading the bytes of its own posts and of those that it received. So for each node time is near linear in the history.
pub fn is_quiet(alloc: Global, report: &Report) -> Result<bool, AllocError>
    ensures exact { IfOk result (λ answer. IsTrue answer ↔ IsQuiet report.now) }
    ensures calm { IfOk result (λ answer. answer ≡ true → IsLossless report.now → IsFinished report.now) }
{
    let all = are_actors(alloc, &report.config, report.ends.as_slice())?;
    if !all {
        return Ok(false);
    }
    let dealt = Arc::new(alloc, deal(alloc, &report.config)?)?;
    let sent = sent_posts(alloc, report)?;
    for end in &report.ends {
        let is_quiet = is_end_quiet(alloc, report, &dealt, sent.as_slice(), end)?;
        if !is_quiet {
            return Ok(false);
        }
    }
    Ok(true)
}

// Whether nothing is left to do for an actor.
fn is_end_quiet(
    alloc: Global,
    report: &Report,
    dealt: &Arc<Deal, Global>,
    sent: &[bool],
    end: &End,
) -> Result<bool, AllocError>
    requires dealt { arc_value dealt.now ≡ report.now.config }
    requires sent { sent.now ≡ map (is_sent report.now) report.now.history.items }
    requires node { end.now.node < report.now.config.n }
    requires actor { end.now.actor ≤ report.now.config.n }
    ensures { IfOk result (λ quiet. IsTrue quiet ↔ IsEndQuiet report.now end.now) }
{
    let received = are_received(report, end);
    if !received {
        return Ok(false);
    }
    let works = matches!(end.fate, Fate::Running);
    if !works {
        return Ok(true);
    }
    is_settled(alloc, report, dealt, sent, end)
}

// Whether an actor has received all that it has to, and owes nothing.
fn is_settled(
    alloc: Global,
    report: &Report,
    dealt: &Arc<Deal, Global>,
    sent: &[bool],
    end: &End,
) -> Result<bool, AllocError>
    requires dealt { arc_value dealt.now ≡ report.now.config }
    requires sent { sent.now ≡ map (is_sent report.now) report.now.history.items }
    requires received { AreReceived report.now end.now }
    requires node { end.now.node < report.now.config.n }
    requires actor { end.now.actor ≤ report.now.config.n }
    ensures { IfOk result (λ settled. IsTrue settled ↔ IsSettled report.now end.now) }
{
    let all = has_received(alloc, report, sent, end)?;
    if !all {
        return Ok(false);
    }
    owes_nothing(alloc, report, dealt, end)
}

// Whether an actor owes nothing, by all that it has cast and all that it heard.
fn owes_nothing(
    alloc: Global,
    report: &Report,
    dealt: &Arc<Deal, Global>,
    end: &End,
) -> Result<bool, AllocError>
    requires dealt { arc_value dealt.now ≡ report.now.config }
    requires received { AreReceived report.now end.now }
    requires node { end.now.node < report.now.config.n }
    requires actor { end.now.actor ≤ report.now.config.n }
    ensures { IfOk result (λ idle. IsTrue idle
        ↔ IsIdle (slots_of report.now.config (submitted_at report.now.script end.now.node) end.now.node end.now.actor)
        (cast_by report.now end.now.node end.now.actor)
        (heard_of report.now.config end.now.node end.now.actor report.now.history.items end.now.got.items)) }
{
    let config = &report.config;
    let own = votes_of(alloc, report, end)?;
    let heard = hearings_of(alloc, report, end)?;
    if end.actor < config.n() {
        return is_lane_idle(
            alloc,
            config,
            dealt,
            end.node,
            end.actor,
            own.as_slice(),
            heard.as_slice(),
        );
    }
    Ok(is_desk_idle(config, own.as_slice(), heard.as_slice()))
}
