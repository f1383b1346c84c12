ghost use Rattle.std.specs.Prelude.{◌≡◌, ℕ, ◌<◌, ◌==◌, ◌↔◌, false, map, length, slice_index_or, IsTrue, IfOk};
ghost use Rattle.std.specs.List.{list_any};
ghost use Rattle.hb_rules.specs.Report.{is_drop, comes_to, works, IsReceived};
ghost use Rattle.quiet_check.specs.Receipts.{AreReceived, HasReceived, is_sent, IsMarkedAt, AreMarked};

use hb_rules::{End, Report, works};
use hb_wire::{Post, reaches};
use net_script::{Shape, shape_by};
use std::alloc::{AllocError, Global};

// Whether all posts that an actor has received have come to it.
pub(crate) fn are_received(report: &Report, end: &End) -> bool
    ensures { IsTrue result ↔ AreReceived report.now end.now }
{
    for number in &end.got {
        let right = is_received(report, end, *number);
        if !right {
            return false;
        }
    }
    true
}

// Whether the post with this number has come to an actor.
fn is_received(report: &Report, end: &End, number: u32) -> bool
    ensures { IsTrue result ↔ IsReceived report.now.config report.now.script report.now.history.items end.now.node end.now.actor number }
{
    let place = number as usize;
    if place >= report.history.len() {
        return false;
    }
    comes_to(report, &report.history[place], end, place)
}

// Whether a post comes to an actor: it reaches the actor, and is not dropped on its way.
fn comes_to(report: &Report, post: &Post, end: &End, number: usize) -> bool
    ensures { result ≡ comes_to report.now.config report.now.script post.now end.now.node end.now.actor number }
{
    reaches(report.config.n(), post, end.node, end.actor)
        && !is_drop(shape_by(report.script.links.as_slice(), post.from, end.node, number))
}

fn is_drop(shape: Shape) -> bool
    ensures { result ≡ is_drop shape }
{
    matches!(shape, Shape::Drop)
}

// For each post whether its sender lies or works.
pub(crate) fn sent_posts(alloc: Global, report: &Report) -> Result<Vec<bool>, AllocError>
    ensures { IfOk result (λ sent. sent.items ≡ map (is_sent report.now) report.now.history.items) }
{
    let mut sent = Vec::with_capacity(alloc, report.history.len())?;
    for post in &report.history {
        sent.push(is_sent(report, post))?;
    }
    Ok(sent)
}

fn is_sent(report: &Report, post: &Post) -> bool
    ensures { result ≡ is_sent report.now post.now }
{
    report.config.liars().has(post.from) || works(report.ends.as_slice(), post.from, post.actor)
}

// Whether an actor has received all that it has to: each post that comes to it, and whose sender lies or works.
pub(crate) fn has_received(
    alloc: Global,
    report: &Report,
    sent: &[bool],
    end: &End,
) -> Result<bool, AllocError>
    requires sent { sent.now ≡ map (is_sent report.now) report.now.history.items }
    requires received { AreReceived report.now end.now }
    ensures { IfOk result (λ all. IsTrue all ↔ HasReceived report.now end.now) }
{
    let marks = marks_of(alloc, report, end)?;
    Ok(are_marked(report, end, sent, marks.as_slice()))
}

// For each post whether an actor has received it.
fn marks_of(alloc: Global, report: &Report, end: &End) -> Result<Vec<bool>, AllocError>
    requires { AreReceived report.now end.now }
    ensures { IfOk result (λ marks. (k : ℕ) → slice_index_or marks.items k false ≡ list_any (λ m. m == k) end.now.got.items) }
{
    let mut marks = vec![in alloc; false; report.history.len()]?;
    for number in &end.got {
        marks[*number as usize] = true;
    }
    Ok(marks)
}

// Whether each post that comes to an actor, and whose sender lies or works, is marked.
fn are_marked(report: &Report, end: &End, sent: &[bool], marks: &[bool]) -> bool
    ensures { IsTrue result ↔ AreMarked report.now end.now sent.now marks.now }
{
    for number in 0..report.history.len() {
        let missing = is_missing(report, end, sent, marks, number);
        if missing {
            return false;
        }
    }
    true
}

// Whether a post comes to an actor, and its sender lies or works, but it is not marked.
fn is_missing(report: &Report, end: &End, sent: &[bool], marks: &[bool], number: usize) -> bool
    requires { number < length report.now.history.items }
    ensures { (result ≡ false) ↔ IsMarkedAt report.now end.now sent.now marks.now number }
{
    let is_marked = mark_at(marks, number);
    if is_marked {
        return false;
    }
    mark_at(sent, number) && comes_to(report, &report.history[number], end, number)
}

fn mark_at(marks: &[bool], number: usize) -> bool
    ensures { result ≡ slice_index_or marks.now number false }
{
    number < marks.len() && marks[number]
}
