//! What a desk casts in whole runs, from nothing and from what it has cast before.
ghost use Rattle.std.specs.Prelude.{◌≡◌, IfOk, OnOk};
ghost use Rattle.epoch_core.specs.Epochs.{has_started};

use crate::cases::{CASES, Case};
use crate::texts::{push_votes, said, votes_of};
use epoch_core::Epochs;
use hb_base::{Bytes, Config, NodeSet};
use hb_rules::Due;
use hb_wire::Vote;
use std::alloc::{AllocError, Global};
use std::test::Fail;
use tx_pool::Pool;

// A pool to which one-letter transactions were submitted.
fn pool_of(alloc: Global, letters: &str) -> Result<Pool, AllocError> {
    let mut pool = Pool::new(alloc);
    for letter in letters.as_bytes() {
        pool.submit(&Bytes::copy(alloc, &[*letter])?)?;
    }
    Ok(pool)
}

// A desk that has cast these votes, and what it casts at first.
fn started(
    alloc: Global,
    config: &Config,
    submitted: &str,
    own: &[Vote],
    text: &mut Vec<u8>,
) -> Result<Epochs, Fail>
    ensures config { IfOk result (λ desk. desk.config ≡ config.now) }
    ensures started { IfOk result (λ desk. has_started desk) }
{
    let pool = pool_of(alloc, submitted)?;
    let mut desk = Epochs::rebuild(alloc, config, 0, pool, own)?;
    let mut due = Due::new(alloc);
    desk.start(&mut due)?;
    push_votes(text, due.votes())?;
    Ok(desk)
}

// A desk hears what a lane says, and casts votes.
fn hear(alloc: Global, desk: &mut Epochs, n: u8, word: &str, text: &mut Vec<u8>) -> Result<(), Fail>
    requires nodes { desk.old.config.n ≡ n }
    requires started { has_started desk.old }
    ensures nodes { OnOk result (desk.new.config.n ≡ n) }
    ensures started { OnOk result (has_started desk.new) }
{
    let (lane, vote) = said(alloc, word.as_bytes())?;
    if lane >= n {
        return Err("no lane".into());
    }
    let mut due = Due::new(alloc);
    desk.hear(alloc, lane, &vote, &mut due)?;
    text.push(b' ')?;
    push_votes(text, due.votes())?;
    Ok(())
}

// What a desk that has cast these votes casts in the run of a case.
fn outcome(alloc: Global, case: &Case, own: &[Vote]) -> Result<Vec<u8>, Fail> {
    let config = Config::new(
        case.nodes,
        case.faulty,
        3,
        1,
        case.batch,
        0,
        1,
        NodeSet::new(),
    )
    .ok_or("no config")?;
    let mut text = Vec::new(alloc);
    let mut desk = started(alloc, &config, case.submitted, own, &mut text)?;
    for word in case.script.split(' ') {
        hear(alloc, &mut desk, case.nodes, word, &mut text)?;
    }
    Ok(text)
}

// Whether a desk that has cast these votes casts what is wanted in the run of a case.
fn casts(alloc: Global, case: &Case, own: &[Vote], wanted: &[u8]) -> Result<bool, Fail> {
    let text = outcome(alloc, case, own)?;
    Ok(text.as_slice() == wanted)
}

#[test]
fn runs(rt: HostRuntime) -> Result<(), Fail> {
    let alloc = rt.alloc();
    for case in &CASES {
        let own = votes_of(alloc, case.own)?;
        assert!(rt;
            casts(alloc, case, &own, case.wanted.as_bytes())?,
            "the run {}",
            case.script
        );
    }
    Ok(())
}

// An answer in two: NoMore where a closing follows it, and the rest. A desk that has cast the first alone and has heard
// nothing owes nothing. No other front of an answer is so: behind a closing there is the proposal that it makes due.
fn cut(answer: &str) -> (&str, &str) {
    match answer.split_once('+') {
        Some((front, rest)) if front.starts_with('N') => (front, rest),
        _ => ("", answer),
    }
}

// The votes that a desk has cast after so many answers, and what it casts if it hears all again: nothing so many times, and
// then what it cast before. Where the next answer is cut, its front is among the votes, and only its rest is cast.
fn again(
    alloc: Global,
    case: &Case,
    answers: usize,
    is_cut: bool,
) -> Result<(Vec<Vote>, Vec<u8>), Fail> {
    let mut votes = votes_of(alloc, case.own)?;
    let mut text = Vec::new(alloc);
    let mut count = 0usize;
    for answer in case.wanted.split(' ') {
        let (cast, left) = if count < answers {
            (answer, ".")
        } else if count == answers && is_cut {
            cut(answer)
        } else {
            ("", answer)
        };
        if count > 0 {
            text.push(b' ')?;
        }
        votes.append(&mut votes_of(alloc, cast)?)?;
        text.extend_from_slice(left.as_bytes())?;
        count = count.saturating_add(1);
    }
    Ok((votes, text))
}

// Whether a desk that is rebuilt after so many answers, and the front of the next if that is cut, casts what is wanted.
fn casts_again(alloc: Global, case: &Case, answers: usize, is_cut: bool) -> Result<bool, Fail> {
    let (own, wanted) = again(alloc, case, answers, is_cut)?;
    casts(alloc, case, &own, wanted.as_slice())
}

#[test]
fn rebuilt_after_each_call(rt: HostRuntime) -> Result<(), Fail> {
    let alloc = rt.alloc();
    for case in &CASES {
        for answers in 0..case.wanted.split(' ').count() {
            assert!(rt;
                casts_again(alloc, case, answers.saturating_add(1), false)?,
                "{} after {answers} answers",
                case.script
            );
        }
    }
    Ok(())
}

#[test]
fn rebuilt_before_a_closing(rt: HostRuntime) -> Result<(), Fail> {
    let alloc = rt.alloc();
    let mut places = 0u32;
    for case in &CASES {
        for (answers, answer) in case.wanted.split(' ').enumerate() {
            let (front, _) = cut(answer);
            if !front.is_empty() {
                assert!(rt;
                    casts_again(alloc, case, answers, true)?,
                    "{} after {answers} answers and {front}",
                    case.script
                );
                places = places.saturating_add(1);
            }
        }
    }
    assert!(rt; places == 4);
    Ok(())
}
