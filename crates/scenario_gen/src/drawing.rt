//! The lists of a scenario, drawn word by word.

ghost use Rattle.std.specs.Prelude.{◌≡◌, ◌+◌, ◌*◌, ◌^◌, ◌<◌, ◌≤◌, ◌++◌, IfOk, OnOk, map};
ghost use Rattle.std.specs.Int.{w32, to_le_bytes};
ghost use Rattle.seed_words.specs.Words.{moved_by, word_of};
ghost use Rattle.net_script.specs.Scenario.{planned};
ghost use Rattle.scenario_gen.specs.Generated.{faulty, submits, liars, plan, plans, liars_place, stops_place, kind_name, leave};

use crate::numbers::faulty_of;
use disk_model::{Leave, Plan, Stop};
use hb_base::limits::MOST_POSTS;
use hb_base::{Bytes, LiarName};
use net_script::{ActorPlan, LiarAt, Submit};
use rand_chacha::ChaCha20Rng;
use seed_words::next_word;
use std::alloc::{AllocError, Global};

/// 64 transactions at each of n nodes.
pub(crate) fn draw_submits(
    alloc: Global,
    n: u8,
    words: &mut ChaCha20Rng,
) -> Result<Vec<Submit>, AllocError>
    requires nodes { n ≤ 10 }
    requires place { words.old.word_pos ≡ 4 }
    ensures drawn { IfOk result (λ drawn. drawn.items ≡ submits n (word_of words.old)) }
    ensures moved { OnOk result (words.new ≡ moved_by words.old (2 * (64 * n))) }
{
    let count = 64 * n as u32;
    let mut drawn = Vec::with_capacity(alloc, count as usize)?;
    for t in 0..count {
        let tx = Bytes::copy(alloc, &draw_transaction(words))?;
        let node = (t / 64) as u8;
        drawn.push(Submit { node, tx })?;
    }
    Ok(drawn)
}

// The next two words, each with its least byte first.
fn draw_transaction(words: &mut ChaCha20Rng) -> [u8; 8]
    requires { words.old.word_pos + 2 < 2 ^ 68 }
    ensures bytes { result ≡ to_le_bytes w32 (word_of words.old words.old.word_pos)
        ++ to_le_bytes w32 (word_of words.old (words.old.word_pos + 1)) }
    ensures moved { words.new ≡ moved_by words.old 2 }
{
    let mut bytes = [0; 8];
    bytes[..4].copy_from_slice(&next_word(words).to_le_bytes());
    bytes[4..].copy_from_slice(&next_word(words).to_le_bytes());
    bytes
}

/// The liars, who are the last of n nodes, each of a kind that is drawn.
pub(crate) fn draw_liars(
    alloc: Global,
    n: u8,
    words: &mut ChaCha20Rng,
) -> Result<Vec<LiarAt>, AllocError>
    requires nodes { (1 ≤ n) × (n ≤ 10) }
    requires place { words.old.word_pos ≡ liars_place n }
    ensures drawn { IfOk result (λ drawn. drawn.items ≡ liars n (word_of words.old)) }
    ensures moved { OnOk result (words.new ≡ moved_by words.old (faulty n)) }
{
    let f = faulty_of(n);
    let mut drawn = Vec::with_capacity(alloc, f as usize)?;
    for j in 0..f {
        let name = name_of(next_word(words) % 6);
        drawn.push(LiarAt {
            node: n - f + j,
            name,
            hears: MOST_POSTS,
        })?;
    }
    Ok(drawn)
}

fn name_of(kind: u32) -> LiarName
    requires { kind < 6 }
    ensures { result ≡ kind_name kind }
{
    LiarName::of(kind_text(kind)).unwrap()
}

fn kind_text(kind: u32) -> &'static str
    requires { kind < 6 }
    ensures { result.now ≡ kind_name kind }
{
    match kind {
        0 => "silent",
        1 => "equivocate",
        2 => "echo_split",
        3 => "bval_both",
        4 => "false_share",
        _ => "babble",
    }
}

/// One stop at each correct node.
pub(crate) fn draw_plans(
    alloc: Global,
    n: u8,
    words: &mut ChaCha20Rng,
) -> Result<Vec<ActorPlan>, AllocError>
    requires nodes { (1 ≤ n) × (n ≤ 10) }
    requires place { words.old.word_pos ≡ stops_place n }
    ensures { IfOk result (λ drawn. map planned drawn.items ≡ plans n (word_of words.old)) }
{
    let correct = n - faulty_of(n);
    let mut drawn = Vec::with_capacity(alloc, correct as usize)?;
    for node in 0..correct {
        let plan = draw_plan(alloc, n, node, words)?;
        drawn.push(plan)?;
    }
    Ok(drawn)
}

fn draw_plan(
    alloc: Global,
    n: u8,
    node: u8,
    words: &mut ChaCha20Rng,
) -> Result<ActorPlan, AllocError>
    requires nodes { n ≤ 10 }
    requires place { words.old.word_pos + 3 < 2 ^ 68 }
    ensures drawn { IfOk result (λ drawn. let place = words.old.word_pos in planned drawn
        ≡ plan n node (word_of words.old place) (word_of words.old (place + 1)) (word_of words.old (place + 2))) }
    ensures moved { OnOk result (words.new ≡ moved_by words.old 3) }
{
    let actor = (next_word(words) % (u32::from(n) + 1)) as u8;
    let call = 1 + next_word(words) % 40;
    let leave = leave_of(next_word(words) % 3);
    let stops = vec![in alloc; Stop { call, leave }]?;
    let faults = Vec::new(alloc);
    Ok(ActorPlan {
        node,
        actor,
        plan: Plan { stops, faults },
    })
}

fn leave_of(drawn: u32) -> Leave
    ensures { result ≡ leave drawn }
{
    match drawn {
        0 => Leave::Old,
        1 => Leave::New,
        _ => Leave::Torn,
    }
}
