//! The line of a post.

ghost use Rattle.std.specs.Prelude.{◌≡◌, ◌++◌, ◌≤◌, OnOk, IfOk};
ghost use Rattle.hb_base.specs.Limits.{most_nodes};
ghost use Rattle.hb_wire.specs.Reading.{vote_at};
ghost use Rattle.trace_text.specs.Text.{address_text};
ghost use Rattle.vote_words.specs.Words.{no_vote_text, said_text, front_text, post_in_words};

use crate::detail::Detail;
use crate::parts::{add_bytes, add_number, add_word};
use crate::vote::add_vote;
use hb_base::{Bytes, Config};
use hb_wire::{Post, To, WireFault, read_shared};
use std::alloc::{AllocError, Global};

/// The line of post k of a run, with the vote that its bytes spell among the nodes of the run, under its version of the rules, or
/// `no vote`. Err is want of memory for the line.
#[tactic(auto, unfolding(crate::specs::Words::post_in_words))]
pub fn post_in_words(
    alloc: Global,
    detail: Detail,
    config: &Config,
    k: u64,
    post: &Post,
) -> Result<Vec<u8>, AllocError>
    ensures { IfOk result (λ line. line.items ≡ post_in_words detail config.now k post.now) }
{
    let mut line = Vec::new(alloc);
    add_front(&mut line, k, post)?;
    add_said(
        &mut line,
        detail,
        config.n(),
        config.version(),
        post.bytes.as_bytes(),
    )?;
    add_word(&mut line, "\n")?;
    Ok(line)
}

// Appends what the line of a post says up to its bytes.
#[tactic(auto, unfolding(crate::specs::Words::front_text))]
fn add_front(line: &mut Vec<u8>, k: u64, post: &Post) -> Result<(), AllocError>
    ensures { OnOk result (line.new.items ≡ line.old.items ++ front_text k post.now) }
{
    add_number(line, "post ", k)?;
    add_number(line, " from ", u64::from(post.from))?;
    add_number(line, " actor ", u64::from(post.actor))?;
    add_word(line, " to ")?;
    add_address(line, post.to)?;
    add_word(line, ": ")
}

// Appends where a post goes.
#[tactic(auto, unfolding(trace_text::specs::Text::address_text))]
fn add_address(line: &mut Vec<u8>, to: To) -> Result<(), AllocError>
    ensures { OnOk result (line.new.items ≡ line.old.items ++ address_text to) }
{
    match to {
        To::Book => add_word(line, "book"),
        To::Home => add_word(line, "home"),
        To::All => add_word(line, "all"),
        To::Node(node) => add_number(line, "node ", u64::from(node)),
    }
}

// Appends the vote that bytes spell among n nodes under this version of the rules, or that they spell none.
fn add_said(
    line: &mut Vec<u8>,
    detail: Detail,
    n: u8,
    version: u8,
    bytes: &Bytes,
) -> Result<(), AllocError>
    requires some { 1 ≤ n }
    requires few { n ≤ most_nodes }
    ensures { OnOk result (line.new.items ≡ line.old.items ++ said_text detail bytes.now (vote_at n version bytes.now)) }
{
    match read_shared(*line.allocator(), n, version, bytes) {
        Ok(vote) => add_vote(line, detail, n, version, &vote),
        Err(WireFault::NotAMessage) => add_no_vote(line, detail, bytes.as_slice()),
        Err(WireFault::Memory) => Err(AllocError),
    }
}

// Appends that bytes spell no vote.
#[tactic(auto, unfolding(crate::specs::Words::no_vote_text))]
fn add_no_vote(line: &mut Vec<u8>, detail: Detail, bytes: &[u8]) -> Result<(), AllocError>
    ensures { OnOk result (line.new.items ≡ line.old.items ++ no_vote_text detail bytes.now) }
{
    match detail {
        Detail::Brief => add_word(line, "no vote"),
        Detail::Full => {
            add_word(line, "no vote ")?;
            add_bytes(line, bytes)
        }
    }
}
