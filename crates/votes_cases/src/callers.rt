//! A history in memory, put in words.

ghost use Rattle.std.specs.Prelude.{◌≡◌, ℕ, List, ◌≤◌, length, IfOk};
ghost use Rattle.hb_base.specs.Numbers.{Numbers};
ghost use Rattle.hb_wire.specs.declared.post.Post.{Post};
ghost use Rattle.trace_reader.specs.Trace.{IsTrace};
ghost use Rattle.vote_words.specs.Words.{history_in_words};

use hb_base::{Bytes, MemorySink, MemorySource};
use std::alloc::Global;
use votes_app::{Detail, VotesFault, print_votes};

/// The text of a history, with each post in words.
pub fn in_words(alloc: Global, detail: Detail, text: &Bytes) -> Result<Bytes, VotesFault>
    ensures { IfOk result (λ words. (c : Numbers) × (posts : List Post) × IsTrace text.now c posts × (words ≡ history_in_words detail c posts)) }
{
    let mut source = MemorySource::new(text.clone()?, 4096, Vec::new(alloc));
    let mut out = MemorySink::new(alloc, Vec::new(alloc));
    print_votes(alloc, detail, &mut source, &mut out)?;
    Ok(Bytes::copy(alloc, out.held())?)
}
