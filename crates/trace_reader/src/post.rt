//! The line of a post.

ghost use Rattle.std.specs.Prelude.{IfOk};
ghost use Rattle.hb_wire.specs.Reading.{Shows};
ghost use Rattle.trace_reader.specs.Reading.{end_at, node_at, address_at, words_at, with_words, post_at};

use crate::hex_line::{bytes_of, line_at};
use crate::words::{Field, after, byte_before};
use hb_base::Bytes;
use hb_wire::{Post, PostBytes, To};
use ledger_text::add_count;
use script_fault::Line;
use std::alloc::{AllocError, Global};

// What the line of a post says up to its bytes: its sender, and where it goes.
#[derive(Clone, Copy)]
pub(crate) struct Words {
    pub(crate) from: u8,
    pub(crate) actor: u8,
    pub(crate) to: To,
}

#[tactic(auto, unfolding(crate::specs::Reading::node_at))]
fn node_at(bytes: &[u8]) -> Field<'_, To>
    ensures { Shows (λ x. (x.0, x.1.now)) result (node_at bytes.now) }
{
    let rest = after(bytes, b"node ")?;
    let (node, rest) = byte_before(rest, b" ")?;
    Some((To::Node(node), rest))
}

// Where a post goes, and a blank.
#[tactic(auto, unfolding(crate::specs::Reading::address_at))]
fn address_at(bytes: &[u8]) -> Field<'_, To>
    ensures { Shows (λ x. (x.0, x.1.now)) result (address_at bytes.now) }
{
    match after(bytes, b"book ") {
        Some(rest) => Some((To::Book, rest)),
        None => match after(bytes, b"home ") {
            Some(rest) => Some((To::Home, rest)),
            None => match after(bytes, b"all ") {
                Some(rest) => Some((To::All, rest)),
                None => node_at(bytes),
            },
        },
    }
}

// The words of post k, up to its bytes.
#[tactic(auto, unfolding(crate::specs::Reading::words_at))]
fn words_at(k: u64, bytes: &[u8]) -> Field<'_, Words>
    ensures { Shows (λ x. (x.0, x.1.now)) result (words_at k bytes.now) }
{
    let mut line = Line::new();
    add_count(&mut line, "post ", k);
    line.text(" from ");
    let rest = after(bytes, line.as_slice())?;
    let (from, rest) = byte_before(rest, b" actor ")?;
    let (actor, rest) = byte_before(rest, b" to ")?;
    let (to, rest) = address_at(rest)?;
    Some((Words { from, actor, to }, rest))
}

// The post with these words whose bytes come next.
#[tactic(auto, unfolding(crate::specs::Reading::with_words, crate::specs::Reading::bytes_at))]
fn with_words(
    alloc: Global,
    words: Words,
    bytes: &[u8],
) -> Result<Option<(Post, &[u8])>, AllocError>
    ensures { IfOk result (λ found. Shows (λ x. (x.0, x.1.now)) found (with_words words bytes.now)) }
{
    match line_at(bytes) {
        None => Ok(None),
        Some((text, rest)) => match bytes_of(alloc, text)? {
            None => Ok(None),
            Some(bytes) => {
                let post = Post {
                    from: words.from,
                    actor: words.actor,
                    to: words.to,
                    bytes: PostBytes::plain(Bytes::from_vec(bytes)?),
                };
                Ok(Some((post, rest)))
            }
        },
    }
}

/// Post k, and what is behind its line. Its bytes are decoded once, and not copied.
#[tactic(auto, unfolding(crate::specs::Reading::post_at, crate::specs::Reading::with_words))]
pub fn post_at(alloc: Global, k: u64, bytes: &[u8]) -> Result<Option<(Post, &[u8])>, AllocError>
    ensures { IfOk result (λ found. Shows (λ x. (x.0, x.1.now)) found (post_at k bytes.now)) }
{
    match words_at(k, bytes) {
        None => Ok(None),
        Some((words, rest)) => with_words(alloc, words, rest),
    }
}

/// What is behind the last line, that of so many posts.
#[tactic(auto, unfolding(ledger_text::specs::Lines::end_line))]
pub fn end_at(count: u64, bytes: &[u8]) -> Option<&[u8]>
    ensures { Shows (λ rest. rest.now) result (end_at count bytes.now) }
{
    let mut line = Line::new();
    add_count(&mut line, "end ", count);
    line.text("\n");
    after(bytes, line.as_slice())
}
