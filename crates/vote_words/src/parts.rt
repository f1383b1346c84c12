//! The parts of a line: words, numbers and byte strings.

ghost use Rattle.std.specs.Prelude.{◌≡◌, ◌++◌, ◌≤◌, length, take, OnOk};
ghost use Rattle.hex.specs.Hex.{encode_lower};
ghost use Rattle.ledger_text.specs.Lines.{counted};
ghost use Rattle.trace_text.specs.Text.{bytes_text};
ghost use Rattle.vote_words.specs.Words.{digest_text, string_text};

use crate::detail::Detail;
use itoa::Buffer;
use std::alloc::AllocError;

// Appends a word.
pub(crate) fn add_word(line: &mut Vec<u8>, word: &str) -> Result<(), AllocError>
    ensures { OnOk result (line.new.items ≡ line.old.items ++ word.now) }
{
    line.extend_from_slice(word.as_bytes())
}

// Appends a word, and a number in decimal.
#[tactic(auto, unfolding(ledger_text::specs::Lines::counted))]
pub(crate) fn add_number(line: &mut Vec<u8>, word: &str, number: u64) -> Result<(), AllocError>
    ensures { OnOk result (line.new.items ≡ line.old.items ++ counted word.now number) }
{
    let mut buffer = Buffer::new();
    add_word(line, word)?;
    add_word(line, buffer.format(number))
}

// Appends bytes in lower-case hex.
fn add_hex(line: &mut Vec<u8>, bytes: &[u8]) -> Result<(), AllocError>
    ensures { OnOk result (line.new.items ≡ line.old.items ++ encode_lower bytes.now) }
{
    let text = hex::encode(*line.allocator(), bytes)?;
    add_word(line, text.as_str())
}

// Appends bytes in lower-case hex, and a dash where there are none.
#[tactic(auto, unfolding(trace_text::specs::Text::bytes_text))]
pub(crate) fn add_bytes(line: &mut Vec<u8>, bytes: &[u8]) -> Result<(), AllocError>
    ensures { OnOk result (line.new.items ≡ line.old.items ++ bytes_text bytes.now) }
{
    if bytes.is_empty() {
        add_word(line, "-")
    } else {
        add_hex(line, bytes)
    }
}

// Appends a word, and a root, a salt or a digest: its first four bytes, or all of them.
#[tactic(auto, unfolding(crate::specs::Words::digest_text))]
pub(crate) fn add_digest(
    line: &mut Vec<u8>,
    word: &str,
    detail: Detail,
    digest: &[u8],
) -> Result<(), AllocError>
    requires { 4 ≤ length digest.now }
    ensures { OnOk result (line.new.items ≡ line.old.items ++ digest_text word.now detail digest.now) }
{
    add_word(line, word)?;
    match detail {
        Detail::Brief => add_hex(line, &digest[..4]),
        Detail::Full => add_hex(line, digest),
    }
}

// Appends a word, and a shard or a value: how many bytes it has, or all of them.
#[tactic(auto, unfolding(crate::specs::Words::string_text))]
pub(crate) fn add_string(
    line: &mut Vec<u8>,
    word: &str,
    detail: Detail,
    bytes: &[u8],
) -> Result<(), AllocError>
    ensures { OnOk result (line.new.items ≡ line.old.items ++ string_text word.now detail bytes.now) }
{
    add_word(line, word)?;
    match detail {
        Detail::Brief => add_number(line, "length ", bytes.len() as u64),
        Detail::Full => add_bytes(line, bytes),
    }
}
