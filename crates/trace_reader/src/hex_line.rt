//! Bytes in hex, up to the end of a line.

ghost use Rattle.std.specs.Prelude.{◌≡◌, ◌==◌, IfOk};
ghost use Rattle.std.specs.Char.{is_ascii_uppercase};
ghost use Rattle.std.specs.List.{list_any, position};
ghost use Rattle.hb_wire.specs.Reading.{Shows};
ghost use Rattle.trace_reader.specs.Reading.{line_at, bytes_of};

use std::alloc::{AllocError, Global};

// Where the first line ends.
fn end_of_line(bytes: &[u8]) -> Option<usize>
    ensures { result ≡ position (λ byte. byte == 10) bytes.now }
{
    bytes.iter().position(|byte| *byte == b'\n')
}

// A line without its end, and the bytes behind that.
#[tactic(auto, unfolding(crate::specs::Reading::line_at))]
pub(crate) fn line_at(bytes: &[u8]) -> Option<(&[u8], &[u8])>
    ensures { Shows (λ x. (x.0.now, x.1.now)) result (line_at bytes.now) }
{
    let count = end_of_line(bytes)?;
    Some((&bytes[..count], &bytes[count + 1..]))
}

// Whether a text has a letter in upper case.
fn has_upper(text: &[u8]) -> bool
    ensures { result ≡ list_any is_ascii_uppercase text.now }
{
    text.iter().any(|byte| byte.is_ascii_uppercase())
}

// The bytes that a text in lower-case hex stands for, where it is such a text. A dash stands for none.
#[tactic(auto, unfolding(crate::specs::Reading::bytes_of))]
pub(crate) fn bytes_of(alloc: Global, text: &[u8]) -> Result<Option<Vec<u8>>, AllocError>
    ensures { IfOk result (λ found. Shows (λ bytes. bytes.items) found (bytes_of text.now)) }
{
    if text == b"-".as_slice() {
        return Ok(Some(Vec::new(alloc)));
    }
    if text.is_empty() || has_upper(text) {
        return Ok(None);
    }
    match hex::decode(alloc, text) {
        Ok(bytes) => Ok(Some(bytes)),
        Err(hex::FromHexError::OutOfMemory) => Err(AllocError),
        Err(_) => Ok(None),
    }
}
