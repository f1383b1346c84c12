//! The words of a run, read one after another from the key stream of its seed.

ghost use Rattle.std.specs.Prelude.{◌≡◌, ◌+◌, ◌*◌, ◌%◌, ◌^◌, ◌<◌, ◌++◌, OnOk};
ghost use Rattle.seed_words.specs.Words.{moved_by};
ghost use Rattle.coin_deal.specs.Drawing.{next_bytes, four_words, next_fours};

use rand_chacha::ChaCha20Rng;
use seed_words::next_word;
use std::alloc::AllocError;

/// Draws so many bytes, each the low byte of a word, and puts them behind the others.
pub(crate) fn draw_bytes(
    words: &mut ChaCha20Rng,
    count: usize,
    bytes: &mut Vec<u8>,
) -> Result<(), AllocError>
    requires { words.old.word_pos + count < 2 ^ 68 }
    ensures drawn { OnOk result (bytes.new.items ≡ bytes.old.items ++ next_bytes words.old count) }
    ensures moved { OnOk result (words.new ≡ moved_by words.old count) }
{
    for _ in 0..count {
        bytes.push((next_word(words) % 256) as u8)?;
    }
    Ok(())
}

/// Draws so many salts of four words each, and puts them behind the others.
pub(crate) fn draw_salts(
    words: &mut ChaCha20Rng,
    count: usize,
    salts: &mut Vec<[u8; 16]>,
) -> Result<(), AllocError>
    requires { words.old.word_pos + 4 * count < 2 ^ 68 }
    ensures drawn { OnOk result (salts.new.items ≡ salts.old.items ++ next_fours words.old count) }
    ensures moved { OnOk result (words.new ≡ moved_by words.old (4 * count)) }
{
    for _ in 0..count {
        salts.push(next_salt(words))?;
    }
    Ok(())
}

/// The next four words, each with its least byte first.
fn next_salt(words: &mut ChaCha20Rng) -> [u8; 16]
    requires { words.old.word_pos + 4 < 2 ^ 68 }
    ensures salt { result ≡ four_words words.old words.old.word_pos }
    ensures moved { words.new ≡ moved_by words.old 4 }
{
    let mut salt = [0; 16];
    salt[..4].copy_from_slice(&next_word(words).to_le_bytes());
    salt[4..8].copy_from_slice(&next_word(words).to_le_bytes());
    salt[8..12].copy_from_slice(&next_word(words).to_le_bytes());
    salt[12..].copy_from_slice(&next_word(words).to_le_bytes());
    salt
}
