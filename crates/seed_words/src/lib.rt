//! The words that a number gives: the key stream of ChaCha20 (RFC 8439) with the number as its key. The dealer of the
//! coins draws them, and so do the generator of scenarios and the driver's mixed order.
#![tactic(auto)]

ghost use Rattle.std.specs.Prelude.{◌≡◌, ◌+◌, ◌^◌, ◌<◌};
ghost use Rattle.seed_words.specs.Words.{words_from, moved_by, word_of};

use rand_chacha::ChaCha20Rng;
use rand_core::SeedableRng;
use rand_core::utils::NextWord;

#[cfg(test)]
mod tests;

/// The words of this number, from place 0 on. The key is the number's eight bytes, the highest first, and 24 bytes
/// `filler` behind them.
pub fn words_of(number: u64, filler: u8) -> ChaCha20Rng
    ensures { result ≡ words_from number filler 0 }
{
    let mut key = [filler; 32];
    key[..8].copy_from_slice(&number.to_be_bytes());
    ChaCha20Rng::from_seed(key)
}

/// The next word.
pub fn next_word(words: &mut ChaCha20Rng) -> u32
    requires { words.old.word_pos + 1 < 2 ^ 68 }
    ensures word { result ≡ word_of words.old words.old.word_pos }
    ensures moved { words.new ≡ moved_by words.old 1 }
{
    words.next_word()
}
