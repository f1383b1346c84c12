//! What tells transactions apart, many bytes at a time.
ghost use Rattle.std.specs.Prelude.{◌≡◌, bytes_eq};
ghost use Rattle.std.specs.List.{fold};
ghost use Rattle.tx_pool.specs.Marks.{mark, stir, word};

/// A number that takes in all bytes. Most transactions differ in it.
#[tactic(auto, unfolding(crate::specs::Marks::mark))]
pub(crate) fn mark_of(tx: &[u8]) -> u64
    ensures { result ≡ mark tx.now }
{
    let mut mark = 0;
    let mut rest = tx;
    while let Some((front, after)) = rest.split_first_chunk::<8>() {
        mark = stir(mark, word_of(front));
        rest = after;
    }
    stir_all(mark, rest)
}

fn stir_all(mark: u64, bytes: &[u8]) -> u64
    ensures { result ≡ fold stir mark bytes.now }
{
    let mut mark = mark;
    for byte in bytes {
        mark = stir(mark, *byte as u64);
    }
    mark
}

// An odd factor: what differs in one word gives another number.
#[tactic(auto, unfolding(crate::specs::Marks::stir))]
fn stir(mark: u64, word: u64) -> u64
    ensures { result ≡ stir mark word }
{
    mark.wrapping_mul(0x9e37_79b9_7f4a_7c15) ^ word
}

#[tactic(auto, unfolding(crate::specs::Marks::word))]
fn word_of(bytes: &[u8; 8]) -> u64
    ensures { result ≡ word bytes.now }
{
    u64::from_le_bytes(*bytes)
}

/// Whether these are the same bytes. It compares eight at a time.
pub(crate) fn are_same(left: &[u8], right: &[u8]) -> bool
    ensures { result ≡ bytes_eq left.now right.now }
{
    let mut left = left;
    let mut right = right;
    while let Some((front, after)) = left.split_first_chunk::<8>() {
        let Some((other_front, other_after)) = right.split_first_chunk::<8>() else {
            return false;
        };
        if !is_same_word(front, other_front) {
            return false;
        }
        left = after;
        right = other_after;
    }
    left == right
}

fn is_same_word(left: &[u8; 8], right: &[u8; 8]) -> bool
    ensures { result ≡ bytes_eq left.now right.now }
{
    word_of(left) == word_of(right)
}
