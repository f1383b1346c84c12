//! What no clause says: that the cipher is ChaCha20 of RFC 8439, and that a number is its key as it was meant.
use super::*;

// The first words under four keys, which `tools/oracles/run first_words` makes again. The zero key's are also those of the
// first test vector of RFC 8439, appendix A.1.
struct Row {
    number: u64,
    filler: u8,
    words: [u32; 4],
}

static ROWS: [Row; 4] = [
    Row {
        number: 0,
        filler: 0,
        words: [0xADE0_B876, 0x903D_F1A0, 0xE56A_5D40, 0x28BD_8653],
    },
    Row {
        number: 7,
        filler: 0,
        words: [0xC67C_A435, 0x5B20_CB23, 0x5C85_138E, 0xF482_B795],
    },
    Row {
        number: 7,
        filler: 1,
        words: [0x618E_9B30, 0x3487_DCBD, 0xA5D2_5AF9, 0x10CD_73A1],
    },
    Row {
        number: 0xFFFF_FFFF_FFFF_FFFF,
        filler: 0,
        words: [0x6BEE_A23F, 0xEB41_53DA, 0xFC8A_4224, 0x3836_E52A],
    },
];

fn first_four(number: u64, filler: u8) -> [u32; 4] {
    let mut words = words_of(number, filler);
    let first = next_word(&mut words);
    let second = next_word(&mut words);
    let third = next_word(&mut words);
    [first, second, third, next_word(&mut words)]
}

#[test]
fn first_words(rt: HostRuntime) {
    for row in &ROWS {
        let words = first_four(row.number, row.filler);
        assert_eq!(rt; words, row.words, "of {}", row.number);
    }
}
