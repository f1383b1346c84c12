//! Whether the definition of agreement says what is meant: histories of four nodes, of which node 3 lies.

use aba_world::decided_agree;
use hb_base::{Bytes, Config, NodeSet};
use hb_rules::Report;
use hb_wire::{Post, PostBytes, To};
use std::alloc::{AllocError, Global};
use std::test::Fail;

// Each line is a history, and begins with whether its agreements agree. A post has six letters: its node, its actor, of which 4
// is a desk, its kind, which is Est, Bval or Decided, its epoch (v is 31, w 32), its round, if it has one, and its bit.
const CASES: &str = "\
# nothing is decided; all on 1; all on 0, begun by another and after the decision
yes 01E001 11E000
yes 01E001 01D0-1 11D0-1 21D0-1
yes 00D0-0 10D0-0 20E000
# two differ; a third does; one with itself; in the lane of the liar and the last epoch
no 01E001 11E000 01D0-1 11D0-0
no 01E001 11E000 01D0-1 11D0-1 21D0-0
no 01E001 11E000 01D0-1 01D0-0
no 03Ev01 13Ev00 03Dv-1 13Dv-0
# both bits were begun with, and one was decided
yes 03Ev01 13Ev00 03Dv-0 13Dv-0
# two differ: in another lane, in another epoch, and where lane and epoch are exchanged
yes 01E001 12E000 01D0-1 12D0-0
yes 01E001 11E100 01D0-1 11D1-0
yes 01E201 12E100 01D2-1 12D1-0
# two differ, one of them a liar, a desk, an actor beyond it, of no node
yes 01E001 01D0-1 31D0-0
yes 01E001 01D0-1 14D0-0
yes 01E001 01D0-1 15D0-0
yes 01E001 01D0-1 41D0-0
# what spells no vote: an epoch or a bit beyond the limit
yes 01E001 01D0-1 11Dw-0
yes 01E001 01D0-1 11D0-2
# nobody began with the bit; in a later round; with the other bit; in another lane, in another epoch
no 01D0-1
no 01D0-0
no 01E011 01D0-1
no 01E000 01D0-1
no 01E001 01D0-0
no 02E001 01D0-1
no 01E101 01D0-1
# a liar began with it, a desk; it is another kind of vote
no 31E001 01D0-1
no 04E001 01D0-1
no 01B001 01D0-1
# another correct node began with it; what a liar decides may come from nowhere
yes 21E001 01D0-1 31D5-1
";

// The value of a digit or a letter.
fn value_of(letter: u8) -> u8 {
    match letter {
        b'0'..=b'9' => letter - b'0',
        b'a'..=b'z' => letter - b'a' + 10,
        _ => 255,
    }
}

fn kind_of(letter: u8) -> u8 {
    match letter {
        b'E' => 0x05,
        b'B' => 0x06,
        b'D' => 0x0A,
        _ => 255,
    }
}

// The bytes of a vote.
fn bytes_of(alloc: Global, letters: [u8; 4]) -> Result<Bytes, AllocError> {
    let [kind, epoch, round, bit] = letters;
    let mut bytes = Vec::new(alloc);
    bytes.push(kind_of(kind))?;
    bytes.push(value_of(epoch))?;
    if round != b'-' {
        bytes.push(value_of(round))?;
    }
    bytes.push(value_of(bit))?;
    Bytes::from_vec(bytes)
}

fn post_of(alloc: Global, text: &[u8]) -> Result<Post, Fail> {
    match text {
        &[from, actor, kind, epoch, round, bit] => Ok(Post {
            from: value_of(from),
            actor: value_of(actor),
            to: To::Home,
            bytes: PostBytes::plain(bytes_of(alloc, [kind, epoch, round, bit])?),
        }),
        _ => Err("no post".into()),
    }
}

// Whether the report of a run with the history of this line is judged as the line says.
fn is_judged(alloc: Global, config: Config, line: &str) -> Result<bool, Fail> {
    let mut words = line.split(' ');
    let want = match words.next() {
        Some("yes") => true,
        Some("no") => false,
        _ => return Err("no case".into()),
    };
    let mut report = Report::empty(alloc);
    report.config = config;
    for word in words {
        report.history.push(post_of(alloc, word.as_bytes())?)?;
    }
    Ok(decided_agree(&report) == want)
}

#[test]
fn histories(rt: HostRuntime) -> Result<(), Fail> {
    let mut liars = NodeSet::new();
    liars.add(3);
    for version in [1, 2] {
        let config = Config::new(4, 1, 32, 8, 16, 7, version, liars).ok_or("no config")?;
        let mut count = 0u32;
        for line in CASES.lines() {
            if !line.starts_with("#") {
                assert!(rt;
                    is_judged(rt.alloc(), config, line)?,
                    "version {version}: {line}"
                );
                count = count.saturating_add(1);
            }
        }
        assert!(rt; count == 28);
    }
    Ok(())
}
