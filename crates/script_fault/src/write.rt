//! The line that tells a fault.
ghost use Rattle.std.specs.Prelude.{◌≡◌, ◌+◌, ◌≤◌, ◌++◌, length, codes, decimal};
ghost use Rattle.hex.specs.Hex.{encode_lower};
ghost use Rattle.script_fault.specs.Line.{Writes, entry_text, place_text, fault_words, kept_text, fault_line};

use crate::fault::ScriptFault;
use crate::line::Line;
use crate::place::{ListName, Place};
use hb_base::{Failed, Sink};

/// Writes the line that tells a fault: `refused`, its number, its name and what it keeps, texts of the input in
/// lower-case hex. The line is put whole where the text that it keeps has at most 256 bytes, and else in pieces. It takes
/// no memory.
#[tactic(auto, using(crate::proofs::Writing::writes_front), unfolding(crate::specs::Line::fault_line))]
pub fn write_fault<O: Sink>(fault: &ScriptFault, out: &mut O) -> Result<(), Failed>
    ensures { Writes (O.held out.old) (O.held out.new) (O.faults out.old) (O.faults out.new) result (fault_line fault.now) }
{
    let text = kept_text(fault);
    if text.len() <= 256 {
        return put_whole(fault, text, out);
    }
    put_words(fault, out)?;
    put_hex(text, out)?;
    put_end(out)
}

// Puts the whole line at once.
fn put_whole<O: Sink>(fault: &ScriptFault, text: &[u8], out: &mut O) -> Result<(), Failed>
    requires { length text.now ≤ 256 }
    ensures { Writes (O.held out.old) (O.held out.new) (O.faults out.old) (O.faults out.new) result
        (fault_words fault.now ++ (encode_lower text.now ++ codes "\n")) }
{
    let mut line = Line::new();
    add_words(&mut line, fault);
    line.hex(text);
    line.text("\n");
    out.put(line.as_slice())
}

fn put_words<O: Sink>(fault: &ScriptFault, out: &mut O) -> Result<(), Failed>
    ensures { Writes (O.held out.old) (O.held out.new) (O.faults out.old) (O.faults out.new) result (fault_words fault.now) }
{
    let mut line = Line::new();
    add_words(&mut line, fault);
    out.put(line.as_slice())
}

fn put_end<O: Sink>(out: &mut O) -> Result<(), Failed>
    ensures { Writes (O.held out.old) (O.held out.new) (O.faults out.old) (O.faults out.new) result (codes "\n") }
{
    out.put(b"\n")
}

/// Puts bytes in lower-case hex, 256 of them at a time. It takes no memory. After an error a beginning was put.
pub fn put_hex<O: Sink>(bytes: &[u8], out: &mut O) -> Result<(), Failed>
    ensures { Writes (O.held out.old) (O.held out.new) (O.faults out.old) (O.faults out.new) result (encode_lower bytes.now) }
{
    let mut rest = bytes;
    while !rest.is_empty() {
        let (piece, others) = rest.split_at(rest.len().min(256));
        put_piece(piece, out)?;
        rest = others;
    }
    Ok(())
}

fn put_piece<O: Sink>(bytes: &[u8], out: &mut O) -> Result<(), Failed>
    requires { length bytes.now ≤ 256 }
    ensures { Writes (O.held out.old) (O.held out.new) (O.faults out.old) (O.faults out.new) result (encode_lower bytes.now) }
{
    let mut line = Line::new();
    line.hex(bytes);
    out.put(line.as_slice())
}

// The text of the input that a fault keeps.
fn kept_text(fault: &ScriptFault) -> &[u8]
    ensures { result.now ≡ kept_text fault.now }
{
    match fault {
        ScriptFault::Unknown { key, .. } => key.as_slice(),
        ScriptFault::NoSuchLiar { name } => name.as_bytes(),
        ScriptFault::BadWord { word, .. } => word.as_slice(),
        _ => &[],
    }
}

// Appends words, and then an entry of a list.
#[tactic(auto, using(crate::proofs::Lengths::list_text_short), unfolding(crate::specs::Line::entry_text))]
fn add_entry(line: &mut Line, words: &str, list: ListName, index: u32)
    requires { length line.old + length words.now ≤ 500 }
    ensures value { line.new ≡ line.old ++ (words.now ++ entry_text list index) }
    ensures room { length line.new ≤ length line.old + length words.now + 30 }
{
    line.text(words);
    line.text(list.text());
    line.text(" ");
    line.number(u64::from(index))
}

// Appends words, and then a place.
#[tactic(auto, using(crate::proofs::Lengths::key_text_short), unfolding(crate::specs::Line::place_text))]
fn add_place(line: &mut Line, words: &str, place: &Place)
    requires { length line.old + length words.now ≤ 500 }
    ensures value { line.new ≡ line.old ++ (words.now ++ place_text place.now) }
    ensures room { length line.new ≤ length line.old + length words.now + 40 }
{
    add_entry(line, words, place.list, place.index);
    line.text(" ");
    line.text(place.key.text())
}

// Appends words, and then a number.
fn add_count(line: &mut Line, words: &str, count: u64)
    requires { length line.old + length words.now ≤ 500 }
    ensures value { line.new ≡ line.old ++ (words.now ++ decimal count) }
    ensures room { length line.new ≤ length line.old + length words.now + 20 }
{
    line.text(words);
    line.number(count)
}

// The words of the line up to that text.
#[tactic(auto, unfolding(crate::specs::Line::fault_words))]
fn add_words(line: &mut Line, fault: &ScriptFault)
    requires { length line.old ≡ 0 }
    ensures value { line.new ≡ line.old ++ fault_words fault.now }
    ensures room { length line.new ≤ 100 }
{
    match fault {
        ScriptFault::TooLong => line.text("refused 1 TooLong"),
        ScriptFault::NotJson => line.text("refused 2 NotJson"),
        ScriptFault::WrongKind { place } => add_place(line, "refused 3 WrongKind ", place),
        ScriptFault::Missing { place } => add_place(line, "refused 4 Missing ", place),
        ScriptFault::Unknown { list, index, .. } => {
            add_entry(line, "refused 5 Unknown ", *list, *index);
            line.text(" key=")
        }
        ScriptFault::NotNumber { place } => add_place(line, "refused 6 NotNumber ", place),
        ScriptFault::OutOfRange { place, value } => {
            add_place(line, "refused 7 OutOfRange ", place);
            add_count(line, " value=", *value)
        }
        ScriptFault::TooFewNodes { n, f } => {
            add_count(line, "refused 8 TooFewNodes n=", u64::from(*n));
            add_count(line, " f=", u64::from(*f))
        }
        ScriptFault::TooManyLiars { named, f } => {
            add_count(line, "refused 9 TooManyLiars named=", *named);
            add_count(line, " f=", u64::from(*f))
        }
        ScriptFault::LiarTwice { node } => add_count(
            line,
            "refused 10 LiarTwice node=",
            u64::from(*node),
        ),
        ScriptFault::NoSuchLiar { .. } => line.text("refused 11 NoSuchLiar name="),
        ScriptFault::BadHex { place } => add_place(line, "refused 12 BadHex ", place),
        ScriptFault::BadLength { place, length } => {
            add_place(line, "refused 13 BadLength ", place);
            add_count(line, " length=", *length)
        }
        ScriptFault::BadWord { place, .. } => {
            add_place(line, "refused 14 BadWord ", place);
            line.text(" word=")
        }
        ScriptFault::Memory => line.text("no memory"),
    }
}
