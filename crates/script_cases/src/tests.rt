//! What no clause says: that calls find memory, and that the definitions say what was meant.
use crate::rows::{BOUNDS, FAULTS, KINDS, LIARS, LINKS, LONG, NUMBERS, STOPS, SUBMIT, WHOLE};
use disk_model::{Leave, Stop};
use hb_base::{LiarName, MemorySink};
use net_script::{LiarAt, Link, Order, Script, Shape, shape};
use script_fault::write_fault;
use script_reader::read_script;
use std::alloc::{AllocError, Global};
use std::process::Abort;
use std::test::Fail;

// A cast of three boxes.
fn cast() -> Result<[LiarName; 3], Fail> {
    let silent = LiarName::of("silent").ok_or("no name")?;
    let babble = LiarName::of("babble").ok_or("no name")?;
    Ok([silent, babble, silent])
}

// What is told of a text: the line of its fault, and nothing of a scenario.
fn told(alloc: Global, text: &[u8], failing: Vec<u32>) -> Result<MemorySink, Fail> {
    let mut sink = MemorySink::new(alloc, failing);
    let cast = cast()?;
    if let Err(fault) = read_script(alloc, text, &cast) {
        let _written = write_fault(&fault, &mut sink);
    }
    Ok(sink)
}

// Checks what is told of a text: this line, or nothing where the text is fine.
fn check(rt: &impl Abort, alloc: Global, text: &str, line: &str) -> Result<(), Fail> {
    let sink = told(alloc, text.as_bytes(), Vec::new(alloc))?;
    let mut want = String::new(alloc);
    if line != "fine" {
        want.push_str(line)?;
        want.push_str("\n")?;
    }
    assert!(rt; sink.held() == want.as_bytes(), "{text}");
    Ok(())
}

// The front of a row, and what stands behind its first bar.
fn cut(row: &str) -> Result<(&str, &str), Fail> {
    Ok(row.split_once(" | ").ok_or("a row without a bar")?)
}

// Checks a row's text, between two others.
fn check_row(rt: &impl Abort, alloc: Global, head: &str, row: &str, end: &str) -> Result<(), Fail> {
    let (middle, line) = cut(row)?;
    let text = format!(in alloc; "{head}{middle}{end}")?;
    check(rt, alloc, text.as_str(), line)
}

#[test]
fn whole_texts(rt: HostRuntime) -> Result<(), Fail> {
    for row in WHOLE.lines() {
        check_row(&rt, rt.alloc(), "", row, "")?;
    }
    for text in ["", " ", "\u{feff}{}", "{}\0"] {
        check(&rt, rt.alloc(), text, "refused 2 NotJson")?;
    }
    Ok(())
}

#[test]
fn keys_and_lists(rt: HostRuntime) -> Result<(), Fail> {
    let head = r#"{"nodes":7,"faulty":2,"epochs":1"#;
    for rows in [NUMBERS, SUBMIT, LIARS, LINKS, STOPS, FAULTS] {
        for row in rows.lines() {
            check_row(&rt, rt.alloc(), head, row, "}")?;
        }
    }
    Ok(())
}

// Checks a text with a value where it has `@`.
fn check_with(
    rt: &impl Abort,
    alloc: Global,
    text: &str,
    value: &str,
    line: &str,
) -> Result<(), Fail> {
    let (front, back) = text.split_once('@').ok_or("a text without a place")?;
    let text = format!(in alloc; "{front}{value}{back}")?;
    check(rt, alloc, text.as_str(), line)
}

// Each place of a number takes its least and its greatest, and no number beside them.
#[test]
fn bounds_of_numbers(rt: HostRuntime) -> Result<(), Fail> {
    for row in BOUNDS.lines() {
        let (text, rest) = cut(row)?;
        let (place, rest) = cut(rest)?;
        let (low, high) = cut(rest)?;
        check_with(&rt, rt.alloc(), text, low, "fine")?;
        check_with(&rt, rt.alloc(), text, high, "fine")?;
        if let Some(less) = low.parse::<u64>()?.checked_sub(1) {
            check_beside(&rt, rt.alloc(), text, place, less)?;
        }
        if let Some(more) = high.parse::<u64>()?.checked_add(1) {
            check_beside(&rt, rt.alloc(), text, place, more)?;
        }
    }
    Ok(())
}

fn check_beside(
    rt: &impl Abort,
    alloc: Global,
    text: &str,
    place: &str,
    number: u64,
) -> Result<(), Fail> {
    let value = format!(in alloc; "{number}")?;
    let line = format!(in alloc; "refused 7 OutOfRange {place} value={number}")?;
    check_with(rt, alloc, text, value.as_str(), line.as_str())
}

#[test]
fn no_numbers(rt: HostRuntime) -> Result<(), Fail> {
    for row in BOUNDS.lines() {
        let (text, rest) = cut(row)?;
        let (place, _) = cut(rest)?;
        let line = format!(in rt.alloc(); "refused 6 NotNumber {place}")?;
        for &value in &[
            "null",
            "true",
            "\"1\"",
            "[]",
            "{}",
            "-0",
            "-1",
            "1.0",
            "1e0",
            "18446744073709551616",
        ] {
            check_with(&rt, rt.alloc(), text, value, line.as_str())?;
        }
    }
    Ok(())
}

// Each place of a text, a list or an object takes no value of another kind.
#[test]
fn wrong_kinds(rt: HostRuntime) -> Result<(), Fail> {
    for row in KINDS.lines() {
        let (text, rest) = cut(row)?;
        let (place, fitting) = cut(rest)?;
        let line = format!(in rt.alloc(); "refused 3 WrongKind {place}")?;
        for value in ["null", "true", "7", "\"\"", "[]", "{}"] {
            if value != fitting {
                check_with(&rt, rt.alloc(), text, value, line.as_str())?;
            }
        }
    }
    Ok(())
}

const FULL: &str =
    r#"{"nodes":4,"faulty":1,"epochs":2,"rounds":3,"batch":5,"seed":6,"version":2,"workers":4,"order":"mixed",
"submit":[{"node":3,"tx":"6A"},{"tx":"6869","node":0},{"node":0,"tx":"6869"}],
"liars":[{"node":2,"name":"babble","hears":7}],
"links":[{"from":1,"every":2,"at":1,"shape":"late"},{"to":0,"every":1,"at":0,"shape":"twice"}],
"stops":[{"node":3,"actor":4,"call":9,"leave":"torn"},{"node":2,"actor":0,"call":1,"leave":"old"},
{"node":0,"actor":1,"call":8,"leave":"new"},{"node":3,"actor":4,"call":2,"leave":"old"}],
"faults":[{"node":3,"actor":0,"call":5},{"node":0,"actor":1,"call":6},{"node":2,"actor":2,"call":5}]}"#;

// A copy of the script of a text.
fn script(alloc: Global, text: &str) -> Result<Script, Fail> {
    let cast = cast()?;
    match read_script(alloc, text.as_bytes(), &cast) {
        Ok(script) => Ok(script.copy(alloc)?),
        Err(_) => Err("a scenario was refused")?,
    }
}

#[test]
fn numbers_of_a_scenario(rt: HostRuntime) -> Result<(), Fail> {
    let usual = r#"{"nodes":1,"faulty":0,"epochs":1}"#;
    for &(text, numbers, seed, order) in &[
        (FULL, [4, 1, 2, 3, 5, 2, 4], 6, Order::Mixed),
        (usual, [1, 0, 1, 32, 64, 1, 0], 0, Order::Fifo),
    ] {
        let script = script(rt.alloc(), text)?;
        let c = script.config;
        let read = [
            c.n(),
            c.f(),
            c.epochs(),
            c.rounds(),
            c.batch(),
            c.version(),
            script.workers,
        ];
        assert!(rt;
            read == numbers && c.seed() == seed && script.order == order,
            "{text}"
        );
    }
    Ok(())
}

#[test]
fn lists_of_a_scenario(rt: HostRuntime) -> Result<(), Fail> {
    let [_, babble, _] = cast()?;
    let script = script(rt.alloc(), FULL)?;
    let submit = [
        (3, b"j".as_slice()),
        (0, b"hi".as_slice()),
        (0, b"hi".as_slice()),
    ];
    assert!(rt; script.submit.len() == submit.len());
    for (entry, (node, tx)) in script.submit.iter().zip(submit) {
        assert!(rt; entry.node == node && entry.tx.as_slice() == tx);
    }
    let liar = LiarAt {
        node: 2,
        name: babble,
        hears: 7,
    };
    let links = [
        Link {
            from: Some(1),
            to: None,
            every: 2,
            at: 1,
            shape: Shape::Late,
        },
        Link {
            from: None,
            to: Some(0),
            every: 1,
            at: 0,
            shape: Shape::Twice,
        },
    ];
    let liars = script.config.liars();
    assert!(rt;
        script.liars.as_slice() == [liar].as_slice()
            && liars.has(2)
            && liars.count() == 1
            && script.links.as_slice() == links.as_slice()
    );
    Ok(())
}

// The entries at node 2, which lies, are not among them.
#[test]
fn plans_of_a_scenario(rt: HostRuntime) -> Result<(), Fail> {
    let script = script(rt.alloc(), FULL)?;
    let first = [Stop {
        call: 8,
        leave: Leave::New,
    }];
    let last = [
        Stop {
            call: 9,
            leave: Leave::Torn,
        },
        Stop {
            call: 2,
            leave: Leave::Old,
        },
    ];
    let plans = [
        (0, 1, first.as_slice(), [6].as_slice()),
        (3, 0, [].as_slice(), [5].as_slice()),
        (3, 4, last.as_slice(), [].as_slice()),
    ];
    assert!(rt; script.plans.len() == plans.len());
    for (entry, (node, actor, stops, faults)) in script.plans.iter().zip(plans) {
        assert!(rt;
            entry.node == node
                && entry.actor == actor
                && entry.plan.stops.as_slice() == stops
                && entry.plan.faults.as_slice() == faults,
            "node {node}, actor {actor}"
        );
    }
    Ok(())
}

// A script with four rules, of which the first never holds.
fn with_links(alloc: Global) -> Result<Script, Fail> {
    let mut script = script(alloc, r#"{"nodes":4,"faulty":0,"epochs":1}"#)?;
    script.links = vec![in alloc;
        Link {
            from: None,
            to: None,
            every: 0,
            at: 0,
            shape: Shape::Drop
        },
        Link {
            from: Some(0),
            to: Some(1),
            every: 3,
            at: 1,
            shape: Shape::Late
        },
        Link {
            from: Some(0),
            to: None,
            every: 2,
            at: 0,
            shape: Shape::Drop
        },
        Link {
            from: None,
            to: None,
            every: 5,
            at: 4,
            shape: Shape::Twice
        },
    ]?;
    Ok(script)
}

#[test]
fn shapes_of_posts(rt: HostRuntime) -> Result<(), Fail> {
    let script = with_links(rt.alloc())?;
    for &(from, to, k, wanted) in &[
        (0, 0, 4, Shape::Once),
        (0, 1, 1, Shape::Late),
        (0, 1, 4, Shape::Late),
        (0, 1, 0, Shape::Drop),
        (0, 1, 2, Shape::Drop),
        (0, 1, 3, Shape::Once),
        (0, 1, 9, Shape::Twice),
        (0, 2, 1, Shape::Once),
        (0, 2, 4, Shape::Drop),
        (1, 0, 4, Shape::Twice),
        (2, 3, 4_294_967_294, Shape::Twice),
        (2, 3, 4_294_967_295, Shape::Once),
        (3, 3, 4, Shape::Once),
    ] {
        assert!(rt;
            shape(&script, from, to, k) == wanted,
            "from {from} to {to}, post {k}"
        );
    }
    Ok(())
}

// A text, and so many times another behind it, and an end.
fn repeated(
    alloc: Global,
    head: &str,
    again: &str,
    count: usize,
    end: &str,
) -> Result<String, AllocError> {
    let mut text = String::new(alloc);
    text.push_str(head)?;
    for _ in 0..count {
        text.push_str(again)?;
    }
    text.push_str(end)?;
    Ok(text)
}

#[test]
fn long_texts(rt: HostRuntime) -> Result<(), Fail> {
    let alloc = rt.alloc();
    for row in LONG.lines() {
        let (head, rest) = cut(row)?;
        let (again, rest) = cut(rest)?;
        let (count, rest) = cut(rest)?;
        let (end, line) = cut(rest)?;
        let text = repeated(alloc, head, again, count.parse::<usize>()?, end)?;
        check(&rt, alloc, text.as_str(), line)?;
    }
    Ok(())
}

#[test]
fn longest_texts(rt: HostRuntime) -> Result<(), Fail> {
    let alloc = rt.alloc();
    let least = r#"{"nodes":1,"faulty":0,"epochs":1}"#;
    for &(head, count, line) in &[
        (least, 1_048_543, "fine"),
        (least, 1_048_544, "refused 1 TooLong"),
        ("", 1_048_576, "refused 2 NotJson"),
        ("", 1_048_577, "refused 1 TooLong"),
    ] {
        let text = repeated(alloc, head, " ", count, "")?;
        check(&rt, alloc, text.as_str(), line)?;
    }
    Ok(())
}

#[test]
fn deep_texts(rt: HostRuntime) -> Result<(), Fail> {
    let alloc = rt.alloc();
    for &(depth, line) in &[
        (127, "refused 3 WrongKind top 0 -"),
        (128, "refused 2 NotJson"),
    ] {
        let ends = repeated(alloc, "", "]", depth, "")?;
        let text = repeated(alloc, "", "[", depth, ends.as_str())?;
        check(&rt, alloc, text.as_str(), line)?;
    }
    Ok(())
}

// Whether a text is told of as no JSON.
fn is_no_json(alloc: Global, text: &[u8]) -> Result<bool, Fail> {
    let sink = told(alloc, text, Vec::new(alloc))?;
    Ok(sink.held() == b"refused 2 NotJson\n".as_slice())
}

#[test]
fn texts_that_are_cut_off(rt: HostRuntime) -> Result<(), Fail> {
    let alloc = rt.alloc();
    let full = FULL.as_bytes();
    for len in 0..full.len() {
        assert!(rt; is_no_json(alloc, &full[..len])?, "{len} bytes");
    }
    let no_text = b"{\"nodes\":1,\"faulty\":0,\"epochs\":1,\"order\":\"\xff\"}";
    assert!(rt; is_no_json(alloc, no_text)?);
    Ok(())
}

// What is told of a text with a word of so many bytes, where the put with this number fails.
fn told_of_word(alloc: Global, count: usize, failing: u32) -> Result<MemorySink, Fail> {
    let head = r#"{"nodes":1,"faulty":0,"epochs":1,"order":""#;
    let text = repeated(alloc, head, "a", count, "\"}")?;
    told(alloc, text.as_bytes(), vec![in alloc; failing]?)
}

// A word of up to 256 bytes is put with its line, a longer one in pieces of 256: a put that fails leaves those before it.
#[test]
fn lines_of_long_words(rt: HostRuntime) -> Result<(), Fail> {
    let alloc = rt.alloc();
    let words = "refused 14 BadWord top 0 order word=";
    for &(count, failing, shown, end) in &[
        (256, 2, 256, "\n"),
        (256, 1, 0, ""),
        (600, 6, 600, "\n"),
        (600, 5, 600, ""),
        (600, 4, 512, ""),
        (600, 3, 256, ""),
        (600, 2, 0, ""),
    ] {
        let sink = told_of_word(alloc, count, failing)?;
        let head = if count == 256 && failing == 1 {
            ""
        } else {
            words
        };
        let want = repeated(alloc, head, "61", shown, end)?;
        assert!(rt;
            sink.held() == want.as_bytes(),
            "{count} bytes, put {failing} fails"
        );
    }
    Ok(())
}
