//! What whole calls answer and tell, where a text breaks the form, a source or a sink fails, or the words are unknown.

use hb_base::{Bytes, MemorySink, MemorySource};
use std::alloc::{AllocError, Global};
use std::test::Fail;
use votes_app::votes_main;

// What a call answered, what it printed and what it told.
#[derive(Drop)]
struct Ended {
    status: u8,
    out: MemorySink,
    err: MemorySink,
}

// Calls the program on a text in pieces of so many bytes, with this take and this put failing, 0 for none.
fn call(
    alloc: Global,
    words: &[&str],
    text: &str,
    step: u32,
    take: u32,
    put: u32,
) -> Result<Ended, AllocError> {
    let mut owned = Vec::new(alloc);
    for word in words {
        owned.push(String::from_str(alloc, word)?)?;
    }
    let bytes = Bytes::copy(alloc, text.as_bytes())?;
    let mut source = MemorySource::new(bytes, step.max(1), vec![in alloc; take]?);
    let mut out = MemorySink::new(alloc, vec![in alloc; put]?);
    let mut err = MemorySink::new(alloc, Vec::new(alloc));
    let status = votes_main(alloc, owned.as_slice(), &mut source, &mut out, &mut err);
    Ok(Ended { status, out, err })
}

fn is_so(call: &Ended, status: u8, out: &str, err: &str) -> bool {
    call.status == status && call.out.held() == out.as_bytes() && call.err.held() == err.as_bytes()
}

const HEAD: &str = "trace nodes 1 faulty 0 version 1 epochs 1 rounds 3 batch 64 seed 0 liars 0\n";

const POST: &str = "post 0 from 0 actor 1 to home 1100\n";

const WORDS: &str = "post 0 from 0 actor 1 to home: NOMORE epoch 0\n";

// What stands behind the first line, what of it is printed, and the line that is told to break the form. A number with a needless
// zero, an upper-case digit, an end with another count, one that lacks its newline, and more behind the end are each refused.
const BROKEN: [(&str, &str, &str); 8] = [
    ("", "", "2"),
    ("post 0 from 0 actor 1 to home 1100", "", "2"),
    ("post 0 from 00 actor 1 to home 1100\nend 1\n", "", "2"),
    ("post 0 from 0 actor 1 to home 0A00\nend 1\n", "", "2"),
    ("post 1 from 0 actor 1 to home 1100\nend 1\n", "", "2"),
    ("end 1\n", "", "2"),
    ("end 0", "", "2"),
    ("end 0\n\n", "", "3"),
];

#[test]
fn texts_that_break(rt: HostRuntime) -> Result<(), Fail> {
    let alloc = rt.alloc();
    for &(lines, words, line) in &BROKEN {
        for &step in &[1u32, 4096] {
            let text = format!(in alloc; "{HEAD}{lines}")?;
            let out = format!(in alloc; "{HEAD}{words}")?;
            let err = format!(in alloc; "refused 20 NotATrace line={line}\n")?;
            let call = call(alloc, &[], text.as_str(), step, 0, 0)?;
            assert!(rt; is_so(&call, 3, out.as_str(), err.as_str()), "{lines}");
        }
    }
    Ok(())
}

#[test]
fn texts_that_break_later(rt: HostRuntime) -> Result<(), Fail> {
    let alloc = rt.alloc();
    for &(lines, line) in &[("end 2\n", "3"), ("end 1\n \n", "4"), ("\n", "3")] {
        let text = format!(in alloc; "{HEAD}{POST}{lines}")?;
        let out = format!(in alloc; "{HEAD}{WORDS}")?;
        let err = format!(in alloc; "refused 20 NotATrace line={line}\n")?;
        let call = call(alloc, &[], text.as_str(), 16, 0, 0)?;
        assert!(rt; is_so(&call, 3, out.as_str(), err.as_str()), "{lines}");
    }
    let call = call(alloc, &[], "trace\n", 16, 0, 0)?;
    assert!(rt; is_so(&call, 3, "", "refused 20 NotATrace line=1\n"));
    Ok(())
}

// The text comes in pieces of 16 bytes: the first line ends in the fifth, the post in the seventh, the last line in the eighth,
// and a ninth take finds the end.
#[test]
fn takes_that_fail(rt: HostRuntime) -> Result<(), Fail> {
    let alloc = rt.alloc();
    let text = format!(in alloc; "{HEAD}{POST}end 1\n")?;
    let both = format!(in alloc; "{HEAD}{WORDS}")?;
    for &(take, out) in &[(1u32, ""), (5, ""), (6, HEAD), (7, HEAD)] {
        let call = call(alloc, &[], text.as_str(), 16, take, 0)?;
        assert!(rt; is_so(&call, 6, out, "read failed\n"), "take {take}");
    }
    let call = call(alloc, &[], text.as_str(), 16, 9, 0)?;
    assert!(rt; is_so(&call, 6, both.as_str(), "read failed\n"));
    Ok(())
}

#[test]
fn puts_that_fail(rt: HostRuntime) -> Result<(), Fail> {
    let alloc = rt.alloc();
    let text = format!(in alloc; "{HEAD}{POST}end 1\n")?;
    let both = format!(in alloc; "{HEAD}{WORDS}")?;
    for &(put, out) in &[(1u32, ""), (2, HEAD), (3, both.as_str())] {
        let call = call(alloc, &["--full"], text.as_str(), 16, 0, put)?;
        assert!(rt; is_so(&call, 7, out, ""), "put {put}");
    }
    Ok(())
}

#[test]
fn words_of_calls(rt: HostRuntime) -> Result<(), Fail> {
    let alloc = rt.alloc();
    let text = format!(in alloc; "{HEAD}{POST}end 1\n")?;
    let all = format!(in alloc; "{HEAD}{WORDS}end 1\n")?;
    for &words in &[&[][..], &["--full"][..]] {
        let call = call(alloc, words, text.as_str(), 16, 0, 0)?;
        assert!(rt; is_so(&call, 0, all.as_str(), ""));
    }
    for &words in &[&["full"][..], &["--full", "--full"][..], &[""][..]] {
        let call = call(alloc, words, text.as_str(), 16, 0, 0)?;
        assert!(rt; is_so(&call, 2, "", "usage: hb_votes [--full]\n"));
    }
    Ok(())
}
