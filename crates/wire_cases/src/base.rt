//! What no clause of hb_base says: that calls find memory and succeed, and that the limits are those that were meant.

ghost use Rattle.std.specs.Prelude.{◌≡◌, ◌≤◌, length, IfOk};

use hb_base::{Bytes, Config, LiarName, MemorySink, MemorySource, NodeSet, OpenGate, Sink, Source};
use std::alloc::{AllocError, Global};
use std::process::Abort;
use std::test::Fail;

#[test]
fn configs_at_their_limits(rt: HostRuntime) {
    for &(n, f, epochs, rounds, batch, version, wanted) in &[
        (1, 0, 1, 1, 1, 1, true),
        (16, 5, 32, 32, 64, 1, true),
        (4, 1, 1, 32, 64, 1, true),
        (3, 1, 1, 32, 64, 1, false),
        (15, 5, 1, 32, 64, 1, false),
        (0, 0, 1, 32, 64, 1, false),
        (17, 5, 1, 32, 64, 1, false),
        (16, 6, 1, 32, 64, 1, false),
        (4, 1, 0, 32, 64, 1, false),
        (4, 1, 33, 32, 64, 1, false),
        (4, 1, 1, 0, 64, 1, false),
        (4, 1, 1, 33, 64, 1, false),
        (4, 1, 1, 32, 0, 1, false),
        (4, 1, 1, 32, 65, 1, false),
        (4, 1, 1, 32, 64, 0, false),
        (4, 1, 1, 32, 64, 2, true),
        (4, 1, 1, 32, 64, 3, false),
    ] {
        let config = Config::new(n, f, epochs, rounds, batch, 7, version, NodeSet::new());
        assert!(rt; config.is_some() == wanted, "n {n}, f {f}, epochs {epochs}");
    }
}

#[test]
fn liars_of_a_config(rt: HostRuntime) {
    for (first, second, wanted) in [(0, 0, true), (3, 3, true), (4, 4, false), (0, 3, false)] {
        let mut liars = NodeSet::new();
        liars.add(first);
        liars.add(second);
        let config = Config::new(4, 1, 1, 32, 64, 0, 1, liars);
        assert!(rt; config.is_some() == wanted, "liars {first} and {second}");
    }
}

// Whether a text is a name exactly where that is wanted, and the name then has the bytes of the text.
fn is_as_wanted(text: &str, wanted: bool) -> bool {
    match LiarName::of(text) {
        Some(name) => wanted && name.as_bytes() == text.as_bytes(),
        None => !wanted,
    }
}

#[test]
fn names_of_liars(rt: HostRuntime) {
    for &(text, wanted) in &[
        ("silent", true),
        ("echo_split", true),
        ("a", true),
        ("0123456789abcdef", true),
        ("", false),
        ("0123456789abcdefg", false),
        ("Silent", false),
        ("a b", false),
        ("a-b", false),
        ("é", false),
    ] {
        assert!(rt; is_as_wanted(text, wanted), "{text}");
    }
}

// The bytes `bad`, taken over from a vector.
fn bad(alloc: Global) -> Result<Bytes, AllocError> {
    Bytes::from_vec(vec![in alloc; 98, 97, 100]?)
}

#[test]
fn byte_strings(rt: HostRuntime) -> Result<(), Fail> {
    let bad = bad(rt.alloc())?;
    let honey = Bytes::copy(rt.alloc(), b"honey")?;
    let again = honey.clone()?;
    let are_read = bad.as_slice() == b"bad".as_slice() && again.as_slice() == b"honey".as_slice();
    assert!(rt; are_read && again == honey && bad < honey);
    Ok(())
}

// So many bytes.
fn long_bytes(alloc: Global, len: u32) -> Result<Vec<u8>, AllocError> {
    let mut bytes = Vec::new(alloc);
    let mut byte = 0u8;
    for _ in 0..len {
        bytes.push(byte)?;
        byte = byte.wrapping_add(7);
    }
    Ok(bytes)
}

// Whether the bytes are copied, and taken over.
fn are_kept(alloc: Global, bytes: Vec<u8>) -> Result<bool, AllocError> {
    let copy = Bytes::copy(alloc, bytes.as_slice())?;
    let are_copied = copy.as_slice() == bytes.as_slice();
    let taken = Bytes::from_vec(bytes)?;
    let again = taken.clone()?;
    Ok(are_copied && again == copy)
}

#[test]
fn long_byte_strings(rt: HostRuntime) -> Result<(), Fail> {
    for len in [65_536, 65_537, 1_000_000] {
        let bytes = long_bytes(rt.alloc(), len)?;
        assert!(rt; are_kept(rt.alloc(), bytes)?, "{len} bytes");
    }
    Ok(())
}

// Bytes, and the part of them that spells `badger`.
fn badger(alloc: Global) -> Result<(Bytes, Bytes), AllocError>
    ensures { IfOk result (λ both. length both.1 ≡ 6) }
{
    let whole = Bytes::copy(alloc, b"honey badger")?;
    let part = whole.part(6, 6)?;
    Ok((whole, part))
}

// Whether the third byte, as a part of a clone, is this one.
fn is_third(bytes: &Bytes, third: u8) -> Result<bool, AllocError>
    requires { 3 ≤ length bytes.now }
{
    let clone = bytes.clone()?;
    let part = clone.part(2, 1)?;
    Ok(part.as_slice() == [third].as_slice())
}

#[test]
fn parts_of_byte_strings(rt: HostRuntime) -> Result<(), Fail> {
    let (whole, badger) = badger(rt.alloc())?;
    let middle = badger.part(1, 3)?;
    let end = badger.part(6, 0)?;
    drop(whole);
    drop(badger);
    assert!(rt; is_third(&middle, b'g')?);
    assert!(rt;
        middle.as_slice() == b"adg".as_slice() && end.as_slice().is_empty() && end < middle
    );
    Ok(())
}

// Whether the longer part of these bytes that begins with a front is found, and which it is.
fn is_longer(bytes: &Bytes, front: &[u8], wanted: &[u8]) -> Result<bool, AllocError> {
    match bytes.with_front(front)? {
        Some(longer) => Ok(longer.as_slice() == wanted),
        None => Ok(false),
    }
}

#[test]
fn fronts_of_byte_strings(rt: HostRuntime) -> Result<(), Fail> {
    let (whole, badger) = badger(rt.alloc())?;
    assert!(rt; is_longer(&badger, b"ey ", b"ey badger")? && is_longer(&badger, b"", b"badger")?);
    assert!(rt; badger.with_front(b"ax ")?.is_none() && badger.with_front(b"a honey ")?.is_none());
    drop(whole);
    assert!(rt; is_longer(&badger, b"honey ", b"honey badger")?);
    Ok(())
}

// Bytes that come two at a time, of which the second time fails.
fn source(alloc: Global) -> Result<MemorySource, AllocError> {
    let failing = vec![in alloc; 2]?;
    Ok(MemorySource::new(Bytes::copy(alloc, b"honey")?, 2, failing))
}

#[test]
fn a_source_in_pieces(rt: HostRuntime) -> Result<(), Fail> {
    let mut source = source(rt.alloc())?;
    let mut buf = *b"____";
    for &(wanted, whole) in &[
        (Some(2), b"ho__"),
        (None, b"ho__"),
        (Some(2), b"ne__"),
        (Some(1), b"ye__"),
        (Some(0), b"ye__"),
    ] {
        let count = source.take(&mut buf).ok();
        assert!(rt; count == wanted && buf == *whole);
    }
    Ok(())
}

// Puts three pieces of two bytes into a sink whose second call fails.
fn put_pieces(rt: &impl Abort, sink: &mut MemorySink) {
    for (piece, wanted) in [(b"ho", true), (b"xx", false), (b"ny", true)] {
        assert!(rt; sink.put(piece).is_ok() == wanted);
    }
    assert!(rt; sink.held() == b"hony".as_slice());
}

#[test]
fn a_sink_that_fails_once(rt: HostRuntime) -> Result<(), Fail> {
    let alloc = rt.alloc();
    put_pieces(&rt, &mut MemorySink::new(alloc, vec![in alloc; 2]?));
    let mut sink = MemorySink::with_room(alloc, 4, vec![in alloc; 2]?)?;
    put_pieces(&rt, &mut sink);
    Ok(())
}

fn crosses_threads<T: Send + Sync>(_value: &T) {}

#[test]
fn all_may_go_to_another_thread(rt: HostRuntime) -> Result<(), Fail> {
    let alloc = rt.alloc();
    let bytes = Bytes::copy(alloc, b"honey")?;
    crosses_threads(&bytes);
    crosses_threads(&Config::default());
    crosses_threads(&LiarName::of("silent"));
    crosses_threads(&OpenGate);
    crosses_threads(&MemorySource::new(bytes, 1, Vec::new(alloc)));
    crosses_threads(&MemorySink::new(alloc, Vec::new(alloc)));
    Ok(())
}
