//! A reader as a source, and a writer as a sink.

ghost use Rattle.std.specs.Prelude.{◌≡◌, ℕ, false, ◌<◌, ◌≤◌, length, take, IfOk, OnOk, MatchResult};
ghost use Rattle.std.specs.Io.{ReadsAtMost, WritesAtMost};
ghost use Rattle.std.specs.Io.KnownBytes.{Keeps, ReadConsumes, WriteAppends};
ghost use Rattle.hb_base.specs.Outside.{HasCause, Puts};

use hb_base::{Failed, Sink, Source};
use std::io::{ErrorKind, Read, Write};

/// A reader as a source. It counts the takes that failed.
#[derive(Drop)]
pub struct Reading<R> {
    reader: R,
    faults: u64,
}

impl<R> Reading<R> {
    /// A source over a reader of which no take has failed.
    pub fn new(reader: R) -> Reading<R>
        ensures { result ≡ record { reader = reader; faults = 0 } }
    {
        Reading { reader, faults: 0 }
    }
}

impl<R: Read> Source for Reading<R> {
    ghost left = { λ s. R.remaining s.reader };

    ghost faults = { λ s. s.faults };

    fn take(&mut self, buf: &mut [u8]) -> Result<usize, Failed> {
        let taken = read_some(&mut self.reader, buf);
        if taken.is_err() {
            self.faults = self.faults.saturating_add(1);
        }
        taken
    }
}

// Reads some bytes, again after each interruption.
#[tactic(auto, using(crate::proofs::KnownBytes::keeps_itself, crate::proofs::KnownBytes::keeps_then_keeps, crate::proofs::KnownBytes::keeps_then_read))]
fn read_some<R: Read>(reader: &mut R, buf: &mut [u8]) -> Result<usize, Failed>
    ensures bound { ReadsAtMost result buf.new }
    ensures bytes { ReadConsumes (R.remaining reader.old) (R.remaining reader.new) result buf.new }
{
    for _ in 0..u64::MAX {
        match reader.read(buf) {
            Ok(count) => return Ok(count),
            Err(error) if error.kind() == ErrorKind::Interrupted => {}
            Err(_) => return Err(Failed),
        }
    }
    Err(Failed)
}

/// A writer as a sink. It counts the puts that failed, and tells whether one failed since the reader of the stream had closed it.
#[derive(Drop)]
pub struct Writing<W> {
    writer: W,
    faults: u64,
    closed: bool,
}

impl<W> Writing<W> {
    /// A sink over a writer of which no put has failed.
    pub fn new(writer: W) -> Writing<W>
        ensures { result ≡ record { writer = writer; faults = 0; closed = false } }
    {
        Writing {
            writer,
            faults: 0,
            closed: false,
        }
    }

    /// Whether a put failed since the reader of the stream had closed it.
    pub fn is_closed(&self) -> bool
        ensures { result ≡ self.now.closed }
    {
        self.closed
    }
}

impl<W: Write> Sink for Writing<W> {
    ghost held = { λ s. W.contents s.writer };

    ghost faults = { λ s. s.faults };

    fn put(&mut self, bytes: &[u8]) -> Result<(), Failed> {
        match write_through(&mut self.writer, bytes) {
            Ok(()) => Ok(()),
            Err(kind) => {
                self.faults = self.faults.saturating_add(1);
                self.closed |= kind == ErrorKind::BrokenPipe;
                Err(Failed)
            }
        }
    }
}

// Writes all the bytes, and then flushes the writer.
fn write_through<W: Write>(writer: &mut W, bytes: &[u8]) -> Result<(), ErrorKind>
    ensures { Puts (W.contents writer.old) (W.contents writer.new) result bytes.now }
{
    write_whole(writer, bytes)?;
    match writer.flush() {
        Ok(()) => Ok(()),
        Err(error) => Err(error.kind()),
    }
}

// Writes all the bytes. std's `write_all` does not tell what was written where it fails.
#[tactic(auto, using(crate::proofs::KnownBytes::keeps_itself, crate::proofs::KnownBytes::appends_nothing, crate::proofs::KnownBytes::front_grows, crate::proofs::KnownBytes::front_stays))]
fn write_whole<W: Write>(writer: &mut W, bytes: &[u8]) -> Result<(), ErrorKind>
    ensures { Puts (W.contents writer.old) (W.contents writer.new) result bytes.now }
{
    let mut at = 0;
    for _ in 0..u64::MAX {
        if at == bytes.len() {
            return Ok(());
        }
        at += write_some(writer, &bytes[at..])?;
    }
    Err(ErrorKind::Other)
}

// Writes some of the bytes, or none after an interruption. A writer that takes none has failed.
fn write_some<W: Write>(writer: &mut W, bytes: &[u8]) -> Result<usize, ErrorKind>
    ensures bound { IfOk result (λ count. count ≤ length bytes.now) }
    ensures bytes { WriteAppends (W.contents writer.old) (W.contents writer.new) result bytes.now }
{
    match writer.write(bytes) {
        Ok(0) => Err(ErrorKind::WriteZero),
        Ok(count) => Ok(count),
        Err(error) if error.kind() == ErrorKind::Interrupted => Ok(0),
        Err(error) => Err(error.kind()),
    }
}
