//! Where input comes from, and where output goes.
ghost use Rattle.std.specs.Prelude.{ℕ, ◌<◌, List, length, Option};
ghost use Rattle.std.specs.Io.{ReadsAtMost};
ghost use Rattle.std.specs.Io.KnownBytes.{ReadConsumes};
ghost use Rattle.hb_base.specs.Outside.{HasCause, Puts};

/// An outside object could not do what it was asked.
#[derive(Clone, Copy, Debug, PartialEq, Eq)]
pub struct Failed;

/// Where input comes from, in pieces. A source may tell what is left, and tells how many of its calls have failed.
pub trait Source {
    /// What is left, where the source tells it. One that tells goes on telling.
    ghost left: { Self → Option (List ℕ) };

    /// A count of failures. It never falls, stays at a call that succeeds, and rises at one that fails, unless it has reached
    /// 2^64 - 1.
    ghost faults: { Self → ℕ };

    /// Puts the next bytes at the front of `buf`, and answers how many. A source that tells what is left puts at least one,
    /// unless nothing is left.
    fn take(&mut self, buf: &mut [u8]) -> Result<usize, Failed>
        requires { 0 < length buf.old }
        ensures bound { ReadsAtMost result buf.new }
        ensures bytes { ReadConsumes (left self.old) (left self.new) result buf.new }
        ensures cause { HasCause (faults self.old) (faults self.new) result };
}

/// Where output goes. A sink may tell what it holds, and tells how many of its calls have failed.
pub trait Sink {
    /// What the sink holds, where it tells that. One that tells goes on telling.
    ghost held: { Self → Option (List ℕ) };

    /// A count of failures. It never falls, stays at a call that succeeds, and rises at one that fails, unless it has reached
    /// 2^64 - 1.
    ghost faults: { Self → ℕ };

    /// Appends all the bytes, or fails after it has appended a front of them.
    fn put(&mut self, bytes: &[u8]) -> Result<(), Failed>
        ensures bytes { Puts (held self.old) (held self.new) result bytes.now }
        ensures cause { HasCause (faults self.old) (faults self.new) result };
}
