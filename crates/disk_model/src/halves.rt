//! The two halves of a disk in memory.
ghost use Rattle.std.specs.Prelude.{◌≡◌, ◌≤◌, ◌<◌, ◌+◌, ◌^◌, [], ◌∷◌, length, IfOk, OnOk, OnErr};
ghost use Rattle.disk_model.specs.Image.{half_of};
ghost use Rattle.disk_model.specs.Disk.{Reads};
ghost use Rattle.disk_model.specs.Area.{IsKept, at_rest, after_write, after_cut};
ghost use Rattle.disk_model.specs.Halves.{HasBytes, content_of, on_half, settled, restored};

use crate::area::Area;
use crate::disk::Half;
use crate::plan::Leave;
use std::alloc::{AllocError, Global};

#[derive(Drop)]
pub(crate) struct Halves {
    pub a: Area,
    pub b: Area,
}

impl Halves {
    pub(crate) fn new(alloc: Global) -> Halves
        ensures { result ≡ record { a = at_rest []; b = at_rest [] } }
    {
        Halves {
            a: Area::new(alloc),
            b: Area::new(alloc),
        }
    }

    /// What their types keep, for a proof.
    pub(crate) fn kept(&self)
        ensures a { IsKept self.now.a }
        ensures b { IsKept self.now.b }
    {
        self.a.kept();
        self.b.kept();
    }

    pub(crate) fn read(&self, half: Half, at: u64, buf: &mut [u8]) -> usize
        ensures { Reads (half_of half (content_of self.now)) at buf.old buf.new result }
    {
        match half {
            Half::A => self.a.read(at, buf),
            Half::B => self.b.read(at, buf),
        }
    }

    pub(crate) fn write(&mut self, half: Half, at: u64, bytes: &[u8]) -> Result<(), AllocError>
        requires { at ≤ length (half_of half (content_of self.old)) }
        ensures ok { OnOk result (self.new ≡ on_half half (after_write at bytes.now) self.old) }
        ensures small { OnOk result (at + length bytes.now < 2 ^ 63) }
        ensures err { OnErr result (self.new ≡ self.old) }
        ensures wanting { OnErr result (0 < length bytes.now) }
    {
        match half {
            Half::A => self.a.write(at, bytes),
            Half::B => self.b.write(at, bytes),
        }
    }

    pub(crate) fn cut(&mut self, half: Half, len: u64)
        requires { len ≤ length (half_of half (content_of self.old)) }
        ensures { self.new ≡ on_half half (after_cut len) self.old }
    {
        match half {
            Half::A => self.a.cut(len),
            Half::B => self.b.cut(len),
        }
    }

    pub(crate) fn settle(&mut self)
        ensures { self.new ≡ settled self.old }
    {
        self.a.settle();
        self.b.settle();
    }

    /// What a stop leaves, with nothing pending.
    pub(crate) fn left(&self, leave: Leave) -> Result<Halves, AllocError>
        ensures ok { IfOk result (λ halves. halves ≡ restored leave self.now) }
        ensures wanting { OnErr result (HasBytes (restored leave self.now)) }
    {
        Ok(Halves {
            a: self.a.left(leave)?,
            b: self.b.left(leave)?,
        })
    }
}
