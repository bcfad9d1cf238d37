//! A reader and a writer that stop working at a stated place, for tests.
ghost use Rattle.std.specs.Prelude.{◌≡◌, ◌+◌, ◌<◌, ◌≤◌, ◌↔◌, min, Some, IsOk, IsErr, IfOk, length, vec_len, vec_capacity};
ghost use Rattle.std.specs.Io.{ReadsAtMost, WritesAtMost};
ghost use Rattle.std.specs.Io.KnownBytes.{ReadConsumes, WriteAppends, Keeps};

use lv_lines::put;
use std::io;
use std::io::{Error, ErrorKind, Read, Write};

/// A reader of given bytes that fails after some of them.
#[derive(Drop)]
pub struct FailingReader<'a> {
    /// The bytes that were not read.
    pub rest: &'a [u8],
    /// At most how many bytes one read gives.
    pub step: usize,
    /// After how many more bytes it fails: at once if this is 0, and never if it is more than there are.
    pub left: usize,
    ghost moves: { 0 < step },
}

impl Read for FailingReader<'_> {
    ghost remaining = { λ reader. Some reader.rest.now };

    fn read(&mut self, buf: &mut [u8]) -> io::Result<usize>
        ensures bound { ReadsAtMost result buf.new }
        ensures bytes { ReadConsumes (Some self.old.rest.now) (Some self.new.rest.now) result buf.new }
        ensures fails { IsErr result ↔ (self.old.left ≡ 0) }
        ensures count { IfOk result
            (λ count. count ≡ min (min (min (length buf.new) self.old.step) self.old.left) (length self.old.rest.now)) }
        ensures left { IfOk result (λ count. self.new.left + count ≡ self.old.left) }
    {
        if self.left == 0 {
            return Err(Error::from(ErrorKind::ConnectionReset));
        }
        let most = buf.len().min(self.step).min(self.left);
        let count = self.rest.read(&mut buf[..most])?;
        self.left -= count;
        Ok(count)
    }
}

/// How a writer fails once it works no more.
#[derive(Clone, Copy, PartialEq, Eq)]
pub enum Failure {
    /// It answers an error.
    Refuses,
    /// It takes no byte.
    Stalls,
}

/// A writer that keeps what it takes, and stops working after some of it. `taken` has room for all that it
/// may take.
#[derive(Drop)]
pub struct FailingWriter {
    /// The bytes that were written.
    pub taken: Vec<u8>,
    /// At most how many bytes one write takes.
    pub step: usize,
    /// After how many more bytes it stops working.
    pub left: usize,
    /// How it stops.
    pub failure: Failure,
    ghost room: { vec_len taken + left ≤ vec_capacity taken },
}

impl Write for FailingWriter {
    ghost contents = { λ writer. Some writer.taken.items };

    fn write(&mut self, buf: &[u8]) -> io::Result<usize>
        ensures bound { WritesAtMost result buf.now }
        ensures bytes { WriteAppends (Some self.old.taken.items) (Some self.new.taken.items) result buf.now }
        ensures refuses { IsErr result ↔ (self.old.left ≡ 0) × (self.old.failure ≡ Failure.Refuses) }
        ensures count { IfOk result (λ count. count ≡ min (min (length buf.now) self.old.step) self.old.left) }
        ensures left { IfOk result (λ count. self.new.left + count ≡ self.old.left) }
    {
        if self.left == 0 && self.failure == Failure::Refuses {
            return Err(Error::from(ErrorKind::BrokenPipe));
        }
        let count = buf.len().min(self.step).min(self.left);
        let (front, _) = buf.split_at(count);
        self.left -= count;
        put(&mut self.taken, front);
        Ok(count)
    }

    fn flush(&mut self) -> io::Result<()>
        ensures bytes { Keeps (Some self.old.taken.items) (Some self.new.taken.items) }
        ensures ok { IsOk result }
    {
        Ok(())
    }
}
