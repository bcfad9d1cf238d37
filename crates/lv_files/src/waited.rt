//! Streams that are waited for.

use lv_transcript::LogWriter;
use std::io::{Error, ErrorKind, Read, Write};
use std::time::{Clock, Duration};
use std::{io, thread};

// How many microseconds pass before a stream is asked the second time, and after how many times the naps grow no more: at 50 ms.
const NAP_MICROSECONDS: u64 = 100;

const GROWING_NAPS: u64 = 500;

/// A stream that is waited for. Another process may set a shared stream to answer at once that it would block. Such a stream is asked again, after
/// naps that grow, until it gives or takes bytes, ends or fails. It is also asked again if a signal has interrupted the call, or if it is a pipe
/// after whose end another writer may come.
#[derive(Drop)]
pub struct Waited<C: Copy, S: Drop> {
    clock: C,
    stream: S,
}

impl<C: Clock + Copy, S: Drop> Waited<C, S> {
    /// A stream that is waited for by a clock.
    pub fn new(clock: C, stream: S) -> Waited<C, S> {
        Waited { clock, stream }
    }

    /// The stream that is waited for.
    pub fn stream(&self) -> &S {
        &self.stream
    }

    /// The underlying stream.
    pub fn into_stream(self) -> S {
        let Waited { stream, .. } = self;
        stream
    }

    // Lets some time pass, the more the oftener the stream was asked.
    fn nap(&self, times: u64) {
        let naps = times.min(GROWING_NAPS - 1) + 1;
        thread::sleep(&self.clock, Duration::from_micros(naps * NAP_MICROSECONDS));
    }
}

// Whether a stream that answers with this error is to be asked again.
fn is_passing(error: &Error) -> bool {
    let kind = error.kind();
    kind == ErrorKind::WouldBlock || kind == ErrorKind::Interrupted
}

impl<C: Clock + Copy, R: Read + Drop> Read for Waited<C, R> {
    ghost remaining = { λ waited. R.remaining waited.stream };

    fn read(&mut self, buf: &mut [u8]) -> io::Result<usize> {
        for times in 0..u64::MAX {
            match self.stream.read(buf) {
                Err(error) if is_passing(&error) => self.nap(times),
                read => return read,
            }
        }
        Err(Error::from(ErrorKind::WouldBlock))
    }
}

impl<C: Clock + Copy, W: Write + Drop> Write for Waited<C, W> {
    ghost contents = { λ waited. W.contents waited.stream };

    fn write(&mut self, buf: &[u8]) -> io::Result<usize> {
        for times in 0..u64::MAX {
            match self.stream.write(buf) {
                Err(error) if is_passing(&error) => self.nap(times),
                written => return written,
            }
        }
        Err(Error::from(ErrorKind::WouldBlock))
    }

    fn flush(&mut self) -> io::Result<()> {
        for times in 0..u64::MAX {
            match self.stream.flush() {
                Err(error) if is_passing(&error) => self.nap(times),
                flushed => return flushed,
            }
        }
        Err(Error::from(ErrorKind::WouldBlock))
    }
}

/// The file of a transcript is never begun anew.
impl<C: Clock + Copy, W: Write + Drop> LogWriter for Waited<C, W> {}
