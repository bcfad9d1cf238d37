//! Standard output, whose reader may end early.

use std::io;
use std::io::{ErrorKind, Write};

/// A writer that notes whether the reader of its bytes has ended, and whether that is to be reported.
#[derive(Drop)]
pub struct Piped<W: Write> {
    writer: W,
    is_cut: bool,
    is_quiet: bool,
}

impl<W: Write> Piped<W> {
    /// A writer whose reader has not ended. If it is quiet, nothing is to be reported when the reader ends.
    pub fn new(writer: W, is_quiet: bool) -> Piped<W> {
        Piped {
            writer,
            is_cut: false,
            is_quiet,
        }
    }

    /// Whether a write has failed because nobody reads any more, and that is not to be reported.
    pub fn ends_quietly(&self) -> bool {
        self.is_quiet && self.is_cut
    }
}

impl<W: Write> Write for Piped<W> {
    ghost contents = { λ piped. W.contents piped.writer };

    fn write(&mut self, buf: &[u8]) -> io::Result<usize> {
        let written = self.writer.write(buf);
        if let Err(error) = &written {
            self.is_cut = self.is_cut || error.kind() == ErrorKind::BrokenPipe;
        }
        written
    }

    fn flush(&mut self) -> io::Result<()> {
        self.writer.flush()
    }
}
