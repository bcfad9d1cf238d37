//! The end of a stream of lines.

ghost use Rattle.std.specs.Prelude.{◌≡◌, [], Some};
ghost use Rattle.std.specs.Io.{ReadsAtMost};
ghost use Rattle.std.specs.Io.KnownBytes.{ReadConsumes};
ghost use Rattle.lv_files.specs.StreamEnds.{MakesBad, ends_within, handed_on};

use std::io;
use std::io::{Error, ErrorKind, Read};

const LF: u8 = 10;

/// How a stream of lines ends: what is passed on after a last line that has no LF, and whether more may come after its end.
#[derive(Clone, Copy)]
pub struct StreamEnd {
    // The bytes that are passed on after such a line: none if it counts.
    mark: &'static [u8],
    // The part of them that is still to be passed on.
    owed: &'static [u8],
    // Whether the last byte of the stream was no LF.
    is_within: bool,
    // Whether more may come after the end.
    goes_on: bool,
}

impl StreamEnd {
    /// The end of a stream whose last line counts, whether or not it has an LF.
    pub fn plain() -> StreamEnd {
        StreamEnd {
            mark: &[],
            owed: &[],
            is_within: false,
            goes_on: false,
        }
    }

    /// The end of a pipe whose writer may have been cut off: a last line without LF is torn, and is made a bad line. If the pipe goes on, another
    /// writer may come.
    pub fn torn(goes_on: bool) -> StreamEnd
        // Whatever a torn line has, it is no line of a script.
        ensures bad { MakesBad result.mark.now }
        ensures fresh { result.owed.now ≡ [] }
    {
        StreamEnd {
            mark: long_end(),
            owed: &[],
            is_within: false,
            goes_on,
        }
    }

    /// Reads from a stream, and passes on the mark after a torn line at its end. After the end of a stream that goes on it answers that it would
    /// block.
    pub fn read<R: Read>(&mut self, stream: &mut R, buf: &mut [u8]) -> io::Result<usize>
        ensures bound { ReadsAtMost result buf.new }
        // The stream's own bytes, in order, and nothing but the mark after a torn line.
        ensures bytes { ReadConsumes (handed_on self.old (R.remaining stream.old)) (handed_on self.new (R.remaining stream.new)) result buf.new }
    {
        if !self.owed.is_empty() {
            return self.owed.read(buf);
        }
        let count = match stream.read(buf) {
            Ok(count) => count,
            Err(error) => return Err(error),
        };
        if count > 0 {
            self.is_within = is_within(&buf[..count], self.is_within);
            return Ok(count);
        }
        if buf.is_empty() {
            return Ok(0);
        }
        self.read_end(buf)
    }

    // Reads after the end of the stream.
    fn read_end(&mut self, buf: &mut [u8]) -> io::Result<usize>
        requires { self.old.owed.now ≡ [] }
        ensures bound { ReadsAtMost result buf.new }
        ensures bytes { ReadConsumes (handed_on self.old (Some [])) (handed_on self.new (Some [])) result buf.new }
    {
        if self.is_within {
            self.is_within = false;
            self.owed = self.mark;
        }
        if self.owed.is_empty() && self.goes_on {
            return Err(Error::from(ErrorKind::WouldBlock));
        }
        self.owed.read(buf)
    }
}

// Whether some bytes end within a line, if a line was begun before them or not.
fn is_within(bytes: &[u8], begun: bool) -> bool
    ensures { result ≡ ends_within begun bytes.now }
{
    match bytes.last() {
        Some(byte) => *byte != LF,
        None => begun,
    }
}

// So many bytes that whatever line they end is too long, and an LF.
fn long_end() -> &'static [u8]
    ensures { MakesBad result.now }
{
    b"?????????????????????????????????????????????????????????????????????????????????????????????????????????????????????????\n"
}
