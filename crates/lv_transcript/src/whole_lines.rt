//! A reader of the whole lines of a file: those of a log come as they are in its text.
ghost use Rattle.std.specs.Prelude.{◌≡◌, ◌+◌, ◌<◌, ◌≤◌, ◌++◌, [], true, false, IfOk, drop, take, length, vec_len, vec_capacity};
ghost use Rattle.std.specs.Io.KnownBytes.{IsAtEnd, Keeps};
ghost use Rattle.lv_lines.specs.Output.{KeepsRoom};
ghost use Rattle.lv_transcript.specs.Seals.{text_of};
ghost use Rattle.lv_transcript.specs.Unsealing.{text_left};

use crate::unsealer::{Form, Unsealer};
use std::alloc::{AllocError, Global};
use std::io;
use std::io::{Error, ErrorKind, Read};
use std::marker::Model;

// At most how many bytes one read takes.
const CHUNK: usize = 65_536;

/// A reader that fails at the end of its input, and notes that it was the end. Therefore the bytes after the last LF are not taken for
/// a line: they may be a line that was cut off. A file of version 3 is given without seals.
#[derive(Drop)]
pub(crate) struct WholeLines<R: Read + Drop> {
    reader: R,
    at_end: bool,
    chunk: Vec<u8>,
    lines: Unsealer,
    // How many bytes of the text that waits were given.
    given: usize,
}

impl<R: Read + Drop> Model for WholeLines<R> {
    ghost use Rattle.std.specs.Prelude.{◌≡◌, ◌≤◌, true, drop, length, vec_len, vec_capacity};
    ghost use Rattle.std.specs.Io.KnownBytes.{IsAtEnd};
    ghost use Rattle.lv_transcript.specs.Unsealing.{WholeState, text_left};

    ghost Value = { WholeState };

    ghost view = { λ w. record { remaining = text_left w.lines.form w.lines.hash w.lines.kept.items (drop w.given w.lines.ready.items) (R.remaining w.reader); at_end = w.at_end } };

    ghost invariant = { λ w. (w.at_end ≡ true → IsAtEnd (text_left w.lines.form w.lines.hash w.lines.kept.items (drop w.given w.lines.ready.items) (R.remaining w.reader)))
        × (w.given ≤ length w.lines.ready.items) × (vec_len w.chunk ≡ 65536) × (65685 ≤ vec_capacity w.lines.ready) };
}

impl<R: Read + Drop> WholeLines<R> {
    /// A reader that is not at the end. All memory that it needs is taken here.
    pub(crate) fn new(alloc: Global, reader: R) -> Result<WholeLines<R>, AllocError>
        ensures { IfOk result (λ whole. whole.remaining ≡ text_of (R.remaining reader)) }
    {
        Ok(WholeLines {
            reader,
            at_end: false,
            chunk: Vec::from_elem(alloc, 0u8, CHUNK)?,
            lines: Unsealer::new(alloc, CHUNK)?,
            given: 0,
        })
    }

    /// Whether all was read.
    pub(crate) fn is_at_end(&self) -> bool
        ensures { result ≡ true → IsAtEnd self.now.remaining }
    {
        self.at_end
    }

    /// The checksum of all bytes up to the last LF, if the file has seals and all lines are right.
    pub(crate) fn hash(&self) -> Option<u64> {
        if self.lines.form == Form::Sealed {
            self.lines.hash
        } else {
            None
        }
    }
}

impl<R: Read + Drop> Read for WholeLines<R> {
    ghost remaining = { λ whole. whole.remaining };

    fn read(&mut self, buf: &mut [u8]) -> io::Result<usize> {
        self.at_end = false;
        if self.given < self.lines.ready.len() {
            let count = give(&self.lines.ready, self.given, buf);
            self.given += count;
            return Ok(count);
        }
        self.lines.ready.clear();
        self.given = 0;
        match fill(&mut self.reader, &mut self.chunk, &mut self.lines) {
            Ok(true) => {
                let count = give(&self.lines.ready, 0, buf);
                self.given = count;
                Ok(count)
            }
            Ok(false) => {
                self.at_end = true;
                Err(Error::from(ErrorKind::UnexpectedEof))
            }
            Err(error) => Err(error),
        }
    }
}

// Reads until some text waits, or to the end. Says whether some waits.
fn fill<R: Read>(reader: &mut R, chunk: &mut Vec<u8>, lines: &mut Unsealer) -> io::Result<bool>
    requires chunk { vec_len chunk.old ≡ 65536 }
    requires room { 65685 ≤ vec_capacity lines.old.ready }
    requires none { lines.old.ready.items ≡ [] }
    ensures text { Keeps (text_left lines.old.form lines.old.hash lines.old.kept.items lines.old.ready.items (R.remaining reader.old)) (text_left lines.new.form lines.new.hash lines.new.kept.items lines.new.ready.items (R.remaining reader.new)) }
    ensures some { IfOk result (λ is. is ≡ true → 0 < length lines.new.ready.items) }
    ensures end { IfOk result (λ is. is ≡ false → IsAtEnd (text_left lines.new.form lines.new.hash lines.new.kept.items lines.new.ready.items (R.remaining reader.new))) }
    ensures chunk { vec_len chunk.new ≡ 65536 }
    ensures room { 65685 ≤ vec_capacity lines.new.ready }
{
    'times: for _ in 0..u64::MAX {
        let count = match reader.read(chunk) {
            Ok(count) => count,
            Err(error) => return Err(error),
        };
        if count == 0 {
            lines.end();
            return Ok(!lines.ready.is_empty());
        }
        lines.take(&chunk[..count]);
        if !lines.ready.is_empty() {
            return Ok(true);
        }
    }
    Err(Error::from(ErrorKind::Other))
}

// Gives bytes from an index on, as many as there is room for. Returns how many.
fn give(ready: &[u8], given: usize, buf: &mut [u8]) -> usize
    requires { given ≤ length ready.now }
    ensures within { result ≤ length buf.new }
    ensures length { length buf.new ≡ length buf.old }
    ensures given { given + result ≤ length ready.now }
    ensures bytes { drop given ready.now ≡ take result buf.new ++ drop (given + result) ready.now }
    ensures some { result ≡ 0 → 0 < length buf.old → length ready.now ≡ given }
{
    let (_, waiting) = ready.split_at(given);
    let count = waiting.len().min(buf.len());
    let (front, _) = waiting.split_at(count);
    buf[..count].copy_from_slice(front);
    count
}
