//! The loop over lines: they are read and answered in turn, until the input ends.
ghost use Rattle.std.specs.Prelude.{◌≡◌, ◌<◌, ◌≤◌, [], length, take, IfOk, IfErr, OnOk, vec_len, vec_capacity};
ghost use Rattle.std.specs.Io.KnownBytes.{Keeps, Consumes, IsAtEnd};
ghost use Rattle.lv_lines.specs.Replies.{LinesServedWithin};

use crate::fault::Fault;
use crate::line_handler::{LineHandler, send};
use crate::line_reader::LineReader;
use crate::output::HELD;
use crate::reply_buffer::ReplyBuffer;
use std::alloc::{AllocError, Global};
use std::io::{Read, Write};

// At most how many bytes one read takes.
const CHUNK: usize = 65_536;

/// How many bytes an input may have if no other bound is given. One more is read, to find out that there are too many.
pub const MOST_READ: usize = 1 << 30;

/// The greatest bound that may be given. The lines of so many bytes have numbers of 32 bits.
pub const MOST_NUMBERED: usize = 4_294_967_293;

/// Reads lines and has each answered, in turn and numbered from 1, until the input ends. The input may have at most `most` bytes. The replies are
/// sent before more is read.
///
/// Memory is taken before anything is read or written; if there is none, the fault is `NoMemory`. A failed read is `ReadFault`, an input of more
/// bytes is `TooLong`, and a failed write, or one that takes no byte, is `WriteFault`.
pub fn serve_lines<A: LineHandler<W>, R: Read, W: Write>(
    most: usize,
    alloc: Global,
    handler: &mut A,
    reader: &mut R,
    writer: &mut W,
) -> Result<(), Fault>
    requires { most ≤ MOST_NUMBERED }
    ensures served { LinesServedWithin A.step most (A.state handler.old) (A.state handler.new) (R.remaining reader.old) (R.remaining reader.new)
        (W.contents writer.old) (W.contents writer.new) result }
    // All replies have gone out, and they may.
    ensures may { OnOk result (A.may_send (A.state handler.new)) }
{
    let Ok(mut chunk) = zeros(alloc, CHUNK) else {
        return Err(Fault::NoMemory);
    };
    let Ok(mut held) = Vec::with_capacity(alloc, HELD) else {
        return Err(Fault::NoMemory);
    };
    read_lines(most, &mut chunk, &mut held, handler, reader, writer)
}

fn zeros(alloc: Global, len: usize) -> Result<Vec<u8>, AllocError>
    ensures { IfOk result (λ chunk. vec_len chunk ≡ len) }
{
    Vec::from_elem(alloc, 0u8, len)
}

// Reads chunks, and has the lines that they end answered, up to the end of the input, by buffers that were made for it: one for what is
// read, and one for replies.
fn read_lines<A: LineHandler<W>, R: Read, W: Write>(
    most: usize,
    chunk: &mut [u8],
    held: &mut Vec<u8>,
    handler: &mut A,
    reader: &mut R,
    writer: &mut W,
) -> Result<(), Fault>
    requires most { most ≤ MOST_NUMBERED }
    requires chunk { 0 < length chunk.old }
    requires held { held.old.items ≡ [] }
    requires room { HELD ≤ vec_capacity held.old }
    ensures served { LinesServedWithin A.step most (A.state handler.old) (A.state handler.new) (R.remaining reader.old) (R.remaining reader.new)
        (W.contents writer.old) (W.contents writer.new) result }
    ensures may { OnOk result (A.may_send (A.state handler.new)) }
{
    let mut buffer = ReplyBuffer { writer, held };
    let mut line_reader = LineReader::new();
    let mut left = most + 1;
    'reading: loop {
        send(handler, &mut buffer)?;
        if left == 0 {
            return Err(Fault::TooLong);
        }
        let count = read_front(reader, chunk, left)?;
        if count == 0 {
            if line_reader.kept.is_empty() {
                return send(handler, &mut buffer);
            }
            line_reader.end_line(handler, &[], &mut buffer)?;
            return send(handler, &mut buffer);
        }
        line_reader.push_bytes(handler, &chunk[..count], &mut buffer)?;
        left -= count;
    }
}

// Reads at most `most` bytes into the start of the chunk. If there are none, the input has ended.
fn read_front<R: Read>(reader: &mut R, chunk: &mut [u8], most: usize) -> Result<usize, Fault>
    requires chunk { 0 < length chunk.old }
    requires most { 0 < most }
    ensures within { IfOk result (λ count. count ≤ length chunk.new) }
    ensures few { IfOk result (λ count. count ≤ most) }
    ensures read { IfOk result (λ count. Consumes (R.remaining reader.old) (R.remaining reader.new) (take count chunk.new)) }
    ensures end { IfOk result (λ count. count ≡ 0 → IsAtEnd (R.remaining reader.new)) }
    ensures fault { IfErr result (λ fault. (fault ≡ Fault.ReadFault) × Keeps (R.remaining reader.old) (R.remaining reader.new)) }
{
    let room = chunk.len().min(most);
    reader
        .read(&mut chunk[..room])
        .map_err(|_| Fault::ReadFault)
}
