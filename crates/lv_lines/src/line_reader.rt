//! The data that is kept between two reads: the number of the next line, and the first bytes of an unended line.
ghost use Rattle.std.specs.Prelude.{◌≡◌, ◌+◌, ◌^◌, ◌<◌, ◌≤◌, [], ◌++◌, length, take, OnOk, IfErr};
ghost use Rattle.lv_lines.specs.Output.{Puts, PutsFront, SamePlaces};
ghost use Rattle.lv_lines.specs.Replies.{Replies, FailsToReply};

use crate::fault::Fault;
use crate::line_handler::LineHandler;
use crate::reply_buffer::ReplyBuffer;
use arrayvec::ArrayVec;
use memchr::memchr;
use std::io::Write;

const LF: u8 = 10;

/// How many bytes of a line decide whether it is too long, and what it says if it isn't.
const LONGEST: usize = 121;

#[derive(Drop)]
pub(crate) struct LineReader {
    pub(crate) number: u32,
    pub(crate) kept: ArrayVec<u8, LONGEST>,
}

impl LineReader {
    ghost use Rattle.lv_lines.specs.LineReader.{IsReady, PushesBytes, PushesBytesFront, point_of};

    /// Before the first line.
    pub(crate) fn new() -> LineReader
        ensures ready { IsReady result }
        ensures number { result.number ≡ 1 }
        ensures kept { result.kept.items ≡ [] }
    {
        LineReader {
            number: 1,
            kept: ArrayVec::new(),
        }
    }

    /// Takes bytes of the input: has the lines that they end answered, and keeps what they leave.
    pub(crate) fn push_bytes<A: LineHandler<W>, W: Write>(
        &mut self,
        handler: &mut A,
        bytes: &[u8],
        buffer: &mut ReplyBuffer<'_, W>,
    ) -> Result<(), Fault>
        requires ready { IsReady self.old }
        requires number { self.old.number + length bytes.now < 2 ^ 32 }
        ensures places { SamePlaces buffer.old buffer.new }
        ensures ok { OnOk result (PushesBytes A.step (point_of (A.state handler.old) self.old W.contents buffer.old)
            (point_of (A.state handler.new) self.new W.contents buffer.new) bytes.now) }
        ensures fault { IfErr result (λ fault. (fault ≡ Fault.WriteFault)
            × PushesBytesFront A.step (point_of (A.state handler.old) self.old W.contents buffer.old)
            (point_of (A.state handler.new) self.new W.contents buffer.new) bytes.now) }
        ensures ready { OnOk result (IsReady self.new) }
    {
        let mut rest = bytes;
        while let Some(end) = memchr(LF, rest) {
            let (piece, ended) = rest.split_at(end);
            self.end_line(handler, piece, buffer)?;
            (_, rest) = ended.split_at(1);
        }
        keep(&mut self.kept, rest);
        Ok(())
    }

    /// Ends the line that was begun with these bytes, and has it answered.
    pub(crate) fn end_line<A: LineHandler<W>, W: Write>(
        &mut self,
        handler: &mut A,
        piece: &[u8],
        buffer: &mut ReplyBuffer<'_, W>,
    ) -> Result<(), Fault>
        requires ready { IsReady self.old }
        requires number { self.old.number + 1 < 2 ^ 32 }
        ensures places { SamePlaces buffer.old buffer.new }
        ensures ok { OnOk result (Replies A.step (A.state handler.old) self.old.number (take 121 (self.old.kept.items ++ piece.now)) (A.state handler.new) (Puts W.contents buffer.old buffer.new)) }
        ensures number { OnOk result (self.new.number ≡ self.old.number + 1) }
        ensures kept { OnOk result (self.new.kept.items ≡ []) }
        ensures fault { IfErr result (λ fault. (fault ≡ Fault.WriteFault)
            × FailsToReply A.step (A.state handler.old) self.old.number (take 121 (self.old.kept.items ++ piece.now)) (A.state handler.new) (PutsFront W.contents buffer.old buffer.new)) }
    {
        if self.kept.is_empty() {
            handler.handle(self.number, front(piece, LONGEST), buffer)?;
        } else {
            keep(&mut self.kept, piece);
            handler.handle(self.number, self.kept.as_slice(), buffer)?;
            self.kept.clear();
        }
        self.number += 1;
        Ok(())
    }
}

// The first bytes, at most `most`.
fn front(bytes: &[u8], most: usize) -> &[u8]
    ensures value { result.now ≡ take most bytes.now }
    ensures short { length result.now ≤ most }
{
    let (front, _) = bytes.split_at(bytes.len().min(most));
    front
}

// Keeps so many of the bytes as there is room for.
fn keep(kept: &mut ArrayVec<u8, LONGEST>, bytes: &[u8])
    ensures { kept.new.items ≡ take 121 (kept.old.items ++ bytes.now) }
{
    let room = LONGEST - kept.len();
    let Ok(()) = kept.try_extend_from_slice(front(bytes, room)) else {
        unreachable!();
    };
}
