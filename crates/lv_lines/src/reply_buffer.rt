//! Replies that are held, and the writer that they go to.
ghost use Rattle.std.specs.Prelude.{◌≡◌, ◌≤◌, [], IsOk, OnOk, OnErr, IfErr, vec_capacity};
ghost use Rattle.std.specs.Io.KnownBytes.{Appends};
ghost use Rattle.lv_lines.specs.declared.output.TheConstants.{HELD};

use crate::fault::Fault;
use crate::output::{HELD, write_whole};
use std::io::Write;

/// Replies on their way: those that are held, and the writer that they go to.
///
/// It owns neither of them. What it leaves in both is the caller's once it is gone.
#[derive(Drop)]
pub struct ReplyBuffer<'w, W> {
    /// The writer that receives the replies.
    pub writer: &'w mut W,
    /// The replies that were not sent.
    pub held: &'w mut Vec<u8>,
    ghost room: { HELD ≤ vec_capacity held.now },
}

impl<W: Write> ReplyBuffer<'_, W> {
    ghost use Rattle.lv_lines.specs.Output.{HasRoom, Puts, PutsFront, SamePlaces};

    /// Writes all that is held, empties the buffer and flushes the writer.
    ///
    /// A failed write or flush, and a write that takes no byte, is `WriteFault`; what is held then stays.
    pub fn send(&mut self) -> Result<(), Fault>
        ensures places { SamePlaces self.old self.new }
        ensures ok { OnOk result ((self.new.held.now.items ≡ [])
            × Appends (W.contents self.old.writer.now) (W.contents self.new.writer.now) self.old.held.now.items) }
        ensures fault { IfErr result (λ fault. (fault ≡ Fault.WriteFault) × PutsFront W.contents self.old self.new []) }
        ensures err { OnErr result (self.new.held.now.items ≡ self.old.held.now.items) }
        ensures capacity { vec_capacity self.new.held.now ≡ vec_capacity self.old.held.now }
    {
        write_whole(self.writer, self.held)?;
        self.held.clear();
        Ok(())
    }

    /// Sends what is held if less than `room` bytes are free.
    pub fn make_room(&mut self, room: usize) -> Result<(), Fault>
        requires { room ≤ HELD }
        ensures places { SamePlaces self.old self.new }
        ensures ok { OnOk result (Puts W.contents self.old self.new []) }
        ensures room { OnOk result (HasRoom self.new.held.now room) }
        ensures idle { HasRoom self.old.held.now room
            → IsOk result × (self.new.held.now.items ≡ self.old.held.now.items) × (self.new.writer.now ≡ self.old.writer.now) }
        ensures fault { IfErr result (λ fault. (fault ≡ Fault.WriteFault) × PutsFront W.contents self.old self.new []) }
        ensures capacity { vec_capacity self.new.held.now ≡ vec_capacity self.old.held.now }
    {
        if self.held.capacity() - self.held.len() < room {
            self.send()?;
        }
        Ok(())
    }
}
