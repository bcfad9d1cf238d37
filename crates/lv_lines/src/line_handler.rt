//! Who answers lines.
ghost use Rattle.std.specs.Prelude.{◌≡◌, ◌⊎◌, ℕ, ◌≤◌, List, [], length, OnOk, IfErr};
ghost use Rattle.std.specs.Io.KnownBytes.{Appends};
ghost use Rattle.lv_lines.specs.Output.{Puts, PutsFront, SamePlaces};
ghost use Rattle.lv_lines.specs.Replies.{Replies, FailsToReply};

use crate::fault::Fault;
use crate::reply_buffer::ReplyBuffer;
use std::io::Write;

/// Who answers lines, one after the other, into a reply buffer before a writer of type `W`.
pub trait LineHandler<W: Write> {
    // The state that the answers depend on and change.
    ghost State: { Type 0 };

    // The state that it is in.
    ghost state: { Self → State };

    // From a state, the line of a number may be answered with these bytes, to another state.
    ghost step: { State → ℕ → List ℕ → List ℕ → State → Type 0 };

    // Replies may go out in this state.
    ghost may_send: { State → Type 0 };

    /// Answers a line, given its first 121 bytes: puts the reply into the reply buffer, which it may send to make room. Its only fault
    /// is `WriteFault`.
    fn handle(
        &mut self,
        number: u32,
        line: &[u8],
        buffer: &mut ReplyBuffer<'_, W>,
    ) -> Result<(), Fault>
        requires short { length line.now ≤ 121 }
        ensures places { SamePlaces buffer.old buffer.new }
        ensures ok { OnOk result (Replies step (state self.old) number line.now (state self.new) (Puts W.contents buffer.old buffer.new)) }
        ensures fault { IfErr result (λ fault. (fault ≡ Fault.WriteFault)
            × FailsToReply step (state self.old) number line.now (state self.new) (PutsFront W.contents buffer.old buffer.new)) };

    /// Does what must be done before replies go out; after it they may. Its only fault is `WriteFault`, after which no reply goes out.
    fn before_send(&self) -> Result<(), Fault>
        ensures may { OnOk result (may_send (state self.now)) }
        ensures fault { IfErr result (λ fault. fault ≡ Fault.WriteFault) };
}

/// Sends replies, after the handler has done what must be done before. The fault is `WriteFault`; what is held then stays.
pub(crate) fn send<A: LineHandler<W>, W: Write>(
    handler: &A,
    buffer: &mut ReplyBuffer<'_, W>,
) -> Result<(), Fault>
    ensures places { SamePlaces buffer.old buffer.new }
    ensures may { OnOk result (A.may_send (A.state handler.now)) }
    // Nothing goes out unless it may.
    ensures sent { (buffer.new.writer.now ≡ buffer.old.writer.now) ⊎ A.may_send (A.state handler.now) }
    ensures ok { OnOk result ((buffer.new.held.now.items ≡ [])
        × Appends (W.contents buffer.old.writer.now) (W.contents buffer.new.writer.now) buffer.old.held.now.items) }
    ensures fault { IfErr result (λ fault. (fault ≡ Fault.WriteFault) × PutsFront W.contents buffer.old buffer.new []) }
{
    handler.before_send()?;
    buffer.send()
}
