//! The lines of the reply to a scan.
ghost use Rattle.std.specs.Prelude.{◌≡◌, ◌+◌, ◌≤◌, [], IsOk, OnOk, IfErr, vec_len};
ghost use Rattle.lv_lines.specs.Output.{HasRoom, KeepsRoom, Puts, PutsFront, SamePlaces};
ghost use Rattle.lv_lines.specs.Texts.{scanned_text};

use lv_bodies::Shown;
use lv_lines::{Fault, LINE, ReplyBuffer, put, put_shown};
use std::io::Write;

/// One value of a scan, on a line for which it makes room.
pub fn put_scanned<W: Write>(buffer: &mut ReplyBuffer<'_, W>, value: Shown) -> Result<(), Fault>
    ensures places { SamePlaces buffer.old buffer.new }
    ensures ok { OnOk result (Puts W.contents buffer.old buffer.new (scanned_text value)) }
    ensures fault { IfErr result (λ fault. (fault ≡ Fault.WriteFault)
        × PutsFront W.contents buffer.old buffer.new []) }
    ensures idle { HasRoom buffer.old.held.now LINE
        → IsOk result × (buffer.new.writer.now ≡ buffer.old.writer.now) × (vec_len buffer.new.held.now ≤ vec_len buffer.old.held.now + LINE) }
    ensures room { KeepsRoom buffer.old.held.now buffer.new.held.now }
{
    buffer.make_room(LINE)?;
    put(buffer.held, b"= ");
    put_shown(buffer.held, value);
    put(buffer.held, b"\n");
    Ok(())
}
