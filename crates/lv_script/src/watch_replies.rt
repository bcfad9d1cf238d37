//! How long a reply may be, and the notes of an edit.
ghost use Rattle.std.specs.Prelude.{◌≡◌, ◌*◌, ◌++◌, length};
ghost use Rattle.lv_lines.specs.Output.{HasRoom, KeepsRoom};
ghost use Rattle.lv_script.specs.Script.{notes_text};

use lv_lines::{LINE, put_note};
use lv_standing::Note;

/// At most how many bytes a reply has, scans apart: a line, and a note for each of 64 queries.
pub const ROOM: usize = 65 * LINE;

/// Each note on a line.
pub fn put_notes(held: &mut Vec<u8>, notes: &[Note])
    requires { HasRoom held.old (LINE * length notes.now) }
    ensures text { held.new.items ≡ held.old.items ++ notes_text notes.now }
    ensures room { KeepsRoom held.old held.new }
{
    for note in notes {
        put_note(held, note.name, note.value);
    }
}
