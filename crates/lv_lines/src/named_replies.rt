//! The replies about standing queries, and their notes.
ghost use Rattle.std.specs.Prelude.{◌≡◌, ◌+◌, ◌≤◌, ◌++◌, vec_len};
ghost use Rattle.lv_lines.specs.Output.{HasRoom, KeepsRoom};
ghost use Rattle.lv_lines.specs.Texts.{named_text, note_text, unwatched_text, watching_text};

use crate::output::{put, put_name, put_number};
use crate::replies::{LINE, put_shown};
use lv_bodies::{Name, Shown};

/// Puts the reply that a query is registered under the name from now on.
pub fn put_watching(held: &mut Vec<u8>, name: Name)
    requires { HasRoom held.old LINE }
    ensures text { held.new.items ≡ held.old.items ++ watching_text name }
    ensures room { KeepsRoom held.old held.new }
{
    put(held, b"watching ");
    put_name(held, name);
    put(held, b"\n");
}

/// Puts the reply that no query is registered under the name any more.
pub fn put_unwatched(held: &mut Vec<u8>, name: Name)
    requires { HasRoom held.old LINE }
    ensures text { held.new.items ≡ held.old.items ++ unwatched_text name }
    ensures room { KeepsRoom held.old held.new }
{
    put(held, b"unwatched ");
    put_name(held, name);
    put(held, b"\n");
}

/// Puts the answer of the query under the name, at an update.
pub fn put_named(held: &mut Vec<u8>, edit: u64, name: Name, value: Shown)
    requires { HasRoom held.old LINE }
    ensures text { held.new.items ≡ held.old.items ++ named_text edit name value }
    ensures room { KeepsRoom held.old held.new }
{
    put(held, b"at ");
    put_number(held, edit);
    put(held, b" ");
    put_name(held, name);
    put(held, b" ");
    put_shown(held, value);
    put(held, b"\n");
}

/// Puts the notification that an update changed the answer of the query under the name to this value.
pub fn put_note(held: &mut Vec<u8>, name: Name, value: Shown)
    requires { HasRoom held.old LINE }
    ensures text { held.new.items ≡ held.old.items ++ note_text name value }
    ensures len { vec_len held.new ≤ vec_len held.old + LINE }
    ensures room { KeepsRoom held.old held.new }
{
    put(held, b"note ");
    put_name(held, name);
    put(held, b" ");
    put_shown(held, value);
    put(held, b"\n");
}
