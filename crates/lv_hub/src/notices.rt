//! The lines of notifications.

ghost use Rattle.std.specs.Prelude.{◌≡◌, ◌≤◌, ◌^◌, [], false, true, IfErr, IfOk, OnOk, vec_capacity};
ghost use Rattle.lv_lines.specs.Output.{Puts, PutsFront, SamePlaces};
ghost use Rattle.lv_lines.specs.Texts.{named_text};
ghost use Rattle.lv_hub.specs.Noticing.{WritesMore, notes_at, told_text};

use crate::told::Told;
use lv_history::told_number;
use lv_lines::{Fault, HELD, LINE, ReplyBuffer, put_named};
use lv_standing::Note;
use lv_transcript::LogHeading;
use std::alloc::{AllocError, Global};
use std::io::Write;
use std::marker::Model;

/// Writes the lines of notifications, `at E NAME VALUE`, when they come and completely. After a write that fails it writes nothing more, and what
/// it has written is a prefix of the lines.
#[derive(Drop)]
pub struct Notices<F: Write + Drop> {
    writer: F,
    held: Vec<u8>,
    failed: bool,
}

impl<F: Write + Drop> Model for Notices<F> {
    ghost use Rattle.std.specs.Prelude.{◌≡◌, ◌≤◌, [], vec_capacity};
    ghost use Rattle.lv_lines.specs.declared.output.TheConstants.{HELD};
    ghost use Rattle.lv_hub.specs.Noticing.{NoticesState};

    ghost Value = { NoticesState };

    ghost view = { λ n. record { contents = F.contents n.writer; failed = n.failed } };

    ghost invariant = { λ n. (n.held.items ≡ []) × (HELD ≤ vec_capacity n.held) };
}

impl<F: Write + Drop> Notices<F> {
    /// A writer that has written nothing yet. All memory that it needs is allocated here.
    pub fn new(alloc: Global, writer: F) -> Result<Notices<F>, AllocError>
        ensures { IfOk result (λ n. n ≡ record { contents = F.contents writer; failed = false }) }
    {
        Ok(Notices {
            held: Vec::with_capacity(alloc, HELD)?,
            writer,
            failed: false,
        })
    }

    /// Writes the lines of a notification, with its edit number in this numbering, unless a write has failed. If what they report isn't recorded,
    /// it writes nothing, and counts as failed.
    pub fn tell(&mut self, numbers: LogHeading, told: &Told, is_recorded: bool)
        requires base { numbers.base ≤ 2 ^ 62 }
        requires few { told.now.edit ≤ 2 ^ 62 }
        ensures written { WritesMore (told_text numbers told.now) self.old self.new }
        ensures unrecorded { is_recorded ≡ false → self.new.contents ≡ self.old.contents }
    {
        if self.failed {
            return;
        }
        if !is_recorded {
            fail(&mut self.held, &mut self.failed);
            return;
        }
        let mut buffer = ReplyBuffer {
            writer: &mut self.writer,
            held: &mut self.held,
        };
        match write_told(numbers, told, &mut buffer) {
            Ok(()) => {}
            Err(_) => fail(&mut self.held, &mut self.failed),
        }
    }

    /// Whether a write has failed.
    pub fn has_failed(&self) -> bool
        ensures { result ≡ self.now.failed }
    {
        self.failed
    }
}

// Drops what is buffered, and marks the writer as failed.
fn fail(held: &mut Vec<u8>, failed: &mut bool)
    ensures failed { failed.new ≡ true }
    ensures empty { held.new.items ≡ [] }
    ensures room { vec_capacity held.new ≡ vec_capacity held.old }
{
    held.clear();
    *failed = true;
}

// Writes the lines of a notification.
fn write_told<W: Write>(
    numbers: LogHeading,
    told: &Told,
    buffer: &mut ReplyBuffer<'_, W>,
) -> Result<(), Fault>
    requires base { numbers.base ≤ 2 ^ 62 }
    requires few { told.now.edit ≤ 2 ^ 62 }
    ensures places { SamePlaces buffer.old buffer.new }
    ensures ok { OnOk result ((buffer.new.held.now.items ≡ []) × Puts W.contents buffer.old buffer.new (told_text numbers told.now)) }
    ensures fault { IfErr result (λ fault. PutsFront W.contents buffer.old buffer.new (told_text numbers told.now)) }
{
    let edit = told_number(numbers, told.edit);
    put_all(edit, &told.notes, buffer)?;
    buffer.send()
}

// Puts the lines of notes at an edit number.
fn put_all<W: Write>(
    edit: u64,
    notes: &[Note],
    buffer: &mut ReplyBuffer<'_, W>,
) -> Result<(), Fault>
    ensures places { SamePlaces buffer.old buffer.new }
    ensures ok { OnOk result (Puts W.contents buffer.old buffer.new (notes_at edit notes.now)) }
    ensures fault { IfErr result (λ fault. PutsFront W.contents buffer.old buffer.new (notes_at edit notes.now)) }
{
    for note in notes {
        put_one(edit, note, buffer)?;
    }
    Ok(())
}

// Puts the line of a note at an edit number.
fn put_one<W: Write>(edit: u64, note: &Note, buffer: &mut ReplyBuffer<'_, W>) -> Result<(), Fault>
    ensures places { SamePlaces buffer.old buffer.new }
    ensures ok { OnOk result (Puts W.contents buffer.old buffer.new (named_text edit note.now.name note.now.value)) }
    ensures fault { IfErr result (λ fault. PutsFront W.contents buffer.old buffer.new []) }
{
    buffer.make_room(LINE)?;
    put_named(buffer.held, edit, note.name, note.value);
    Ok(())
}
