//! Notes of standing queries, as C has them.
ghost use Rattle.std.specs.Prelude.{◌≡◌, ◌≤◌, ◌%◌, false, true, length, IfNone, IfSome};
ghost use Rattle.lv_standing.specs.Queries.{is_due};
ghost use Rattle.livevec_c.specs.Queried.{NotesInto, NotesOne, PutsNote, name_for, note_of, unnoted};

use crate::only::number_of;
use crate::said::shown_values;
use crate::set_queries::SetQuery;
use crate::targets::Target;
use crate::values::PlainValues;
use lv_bodies::{Name, Shown};
use lv_standing::Question;

/// A note of a query that is due: its name with a zero after it, its kind, after which edit it is, and its answer. Of the edit's number it has the
/// low 32 bits.
#[repr(C)]
#[derive(Clone, Copy)]
pub struct Note {
    pub name: [u8; 17],
    pub kind: u32,
    pub edit: u32,
    pub values: PlainValues,
}

/// The answer of a call for notes.
#[repr(C)]
#[derive(Clone, Copy)]
pub struct Noted {
    pub refusal: u32,
    pub detail: u32,
    pub edit: u64,
    pub count: u32,
}

/// The answer of a call for notes that was refused.
pub fn not_noted(refusal: u32, detail: u32) -> Noted
    ensures { result ≡ unnoted refusal detail }
{
    Noted {
        refusal,
        detail,
        edit: 0,
        count: 0,
    }
}

// The bytes of a name for C, which end in a zero.
fn name_for(name: &Name) -> [u8; 17]
    ensures { result ≡ name_for name.now }
{
    let bytes = name.as_bytes();
    let mut padded = [0; 17];
    padded[..bytes.len()].copy_from_slice(bytes);
    padded
}

// The low 32 bits of an edit's number.
fn low_bits(edit: u64) -> u32
    ensures { result ≡ edit % 4294967296 }
{
    (edit % 4294967296) as u32
}

// The note of a value, by what was asked.
fn note_of<A: Target>(asked: &A, question: &SetQuery, value: Shown) -> Note
    ensures { result ≡ note_of (A.seen asked.now) question.now value }
{
    let name = name_for(&question.query.name);
    let edit = low_bits(asked.edits());
    let any = asked.has_some(question.query.span);
    Note {
        name,
        kind: number_of(question.query.kind),
        edit,
        values: shown_values(any, value),
    }
}

// Puts a note at a place, if there is such a place.
fn put_note(notes: &mut [Note], place: usize, note: Note)
    ensures { PutsNote note place notes.old notes.new }
{
    if place < notes.len() {
        notes[place] = note;
    }
}

// The note of a question whose answer was reported as one value and is another now, if a note is due.
fn due_note<A: Target>(
    asked: &A,
    question: &SetQuery,
    before: &Shown,
    value: &Shown,
) -> Option<Note>
    ensures due { IfSome result (λ note. is_due question.now.query.bound before.now value.now ≡ true) }
    ensures note { IfSome result (λ note. note ≡ note_of (A.seen asked.now) question.now value.now) }
    ensures idle { IfNone result (is_due question.now.query.bound before.now value.now ≡ false) }
{
    if !question.is_due(before, value) {
        return None;
    }
    Some(note_of(asked, question, *value))
}

// Notes a question if a note of its value is due, after `count` other notes, and returns how many there are then. If there is no room for it, it is
// counted only.
fn note_one<A: Target>(
    asked: &A,
    question: &SetQuery,
    before: &Shown,
    value: &Shown,
    count: usize,
    notes: &mut [Note],
) -> usize
    requires { count ≤ 64 }
    ensures { NotesOne (A.seen asked.now) question.now before.now value.now count notes.old result notes.new }
{
    match due_note(asked, question, before, value) {
        None => count,
        Some(note) => {
            put_note(notes, count, note);
            count + 1
        }
    }
}

/// Notes each question for whose value a note is due, in the first of the notes' places, and returns how many these are. If there are more than
/// places, the contents of the places can't be relied on.
pub fn note_all<A: Target>(
    asked: &A,
    questions: &[SetQuery],
    told: &[Shown],
    values: &[Shown],
    notes: &mut [Note],
) -> usize
    requires told { length told.now ≡ length questions.now }
    requires values { length values.now ≡ length questions.now }
    requires few { length questions.now ≤ 64 }
    ensures { NotesInto (A.seen asked.now) questions.now told.now values.now notes.old result notes.new }
{
    let mut count = 0;
    for i in 0..questions.len() {
        count = note_one(asked, &questions[i], &told[i], &values[i], count, notes);
    }
    count
}
