//! Edits of a vector.
ghost use Rattle.std.specs.Prelude.{◌≡◌};
ghost use Rattle.lv_edits.specs.declared.edit.Edit.TheVariants as asked;
ghost use Rattle.livevec_c.specs.Answers.{unedited};
ghost use Rattle.livevec_c.specs.Behind.{Edits, EditsBy, EditsObject};
ghost use Rattle.livevec_c.specs.FlatEdits.{edit_at};

use crate::flat_edits::edit_of;
use crate::objects::Object;
use crate::results::{Edited, NO_HANDLE, edit_answer};
use crate::slots::{Slot, is_full, put, take_full};
use lv_edits::Edit;
use std::alloc::Global;

// The answer of an edit if a slot holds no vector.
fn not_held() -> Edited
    ensures { result ≡ unedited }
{
    Edited {
        refusal: NO_HANDLE,
        detail: 0,
        edit: 0,
        place: 0,
        value: 0,
    }
}

// An edit of an object.
#[inline(always)]
fn edit_object(object: &mut Object, edit: Edit) -> Edited
    ensures { EditsObject edit result object.old object.new }
{
    match object {
        Object::Vector(vector, _) => edit_answer(vector.apply(edit)),
        _ => not_held(),
    }
}

// A write at an object. It and what it calls have one caller each, so that all is inlined.
#[inline(always)]
fn write_object(object: &mut Object, index: u32, value: i64) -> Edited
    ensures { EditsObject (asked.Write index value) result object.old object.new }
{
    match object {
        Object::Vector(vector, _) => edit_answer(vector.write(index, value)),
        _ => not_held(),
    }
}

// An edit of the object in a slot.
#[inline(always)]
fn edit_held(alloc: Global, slot: &mut Slot, edit: Edit) -> Edited
    ensures { Edits edit result slot.old.raw.inner slot.new.raw.inner }
{
    if !is_full(slot) {
        return not_held();
    }
    let mut held = take_full(alloc, slot);
    let answer = edit_object(&mut held, edit);
    put(slot, held);
    answer
}

// A write at the object in a slot.
#[inline(always)]
fn write_held(alloc: Global, slot: &mut Slot, index: u32, value: i64) -> Edited
    ensures { Edits (asked.Write index value) result slot.old.raw.inner slot.new.raw.inner }
{
    if !is_full(slot) {
        return not_held();
    }
    let mut held = take_full(alloc, slot);
    let answer = write_object(&mut held, index, value);
    put(slot, held);
    answer
}

/// Makes the edit that a number names. Writes come most, so they have a path of their own, which tells fewer cases apart.
#[unsafe(no_mangle)]
pub extern "C" fn livevec_proved_edit(
    alloc: Global,
    slot: &mut Slot,
    what: u32,
    index: u32,
    second: u32,
    value: i64,
) -> Edited
    ensures { EditsBy (edit_at what index second value) result slot.old.raw.inner slot.new.raw.inner }
{
    if what == 3 {
        return write_held(alloc, slot, index, value);
    }
    match edit_of(what, index, second, value) {
        None => not_held(),
        Some(edit) => edit_held(alloc, slot, edit),
    }
}
