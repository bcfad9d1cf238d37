//! A series: how it begins, and its edits, which are those of samples' values too.
ghost use Rattle.std.specs.Prelude.{◌≡◌, IfOk};
ghost use Rattle.lv_bodies.specs.Plain.{program_table};
ghost use Rattle.lv_series.specs.declared.edits.LongEdit.TheVariants as asked;
ghost use Rattle.livevec_c.specs.FlatEdits.{long_edit_at};
ghost use Rattle.livevec_c.specs.SeriesBehind.{EditsBehind, EditsBehindBy, EditsLong, EditsSamplesBy, IsNewSeries, sample_edit_of};
ghost use Rattle.livevec_c.specs.declared.objects.Object.TheVariants as objects;

use crate::flat_edits::long_edit_of;
use crate::objects::Object;
use crate::series_results::{SeriesEdited, edit_answer, not_edited, not_held, sample_answer};
use crate::slots::{Slot, is_full, put, take_full};
use lv_bodies::Automaton;
use lv_series::{LongEdit, Samples, Series};
use std::alloc::{AllocError, Global};

/// A new series in a place of its own.
pub fn new_series(alloc: Global) -> Result<Box<Object>, AllocError>
    ensures { IfOk result (λ b. IsNewSeries program_table b.value) }
{
    let series = Series::new(alloc, Automaton::program());
    Ok(Box::new(alloc, Object::Series(series))?)
}

// An edit of the values of samples, if each value keeps its time.
fn edit_samples(samples: &mut Samples, edit: &LongEdit) -> SeriesEdited
    ensures { EditsSamplesBy (sample_edit_of edit.now) result samples.old (objects.Samples samples.new) }
{
    match *edit {
        LongEdit::Pop => sample_answer(samples.pop()),
        LongEdit::Write { index, value } => sample_answer(samples.write(index, value)),
        LongEdit::Expire(index) => sample_answer(samples.expire(index)),
        LongEdit::Truncate(size) => sample_answer(samples.truncate(size)),
        _ => not_edited(not_held()),
    }
}

// An edit of an object.
#[inline(always)]
fn edit_object(object: &mut Object, edit: &LongEdit) -> SeriesEdited
    ensures { EditsLong edit.now result object.old object.new }
{
    match object {
        Object::Series(series) => edit_answer(series.apply(edit)),
        Object::Samples(samples) => edit_samples(samples, edit),
        _ => not_edited(not_held()),
    }
}

// A push at an object, and a write. They and what they call have one caller each, so that all is inlined.
#[inline(always)]
fn push_object(object: &mut Object, value: i64) -> SeriesEdited
    ensures { EditsLong (asked.Push value) result object.old object.new }
{
    match object {
        Object::Series(series) => edit_answer(series.push(value)),
        _ => not_edited(not_held()),
    }
}

#[inline(always)]
fn write_object(object: &mut Object, index: u64, value: i64) -> SeriesEdited
    ensures { EditsLong (asked.Write index value) result object.old object.new }
{
    match object {
        Object::Series(series) => edit_answer(series.write(index, value)),
        Object::Samples(samples) => sample_answer(samples.write(index, value)),
        _ => not_edited(not_held()),
    }
}

// An edit of the object in a slot.
#[inline(always)]
fn edit_held(alloc: Global, slot: &mut Slot, edit: LongEdit) -> SeriesEdited
    ensures { EditsBehind edit result slot.old.raw.inner slot.new.raw.inner }
{
    if !is_full(slot) {
        return not_edited(not_held());
    }
    let mut held = take_full(alloc, slot);
    let answer = edit_object(&mut held, &edit);
    put(slot, held);
    answer
}

// A push at the object in a slot, and a write.
#[inline(always)]
fn push_held(alloc: Global, slot: &mut Slot, value: i64) -> SeriesEdited
    ensures { EditsBehind (asked.Push value) result slot.old.raw.inner slot.new.raw.inner }
{
    if !is_full(slot) {
        return not_edited(not_held());
    }
    let mut held = take_full(alloc, slot);
    let answer = push_object(&mut held, value);
    put(slot, held);
    answer
}

#[inline(always)]
fn write_held(alloc: Global, slot: &mut Slot, index: u64, value: i64) -> SeriesEdited
    ensures { EditsBehind (asked.Write index value) result slot.old.raw.inner slot.new.raw.inner }
{
    if !is_full(slot) {
        return not_edited(not_held());
    }
    let mut held = take_full(alloc, slot);
    let answer = write_object(&mut held, index, value);
    put(slot, held);
    answer
}

/// Makes the edit that a number names. Pushes and writes come most, so they have paths of their own, which tell fewer cases apart.
#[unsafe(no_mangle)]
pub extern "C" fn livevec_proved_series_edit(
    alloc: Global,
    slot: &mut Slot,
    what: u32,
    index: u64,
    second: u64,
    value: i64,
) -> SeriesEdited
    ensures { EditsBehindBy (long_edit_at what index second value) result slot.old.raw.inner slot.new.raw.inner }
{
    if what == 1 {
        return push_held(alloc, slot, value);
    }
    if what == 3 {
        return write_held(alloc, slot, index, value);
    }
    match long_edit_of(what, index, second, value) {
        None => not_edited(not_held()),
        Some(edit) => edit_held(alloc, slot, edit),
    }
}
