//! Many edits at a series at once: pushes, or writes.
ghost use Rattle.std.specs.Prelude.{◌≡◌, length};
ghost use Rattle.livevec_c.specs.SeriesPushed.{EditsAll, EditsAllBehind, PushesLong, long_pushed};

use crate::objects::Object;
use crate::series_results::{SeriesMany, not_held, not_refused, refusal_answer};
use crate::series_writes::{not_written, write_at_object};
use crate::slots::{Slot, put, take};
use lv_series::LongRefusal;
use std::alloc::Global;

// The answer of pushes, by what the library does.
fn pushes_answer(values: &[i64], answer: Result<u64, LongRefusal>) -> SeriesMany
    ensures { result ≡ long_pushed (length values.now) answer }
{
    match answer {
        Ok(edit) => SeriesMany {
            why: not_refused(),
            edit,
            done: values.len(),
            place: 0,
        },
        Err(refusal) => not_written(refusal_answer(refusal), 0),
    }
}

// Pushes at an object.
fn push_at_object(object: &mut Object, values: &[i64]) -> SeriesMany
    ensures { PushesLong values.now result object.old object.new }
{
    match object {
        Object::Series(series) => {
            let answer = series.push_all(values);
            pushes_answer(values, answer)
        }
        _ => not_written(not_held(), 0),
    }
}

// Pushes at an object, or writes.
fn edit_at_object(object: &mut Object, pushes: bool, indices: &[u64], values: &[i64]) -> SeriesMany
    ensures { EditsAll pushes indices.now values.now result object.old object.new }
{
    if pushes {
        push_at_object(object, values)
    } else {
        write_at_object(object, indices, values)
    }
}

/// Puts elements at the end, or overwrites those under some indices, each by the value at the same place: all of them, or none.
#[unsafe(no_mangle)]
pub extern "C" fn livevec_proved_series_edit_all(
    alloc: Global,
    slot: &mut Slot,
    pushes: bool,
    indices: &[u64],
    values: &[i64],
) -> SeriesMany
    ensures { EditsAllBehind pushes indices.now values.now result slot.old.raw.inner slot.new.raw.inner }
{
    match take(alloc, slot) {
        None => not_written(not_held(), 0),
        Some(mut held) => {
            let answer = edit_at_object(&mut held, pushes, indices, values);
            put(slot, held);
            answer
        }
    }
}
