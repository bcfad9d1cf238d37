//! Many edits at once: pushes, or writes.
ghost use Rattle.std.specs.Prelude.{◌≡◌, length};
ghost use Rattle.livevec_c.specs.Pushed.{EditsAll, EditsAllBehind, PushesObject, pushed_by};

use crate::objects::Object;
use crate::results::{NO_HANDLE, detail};
use crate::slots::{Slot, put, take};
use crate::writes::{Many, not_written, write_at_object};
use lv_geometry::Refusal;
use std::alloc::Global;

// The answer of pushes, by what the library does.
fn pushes_answer(values: &[i64], answer: Result<u32, Refusal>) -> Many
    ensures { result ≡ pushed_by (length values.now) answer }
{
    match answer {
        Ok(edit) => Many {
            refusal: 0,
            detail: 0,
            edit,
            done: values.len(),
            place: 0,
        },
        Err(refusal) => not_written(refusal.number(), detail(refusal), 0),
    }
}

// Pushes at an object.
fn push_at_object(object: &mut Object, values: &[i64]) -> Many
    ensures { PushesObject values.now result object.old object.new }
{
    match object {
        Object::Vector(vector, _) => {
            let answer = vector.push_all(values);
            pushes_answer(values, answer)
        }
        _ => not_written(NO_HANDLE, 0, 0),
    }
}

// Pushes at an object, or writes.
fn edit_at_object(object: &mut Object, pushes: bool, indices: &[u32], values: &[i64]) -> Many
    ensures { EditsAll pushes indices.now values.now result object.old object.new }
{
    if pushes {
        push_at_object(object, values)
    } else {
        write_at_object(object, indices, values)
    }
}

/// Puts elements at the end, or overwrites those at some indices, each by the value at the same place: all of them, or none.
#[unsafe(no_mangle)]
pub extern "C" fn livevec_proved_edit_all(
    alloc: Global,
    slot: &mut Slot,
    pushes: bool,
    indices: &[u32],
    values: &[i64],
) -> Many
    ensures { EditsAllBehind pushes indices.now values.now result slot.old.raw.inner slot.new.raw.inner }
{
    match take(alloc, slot) {
        None => not_written(NO_HANDLE, 0, 0),
        Some(mut held) => {
            let answer = edit_at_object(&mut held, pushes, indices, values);
            put(slot, held);
            answer
        }
    }
}
