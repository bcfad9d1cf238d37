//! Many writes at once.
ghost use Rattle.std.specs.Prelude.{◌≡◌, ℤ, List, length};
ghost use Rattle.lv_edits.specs.Batches.{writes_at};
ghost use Rattle.livevec_c.specs.Written.{WritesObject, WritesVector, place_refused, unwritten};

use crate::kind_vectors::KindVector;
use crate::objects::Object;
use crate::results::{NO_HANDLE, SHORT_BUFFER, detail};

/// The answer of many edits.
#[repr(C)]
#[derive(Clone, Copy)]
pub struct Many {
    pub refusal: u32,
    pub detail: u32,
    pub edit: u32,
    pub done: usize,
    pub place: usize,
}

// The place of the first of some writes, one after another, that would be refused for another reason than out of memory; 0 if none would be.
fn place_refused(vector: &KindVector, indices: &[u32]) -> usize
    ensures { (xs : List ℤ) → length indices.now ≡ length xs → result ≡ place_refused vector.now.history (writes_at indices.now xs) }
{
    let live = vector.live();
    live.keeps();
    let left = vector.edits_left() as usize;
    let size = live.size();
    for place in 0..indices.len() {
        if place == left {
            return place;
        }
        if indices[place] >= size {
            return place;
        }
    }
    0
}

/// The answer of edits that are refused.
pub fn not_written(refusal: u32, detail: u32, place: usize) -> Many
    ensures { result ≡ unwritten refusal detail place }
{
    Many {
        refusal,
        detail,
        edit: 0,
        done: 0,
        place,
    }
}

// Writes at a vector.
fn write_at_vector(vector: &mut KindVector, indices: &[u32], values: &[i64]) -> Many
    ensures { WritesVector indices.now values.now result vector.old vector.new }
{
    if indices.len() != values.len() {
        return not_written(SHORT_BUFFER, 0, 0);
    }
    match vector.write_all(indices, values) {
        Ok(edit) => Many {
            refusal: 0,
            detail: 0,
            edit,
            done: indices.len(),
            place: 0,
        },
        Err(refusal) => {
            let place = place_refused(vector, indices);
            not_written(refusal.number(), detail(refusal), place)
        }
    }
}

/// Writes at an object.
pub fn write_at_object(object: &mut Object, indices: &[u32], values: &[i64]) -> Many
    ensures { WritesObject indices.now values.now result object.old object.new }
{
    match object {
        Object::Vector(vector, _) => write_at_vector(vector, indices, values),
        _ => not_written(NO_HANDLE, 0, 0),
    }
}
