//! Many writes at a series at once.
ghost use Rattle.std.specs.Prelude.{◌≡◌, ℤ, List, length};
ghost use Rattle.lv_series.specs.Batches.{writes_at};
ghost use Rattle.livevec_c.specs.SeriesAnswers.{unwritten_by};
ghost use Rattle.livevec_c.specs.SeriesWritten.{WritesLong, WritesSeries, place_refused};

use crate::objects::Object;
use crate::results::SHORT_BUFFER;
use crate::series_results::{Refused, SeriesMany, not_held, not_refused, refusal_answer};
use lv_series::Series;

/// The answer of edits that are refused.
pub fn not_written(why: Refused, place: usize) -> SeriesMany
    ensures { result ≡ unwritten_by why place }
{
    SeriesMany {
        why,
        edit: 0,
        done: 0,
        place,
    }
}

// The place of the first of some writes, one after another, that would be refused; 0 if none would be.
fn place_refused(series: &Series, indices: &[u64]) -> usize
    ensures { (xs : List ℤ) → length indices.now ≡ length xs → result ≡ place_refused series.now (writes_at indices.now xs) }
{
    let left = u64::MAX - series.edits();
    for place in 0..indices.len() {
        if place as u64 == left {
            return place;
        }
        if series.get(indices[place]).is_err() {
            return place;
        }
    }
    0
}

// The refusal if there are not as many values as indices.
fn not_paired() -> Refused
    ensures { result ≡ record { refusal = 103; first = 0; size = 0 } }
{
    Refused {
        refusal: SHORT_BUFFER,
        first: 0,
        size: 0,
    }
}

// Writes at a series.
fn write_at_series(series: &mut Series, indices: &[u64], values: &[i64]) -> SeriesMany
    ensures { WritesSeries indices.now values.now result series.old series.new }
{
    if indices.len() != values.len() {
        return not_written(not_paired(), 0);
    }
    match series.write_all(indices, values) {
        Ok(edit) => SeriesMany {
            why: not_refused(),
            edit,
            done: indices.len(),
            place: 0,
        },
        Err(refusal) => {
            let place = place_refused(series, indices);
            not_written(refusal_answer(refusal), place)
        }
    }
}

/// Writes at an object.
pub fn write_at_object(object: &mut Object, indices: &[u64], values: &[i64]) -> SeriesMany
    ensures { WritesLong indices.now values.now result object.old object.new }
{
    match object {
        Object::Series(series) => write_at_series(series, indices, values),
        _ => not_written(not_held(), 0),
    }
}
