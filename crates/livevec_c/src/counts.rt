//! Counts of a vector, a series, samples or a closed board. A number names which one is meant.
ghost use Rattle.std.specs.Prelude.{◌≡◌, [], ◌∷◌, length, slice_get};
ghost use Rattle.livevec_c.specs.Counts.{count_behind, count_of, counted, counts_of, series_counts, vector_counts};

use crate::frees::sort_of;
use crate::objects::Object;
use crate::results::NO_HANDLE;
use crate::slots::{Slot, put, take};
use lv_bodies::SixByTable;
use lv_live::Live;
use lv_saved::{saved_bytes, saved_samples_bytes};
use lv_series::Series;
use std::alloc::Global;

/// A count.
#[repr(C)]
#[derive(Clone, Copy)]
pub struct LongCount {
    pub refusal: u32,
    pub value: u64,
}

// The count of a vector that a number names: its elements, those that fit into its memory, or its edits.
fn count_of_vector(live: &Live<SixByTable>, what: u32) -> Option<u64>
    ensures { result ≡ slice_get (vector_counts live.now) what }
{
    match what {
        0 => Some(u64::from(live.size())),
        1 => Some(u64::from(live.capacity())),
        2 => Some(u64::from(live.edit())),
        _ => None,
    }
}

// The count of a series that a number names: the first index that is kept, the one after the last, its edits, or the bytes that it is saved as.
fn count_of_series(series: &Series, saved: u64, what: u32) -> Option<u64>
    ensures { result ≡ slice_get (series_counts series.now saved) what }
{
    match what {
        0 => Some(series.first()),
        1 => Some(series.size()),
        2 => Some(series.edits()),
        3 => Some(saved),
        _ => None,
    }
}

// The count that a number names, of an object that has only a number of elements.
fn count_of_elements(size: u32, what: u32) -> Option<u64>
    ensures { result ≡ slice_get (size ∷ []) what }
{
    match what {
        0 => Some(u64::from(size)),
        _ => None,
    }
}

// The count of an object that a number names.
fn count_in(object: &Object, what: u32) -> Option<u64>
    ensures { result ≡ slice_get (counts_of object.now) what }
{
    match object {
        Object::Vector(vector, _) => count_of_vector(vector.live(), what),
        Object::Series(series) => count_of_series(series, saved_bytes(series), what),
        Object::Samples(samples) => {
            count_of_series(samples.series(), saved_samples_bytes(samples), what)
        }
        Object::Closed(ended) => count_of_elements(ended.size, what),
        _ => None,
    }
}

// The count of an object that a number names, if the object is of this sort.
fn count_of(object: &Object, sort: u32, what: u32) -> Option<u64>
    ensures { result ≡ count_of sort what object.now }
{
    if sort_of(object) == sort {
        count_in(object, what)
    } else {
        None
    }
}

// The answer for a count, or for none.
fn count_answer(count: Option<u64>) -> LongCount
    ensures { result ≡ counted count }
{
    match count {
        Some(value) => LongCount { refusal: 0, value },
        None => LongCount {
            refusal: NO_HANDLE,
            value: 0,
        },
    }
}

/// The count that a number names, of an object of this sort.
#[unsafe(no_mangle)]
pub extern "C" fn livevec_proved_count(
    alloc: Global,
    slot: &mut Slot,
    sort: u32,
    what: u32,
) -> LongCount
    ensures answer { result ≡ count_behind sort what slot.old.raw.inner }
    ensures same { slot.new.raw.inner ≡ slot.old.raw.inner }
{
    match take(alloc, slot) {
        None => count_answer(None),
        Some(held) => {
            let answer = count_answer(count_of(&held, sort, what));
            put(slot, held);
            answer
        }
    }
}
