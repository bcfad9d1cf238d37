//! Elements of a series, or times of samples, put into a buffer of the caller's, as many as fit.
ghost use Rattle.std.specs.Prelude.{◌≡◌, ◌++◌, ◌≤◌, drop, length};
ghost use Rattle.livevec_c.specs.SeriesAnswers.{granted};
ghost use Rattle.livevec_c.specs.SamplesBehind.{told_behind, told_in, told_put_behind, told_put_in};
ghost use Rattle.livevec_c.specs.SeriesHeld.{series_in};
ghost use Rattle.livevec_c.specs.SeriesPieces.{elements_put, elements_read, put_in, read_in};

use crate::objects::Object;
use crate::samples::times_of;
use crate::series_held::series_of;
use crate::series_results::{SeriesScanned, not_held, not_refused, not_scanned, refusal_answer};
use crate::slots::{Slot, put, take};
use lv_series::Series;
use std::alloc::Global;

/// Puts elements at the start of a buffer, which keeps what it has after them.
pub fn lay_elements(elements: &[i64], buffer: &mut [i64])
    requires { length elements.now ≤ length buffer.old }
    ensures { buffer.new ≡ elements.now ++ drop (length elements.now) buffer.old }
{
    buffer[..elements.len()].copy_from_slice(elements);
}

/// The answer of a piece that was put into a buffer.
pub fn piece_answer(series: &Series, many: usize) -> SeriesScanned
    ensures { result ≡ record { why = granted; edit = series.now.edits; length = many } }
{
    SeriesScanned {
        why: not_refused(),
        edit: series.edits(),
        length: many as u64,
    }
}

// Elements of a series, as many as fit into a buffer.
fn read_series(series: &Series, lo: u64, hi: u64, buffer: &mut [i64]) -> SeriesScanned
    ensures answer { result ≡ elements_read lo hi (length buffer.old) series.now }
    ensures buffer { buffer.new ≡ elements_put lo hi buffer.old series.now }
{
    match series.elements(lo, hi) {
        Err(refusal) => not_scanned(refusal_answer(refusal)),
        Ok(elements) => {
            let many = buffer.len().min(elements.len());
            lay_elements(&elements[..many], buffer);
            piece_answer(series, many)
        }
    }
}

// Elements of an object, if it has a series, as many as fit into a buffer.
fn read_of(object: &Object, lo: u64, hi: u64, buffer: &mut [i64]) -> SeriesScanned
    ensures answer { result ≡ read_in lo hi (length buffer.old) (series_in object.now) }
    ensures buffer { buffer.new ≡ put_in lo hi buffer.old (series_in object.now) }
{
    match series_of(object) {
        Some(series) => read_series(series, lo, hi, buffer),
        None => not_scanned(not_held()),
    }
}

// Elements of an object, or the times of samples, as many as fit into a buffer.
fn told_of(object: &Object, times: bool, lo: u64, hi: u64, buffer: &mut [i64]) -> SeriesScanned
    ensures answer { result ≡ told_in times lo hi (length buffer.old) object.now }
    ensures buffer { buffer.new ≡ told_put_in times lo hi buffer.old object.now }
{
    if times {
        times_of(object, lo, hi, buffer)
    } else {
        read_of(object, lo, hi, buffer)
    }
}

/// Puts the elements of a range, or the times of samples, into a buffer, from its start on, as many as fit.
#[unsafe(no_mangle)]
pub extern "C" fn livevec_proved_series_read(
    alloc: Global,
    slot: &mut Slot,
    times: bool,
    lo: u64,
    hi: u64,
    buffer: &mut [i64],
) -> SeriesScanned
    ensures answer { result ≡ told_behind times lo hi (length buffer.old) slot.old.raw.inner }
    ensures buffer { buffer.new ≡ told_put_behind times lo hi buffer.old slot.old.raw.inner }
    ensures same { slot.new.raw.inner ≡ slot.old.raw.inner }
{
    match take(alloc, slot) {
        None => not_scanned(not_held()),
        Some(held) => {
            let answer = told_of(&held, times, lo, hi, buffer);
            put(slot, held);
            answer
        }
    }
}
