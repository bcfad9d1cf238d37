//! Running values of a series, put into a column of the caller's, as many as it takes: by one kind, or by all six.
ghost use Rattle.std.specs.Prelude.{◌≡◌, ◌+◌, ◌++◌, ◌≤◌, None, drop, length, map};
ghost use Rattle.std.specs.List.{range_with_len};
ghost use Rattle.lv_series.specs.Series.{range_refused, slice_of};
ghost use Rattle.livevec_c.specs.SeriesHeld.{series_behind, series_in};
ghost use Rattle.livevec_c.specs.SeriesPieces.{cell_up_to, column_in, piece_put, piece_scanned, scanned_in};

use crate::beginnings::Begins;
use crate::columns::lay_run;
use crate::objects::Object;
use crate::series_held::series_of;
use crate::series_pieces::piece_answer;
use crate::series_results::{SeriesScanned, not_held, not_scanned, refusal_answer};
use crate::slots::{Slot, put, take};
use lv_series::Series;
use std::alloc::Global;

// Puts the running values of some elements at the start of a column, which keeps what it has after them. The elements are those from index `at` on,
// and the values are of the range that starts at index `lo`.
fn lay_piece<B: Begins>(
    series: &Series,
    inclusive: bool,
    lo: u64,
    at: u64,
    xs: &[i64],
    column: &mut [B::Cell],
)
    requires front { range_refused series.now.held lo at ≡ None }
    requires rest { range_refused series.now.held at (at + length xs.now) ≡ None }
    requires elements { xs.now ≡ slice_of series.now.held at (at + length xs.now) }
    requires room { length xs.now ≤ length column.old }
    ensures { column.new ≡ map (cell_up_to B.plain_cell inclusive lo at series.now) (range_with_len 0 (length xs.now)) ++ drop (length xs.now) column.old }
{
    // The elements are few enough for a fold.
    series.holds();
    let body = B::by(series.automaton());
    let before = body.begun(series, lo, at);
    lay_run(&body, inclusive, before, xs, 0, &mut column[..xs.len()]);
}

// A scan of a series that goes on from an index, as many values as fit into a column.
fn scan_series<B: Begins>(
    series: &Series,
    lo: u64,
    at: u64,
    hi: u64,
    inclusive: bool,
    column: &mut [B::Cell],
) -> SeriesScanned
    ensures answer { result ≡ piece_scanned lo at hi (length column.old) series.now }
    ensures column { column.new ≡ piece_put B.plain_cell inclusive lo at hi column.old series.now }
{
    if let Some(refusal) = series.range_refusal(lo, at) {
        return not_scanned(refusal_answer(refusal));
    }
    match series.elements(at, hi) {
        Err(refusal) => not_scanned(refusal_answer(refusal)),
        Ok(elements) => {
            let many = column.len().min(elements.len());
            lay_piece::<B>(series, inclusive, lo, at, &elements[..many], column);
            piece_answer(series, many)
        }
    }
}

// A scan of an object that goes on from an index, if the object has a series.
fn scan_object<B: Begins>(
    object: &Object,
    lo: u64,
    at: u64,
    hi: u64,
    inclusive: bool,
    column: &mut [B::Cell],
) -> SeriesScanned
    ensures answer { result ≡ scanned_in lo at hi (length column.old) (series_in object.now) }
    ensures column { column.new ≡ column_in B.plain_cell inclusive lo at hi column.old (series_in object.now) }
{
    match series_of(object) {
        Some(series) => scan_series::<B>(series, lo, at, hi, inclusive, column),
        None => not_scanned(not_held()),
    }
}

/// A piece of a scan of the object in a slot, from an index on, as many cells as fit into a column.
pub fn scan_held<B: Begins>(
    alloc: Global,
    slot: &mut Slot,
    lo: u64,
    at: u64,
    hi: u64,
    inclusive: bool,
    column: &mut [B::Cell],
) -> SeriesScanned
    ensures answer { result ≡ scanned_in lo at hi (length column.old) (series_behind slot.old.raw.inner) }
    ensures column { column.new ≡ column_in B.plain_cell inclusive lo at hi column.old (series_behind slot.old.raw.inner) }
    ensures same { slot.new.raw.inner ≡ slot.old.raw.inner }
{
    match take(alloc, slot) {
        None => not_scanned(not_held()),
        Some(held) => {
            let answer = scan_object::<B>(&held, lo, at, hi, inclusive, column);
            put(slot, held);
            answer
        }
    }
}
