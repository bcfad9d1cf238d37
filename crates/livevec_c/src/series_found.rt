//! Searches of a range of a series, or of the values of samples, which return where something is.
ghost use Rattle.std.specs.Prelude.{◌≡◌, ◌<◌, IfSome};
ghost use Rattle.lv_series.specs.Places.{IsSearchable};
ghost use Rattle.livevec_c.specs.SeriesFound.{FindsAt, FindsBehind, FindsSeries, long_end, long_index, long_nowhere, long_part, long_placed, long_run, long_start, long_unfound};
ghost use Rattle.livevec_c.specs.SeriesAnswers.{unheld};
ghost use Rattle.livevec_c.specs.SeriesHeld.{AtObject, Long};
ghost use Rattle.livevec_c.specs.SeriesValued.{unkind};
ghost use Rattle.livevec_c.specs.Wanted.{kind_sought, wanted_at};

use crate::objects::Object;
use crate::series_held::HasSeries;
use crate::series_kinds::no_kind;
use crate::series_results::{Refused, not_held, not_refused, refusal_answer};
use crate::slots::{Slot, put, take};
use crate::values::halves;
use crate::wanted::{Wanted, sought_by, wanted_by};
use lv_series::{LongPlaced, LongRun, Series};
use std::alloc::Global;

/// What a search of a range of a series returns.
#[repr(C)]
#[derive(Clone, Copy)]
pub struct SeriesFound {
    pub why: Refused,
    pub edit: u64,
    pub lo: u64,
    pub hi: u64,
    pub value: i64,
    pub sum_low: u64,
    pub sum_high: i64,
    pub found: bool,
}

// The answer of a search that was refused.
fn not_found(why: Refused) -> SeriesFound
    ensures { result ≡ long_unfound why }
{
    SeriesFound {
        why,
        edit: 0,
        lo: 0,
        hi: 0,
        value: 0,
        sum_low: 0,
        sum_high: 0,
        found: false,
    }
}

// The answer of a search that found nothing.
fn none_found(edit: u64) -> SeriesFound
    ensures { result ≡ long_nowhere edit }
{
    let mut answer = not_found(not_refused());
    answer.edit = edit;
    answer
}

// The answer of a search that found a part of a range.
fn part_found(edit: u64, lo: u64, hi: u64) -> SeriesFound
    ensures { result ≡ long_part edit lo hi }
{
    let mut answer = none_found(edit);
    answer.lo = lo;
    answer.hi = hi;
    answer.found = true;
    answer
}

// The answer of a search for an element, in a range that ends at `hi`.
fn element_found(edit: u64, hi: u64, place: Option<LongPlaced>) -> SeriesFound
    requires { IfSome place (λ p. p.index < hi) }
    ensures { result ≡ long_placed edit place }
{
    match place {
        None => none_found(edit),
        Some(place) => {
            let mut answer = part_found(edit, place.index, place.index + 1);
            answer.value = place.value;
            answer
        }
    }
}

// The answer of a search for a run.
fn run_found(edit: u64, run: Option<LongRun>) -> SeriesFound
    ensures { result ≡ long_run edit run }
{
    match run {
        None => none_found(edit),
        Some(run) => {
            let mut answer = part_found(edit, run.from, run.to);
            (answer.sum_low, answer.sum_high) = halves(run.sum);
            answer
        }
    }
}

// The answer of a search for the end up to which the elements from the range's start on reach a sum.
fn end_found(edit: u64, lo: u64, end: Option<u64>) -> SeriesFound
    ensures { result ≡ long_end edit lo end }
{
    match end {
        Some(end) => part_found(edit, lo, end),
        None => none_found(edit),
    }
}

// The answer of a search for the start from which on the elements up to the range's end reach a sum.
fn start_found(edit: u64, hi: u64, start: Option<u64>) -> SeriesFound
    ensures { result ≡ long_start edit hi start }
{
    match start {
        Some(start) => part_found(edit, start, hi),
        None => none_found(edit),
    }
}

// The answer of a search for an element within a bound, in a range that ends at `hi`.
fn index_found(edit: u64, hi: u64, index: Option<u64>) -> SeriesFound
    requires { IfSome index (λ i. i < hi) }
    ensures { result ≡ long_index edit index }
{
    match index {
        Some(index) => part_found(edit, index, index + 1),
        None => none_found(edit),
    }
}

// Searches a range of a series that can be searched.
fn find_in(series: &Series, wanted: Wanted, lo: u64, hi: u64) -> SeriesFound
    requires { IsSearchable series.now (kind_sought wanted) lo hi }
    ensures { FindsAt wanted series.now.held lo hi series.now.edits result }
{
    let edit = series.edits();
    match wanted {
        Wanted::Least => element_found(edit, hi, series.least_inside(lo, hi)),
        Wanted::Greatest => element_found(edit, hi, series.greatest_inside(lo, hi)),
        Wanted::Best => run_found(edit, series.best_inside(lo, hi)),
        Wanted::Reaches(sum) => end_found(edit, lo, series.end_inside(lo, hi, i128::from(sum))),
        Wanted::ReachesBack(sum) => {
            start_found(edit, hi, series.start_inside(lo, hi, i128::from(sum)))
        }
        Wanted::First(bound) => index_found(edit, hi, series.first_inside(bound, lo, hi)),
        Wanted::Last(bound) => index_found(edit, hi, series.last_inside(bound, lo, hi)),
    }
}

// Searches a range of something that has a series. The tree of the kind is made first if there is none.
fn find_held<H: HasSeries>(held: &mut H, wanted: Wanted, lo: u64, hi: u64) -> SeriesFound
    ensures { (state : Long) × (held.new ≡ H.with_series state held.old) × FindsSeries wanted lo hi result (H.series_of held.old) state }
{
    match held.prepare_for(sought_by(wanted), lo, hi) {
        Err(refusal) => not_found(refusal_answer(refusal)),
        Ok(()) => find_in(held.series(), wanted, lo, hi),
    }
}

// Searches a range of an object, if it has a series.
fn find_of(object: &mut Object, wanted: Wanted, lo: u64, hi: u64) -> SeriesFound
    ensures { AtObject (FindsSeries wanted lo hi result) (result ≡ long_unfound unheld) object.old object.new }
{
    match object {
        Object::Series(series) => find_held(series, wanted, lo, hi),
        Object::Samples(samples) => find_held(samples, wanted, lo, hi),
        _ => not_found(not_held()),
    }
}

/// Searches a range of a series. A number says for what, and `x` is what this is compared with.
#[unsafe(no_mangle)]
pub extern "C" fn livevec_proved_series_find(
    alloc: Global,
    slot: &mut Slot,
    wanted: u32,
    x: i64,
    lo: u64,
    hi: u64,
) -> SeriesFound
    ensures { FindsBehind (wanted_at wanted x) lo hi result slot.old.raw.inner slot.new.raw.inner }
{
    let Some(wanted) = wanted_by(wanted, x) else {
        return not_found(no_kind());
    };
    match take(alloc, slot) {
        None => not_found(not_held()),
        Some(mut held) => {
            let answer = find_of(&mut held, wanted, lo, hi);
            put(slot, held);
            answer
        }
    }
}
