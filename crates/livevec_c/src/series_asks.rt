//! Queries of a series, or of samples: elements and reductions.
ghost use Rattle.std.specs.Prelude.{◌≡◌, true};
ghost use Rattle.livevec_c.specs.SamplesBehind.{element_behind, element_told};
ghost use Rattle.livevec_c.specs.SeriesBehind.{AsksSeries, IsSameButKinds, SixBehind, SixLong, all_kinds, element_in, values_in, values_of};
ghost use Rattle.livevec_c.specs.SeriesAnswers.{unheld, unreduced_by};
ghost use Rattle.livevec_c.specs.SeriesHeld.{AtObject, Long, series_in};

use crate::beginnings::cell_of;
use crate::objects::Object;
use crate::samples::sample_of;
use crate::series_held::{HasSeries, series_of};
use crate::series_results::{
    SampleElement, SeriesReduced, element_answer, no_element, not_held, not_reduced, not_refused,
    refusal_answer,
};
use crate::slots::{Slot, put, take};
use lv_bodies::{Kind, SixPairs};
use lv_series::{LongRefusal, Series};
use std::alloc::Global;

// An element of an object.
fn value_of(object: &Object, index: u64) -> SampleElement
    ensures { result ≡ element_in index (series_in object.now) }
{
    match series_of(object) {
        Some(series) => element_answer(series.get(index)),
        None => no_element(not_held()),
    }
}

// An element of an object, or a sample with its time.
fn get_of(object: &Object, index: u64, timed: bool) -> SampleElement
    ensures { result ≡ element_told timed index object.now }
{
    if timed {
        sample_of(object, index)
    } else {
        value_of(object, index)
    }
}

/// The element under an index, or the sample.
#[unsafe(no_mangle)]
pub extern "C" fn livevec_proved_series_get(
    alloc: Global,
    slot: &mut Slot,
    index: u64,
    timed: bool,
) -> SampleElement
    ensures answer { result ≡ element_behind timed index slot.old.raw.inner }
    ensures same { slot.new.raw.inner ≡ slot.old.raw.inner }
{
    match take(alloc, slot) {
        None => no_element(not_held()),
        Some(held) => {
            let answer = get_of(&held, index, timed);
            put(slot, held);
            answer
        }
    }
}

// A reduction of a series. Each kind that has a tree answers by it.
fn reduce_series(series: &Series, lo: u64, hi: u64) -> SeriesReduced
    ensures { result ≡ values_of lo hi series.now }
{
    if let Some(refusal) = series.range_refusal(lo, hi) {
        return not_reduced(refusal_answer(refusal));
    }
    SeriesReduced {
        why: not_refused(),
        edit: series.edits(),
        values: cell_of::<SixPairs>(series, lo, hi),
    }
}

// A reduction of an object.
fn reduce_of(object: &Object, lo: u64, hi: u64) -> SeriesReduced
    ensures { result ≡ values_in lo hi (series_in object.now) }
{
    match series_of(object) {
        Some(series) => reduce_series(series, lo, hi),
        None => not_reduced(not_held()),
    }
}

// Makes the missing trees of all kinds, and returns whether there was memory for them.
fn prepare_each<H: HasSeries>(held: &mut H) -> bool
    ensures kinds { (state : Long) × (held.new ≡ H.with_series state held.old) × IsSameButKinds (H.series_of held.old) state }
    ensures all { result ≡ true → held.new ≡ H.with_series (record (H.series_of held.old) { kinds = all_kinds }) held.old }
{
    for kind in [
        Kind::Sum,
        Kind::Least,
        Kind::Greatest,
        Kind::Best,
        Kind::Affine,
        Kind::Automaton,
    ] {
        if held.prepare(kind).is_err() {
            return false;
        }
    }
    true
}

// A reduction of what has a series, which makes the tree of each kind first.
fn ask_held<H: HasSeries>(held: &mut H, lo: u64, hi: u64) -> SeriesReduced
    ensures { (state : Long) × (held.new ≡ H.with_series state held.old) × AsksSeries lo hi result (H.series_of held.old) state }
{
    if let Some(refusal) = held.series().range_refusal(lo, hi) {
        return not_reduced(refusal_answer(refusal));
    }
    if !prepare_each(held) {
        return not_reduced(refusal_answer(LongRefusal::NoMemory));
    }
    reduce_series(held.series(), lo, hi)
}

// A reduction of an object, if it has a series. The tree of each kind is made first.
fn ask_of(object: &mut Object, lo: u64, hi: u64) -> SeriesReduced
    ensures { AtObject (AsksSeries lo hi result) (result ≡ unreduced_by unheld) object.old object.new }
{
    match object {
        Object::Series(series) => ask_held(series, lo, hi),
        Object::Samples(samples) => ask_held(samples, lo, hi),
        _ => not_reduced(not_held()),
    }
}

// A reduction of an object, with the trees of all kinds made first, or without making any.
fn six_of(object: &mut Object, trees: bool, lo: u64, hi: u64) -> SeriesReduced
    ensures { SixLong trees lo hi result object.old object.new }
{
    if trees {
        ask_of(object, lo, hi)
    } else {
        reduce_of(object, lo, hi)
    }
}

/// The plain values of the elements of a range by all six kinds. Missing trees are made first, if that is asked.
pub fn six_held(alloc: Global, slot: &mut Slot, trees: bool, lo: u64, hi: u64) -> SeriesReduced
    ensures { SixBehind trees lo hi result slot.old.raw.inner slot.new.raw.inner }
{
    match take(alloc, slot) {
        None => not_reduced(not_held()),
        Some(mut held) => {
            let answer = six_of(&mut held, trees, lo, hi);
            put(slot, held);
            answer
        }
    }
}
