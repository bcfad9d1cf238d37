//! Queries of a series by one kind, or by all six, which use each kind's tree, and how such a tree is made.
ghost use Rattle.std.specs.Prelude.{◌≡◌};
ghost use Rattle.livevec_c.specs.Kinds.{kind_at};
ghost use Rattle.livevec_c.specs.SeriesAnswers.{unheld, unreduced_by};
ghost use Rattle.livevec_c.specs.SeriesHeld.{AtObject, Long};
ghost use Rattle.livevec_c.specs.SeriesValued.{PreparesBehind, PreparesSeries, ValuesBehind, ValuesBy, ValuesSeries, unkind};

use crate::boards::kind_of;
use crate::objects::Object;
use crate::results::{BAD_KIND, NO_HANDLE};
use crate::said::shown_values;
use crate::series_asks::six_held;
use crate::series_held::HasSeries;
use crate::series_results::{
    Refused, SeriesReduced, not_held, not_reduced, not_refused, refusal_answer,
};
use crate::slots::{Slot, is_full, put, take, take_full};
use lv_bodies::Kind;
use lv_series::Series;
use std::alloc::Global;

/// The refusal of a number that names no kind.
pub fn no_kind() -> Refused
    ensures { result ≡ unkind }
{
    Refused {
        refusal: BAD_KIND,
        first: 0,
        size: 0,
    }
}

// A value by a kind of something that has a series. The kind's tree is made first.
#[inline(always)]
fn value_of_held<H: HasSeries>(held: &mut H, kind: Kind, lo: u64, hi: u64) -> SeriesReduced
    ensures { (state : Long) × (held.new ≡ H.with_series state held.old) × ValuesSeries kind lo hi result (H.series_of held.old) state }
{
    match held.ask(kind, lo, hi) {
        Err(refusal) => not_reduced(refusal_answer(refusal)),
        Ok(answer) => SeriesReduced {
            why: not_refused(),
            edit: answer.edit,
            values: shown_values(lo < hi, answer.value.shown()),
        },
    }
}

// A value of a series by any kind. Sums are asked for most, and the code for a kind that is known has fewer cases to tell apart.
fn value_by(series: &mut Series, kind: Kind, lo: u64, hi: u64) -> SeriesReduced
    ensures { ValuesSeries kind lo hi result series.old series.new }
{
    match kind {
        Kind::Sum => value_of_held(series, Kind::Sum, lo, hi),
        _ => value_of_held(series, kind, lo, hi),
    }
}

// A value of an object, if it has a series.
fn value_of_object(object: &mut Object, kind: Kind, lo: u64, hi: u64) -> SeriesReduced
    ensures { AtObject (ValuesSeries kind lo hi result) (result ≡ unreduced_by unheld) object.old object.new }
{
    match object {
        Object::Series(series) => value_by(series, kind, lo, hi),
        Object::Samples(samples) => value_of_held(samples, kind, lo, hi),
        _ => not_reduced(not_held()),
    }
}

// A value of the object in a slot, by the kind that a number names.
#[inline(always)]
fn value_held(alloc: Global, slot: &mut Slot, kind: u32, lo: u64, hi: u64) -> SeriesReduced
    ensures { ValuesBehind (kind_at kind) lo hi result slot.old.raw.inner slot.new.raw.inner }
{
    let Some(kind) = kind_of(kind) else {
        return not_reduced(no_kind());
    };
    if !is_full(slot) {
        return not_reduced(not_held());
    }
    let mut held = take_full(alloc, slot);
    let answer = value_of_object(&mut held, kind, lo, hi);
    put(slot, held);
    answer
}

/// The plain values of the elements of a range by all six kinds, for which missing trees are made first if that is asked; or the value by one kind,
/// whose tree is made first if there is none.
#[unsafe(no_mangle)]
pub extern "C" fn livevec_proved_series_value(
    alloc: Global,
    slot: &mut Slot,
    six: bool,
    trees: bool,
    kind: u32,
    lo: u64,
    hi: u64,
) -> SeriesReduced
    ensures { ValuesBy six trees (kind_at kind) lo hi result slot.old.raw.inner slot.new.raw.inner }
{
    if six {
        six_held(alloc, slot, trees, lo, hi)
    } else {
        value_held(alloc, slot, kind, lo, hi)
    }
}

// Makes the tree of a kind for something that has a series.
fn prepare_held<H: HasSeries>(held: &mut H, kind: Kind) -> u32
    ensures { (state : Long) × (held.new ≡ H.with_series state held.old) × PreparesSeries kind result (H.series_of held.old) state }
{
    match held.prepare(kind) {
        Ok(()) => 0,
        Err(refusal) => refusal.number(),
    }
}

// Makes the tree of a kind for an object, if it has a series.
fn prepare_object(object: &mut Object, kind: Kind) -> u32
    ensures { AtObject (PreparesSeries kind result) (result ≡ 101) object.old object.new }
{
    match object {
        Object::Series(series) => prepare_held(series, kind),
        Object::Samples(samples) => prepare_held(samples, kind),
        _ => NO_HANDLE,
    }
}

/// Makes the tree of a kind, if there is none.
#[unsafe(no_mangle)]
pub extern "C" fn livevec_proved_series_prepare(alloc: Global, slot: &mut Slot, kind: u32) -> u32
    ensures { PreparesBehind (kind_at kind) result slot.old.raw.inner slot.new.raw.inner }
{
    let Some(kind) = kind_of(kind) else {
        return BAD_KIND;
    };
    match take(alloc, slot) {
        None => NO_HANDLE,
        Some(mut held) => {
            let answer = prepare_object(&mut held, kind);
            put(slot, held);
            answer
        }
    }
}
