//! Reads of a vector: its elements, also those of a closed board, and its reductions.
ghost use Rattle.std.specs.Prelude.{◌≡◌, None, false};
ghost use Rattle.lv_bodies.specs.Automata.{table_of};
ghost use Rattle.lv_bodies.specs.Body.{fold_of};
ghost use Rattle.lv_bodies.specs.Six.{six_operations_by};
ghost use Rattle.lv_bodies.specs.declared.kinds.Kind.TheVariants as kinds;
ghost use Rattle.lv_edits.specs.Ranges.{range_refusal, slice_of};
ghost use Rattle.lv_tree.specs.KindSummaries.{summary_by};
ghost use Rattle.livevec_c.specs.Answers.{no_element, spread, unreduced, with_part};
ghost use Rattle.livevec_c.specs.Behind.{AsksVector, Six, SixIn, SixOf, element_behind, element_of};
ghost use Rattle.livevec_c.specs.Plainly.{IsPlain};

use crate::kind_vectors::KindVector;
use crate::objects::Object;
use crate::results::{
    BAD_KIND, Count, Element, NO_HANDLE, Reduced, detail, element_answer, not_reduced,
    reduction_answer,
};
use crate::slots::{Slot, put, take};
use crate::values::{PlainValues, no_values, put_part};
use lv_bodies::{Kind, SixByTable};
use lv_live::Live;
use lv_tree::KindSummary;
use std::alloc::Global;

/// The answer for an element if a slot holds no vector.
pub fn missing() -> Element
    ensures { result ≡ no_element }
{
    Element {
        refusal: NO_HANDLE,
        detail: 0,
        value: 0,
    }
}

// An element of an object of this sort: of a vector, or of a closed board.
fn get_of(object: &Object, sort: u32, index: u32) -> Element
    ensures { result ≡ element_of sort index object.now }
{
    match object {
        Object::Vector(vector, _) => {
            if sort == 0 {
                element_answer(vector.live().get(index))
            } else {
                missing()
            }
        }
        Object::Closed(ended) => {
            if sort == 4 {
                element_answer(ended.get(index))
            } else {
                missing()
            }
        }
        _ => missing(),
    }
}

/// The element at an index, of a vector or of a closed board, as the sort says.
#[unsafe(no_mangle)]
pub extern "C" fn livevec_proved_get(
    alloc: Global,
    slot: &mut Slot,
    sort: u32,
    index: u32,
) -> Element
    ensures answer { result ≡ element_behind sort index slot.old.raw.inner }
    ensures same { slot.new.raw.inner ≡ slot.old.raw.inner }
{
    match take(alloc, slot) {
        None => missing(),
        Some(held) => {
            let answer = get_of(&held, sort, index);
            put(slot, held);
            answer
        }
    }
}

/// A count.
pub fn count_answer(value: u32) -> Count
    ensures { result ≡ record { refusal = 0; value = value } }
{
    Count { refusal: 0, value }
}

/// The answer for a count if a slot holds no vector.
pub fn uncounted() -> Count
    ensures { result ≡ record { refusal = 101; value = 0 } }
{
    Count {
        refusal: NO_HANDLE,
        value: 0,
    }
}

// A reduction of a vector by all six kinds, which reads the summaries that are kept.
fn reduce_six(live: &Live<SixByTable>, lo: u32, hi: u32) -> Reduced
    ensures { SixOf None false lo hi result live.now }
{
    live.keeps();
    reduction_answer(live.reduce(lo, hi))
}

// Puts the value of a range by a kind among the plain values.
fn put_value(vector: &mut KindVector, kind: Kind, lo: u32, hi: u32, values: &mut PlainValues)
    requires { range_refusal vector.old.history.journal lo hi ≡ None }
    ensures put { values.new ≡ with_part (summary_by (table_of vector.old.body.automaton) kind (slice_of vector.old.history.journal lo hi)) values.old }
    ensures same { vector.new ≡ vector.old }
{
    let Ok(answer) = vector.value(kind, lo, hi) else {
        unreachable!();
    };
    put_part(values, answer.summary);
}

// The plain values of a range whose sum is known. The others are asked by their kinds.
fn six_values(vector: &mut KindVector, lo: u32, hi: u32, sum: KindSummary) -> PlainValues
    requires granted { range_refusal vector.old.history.journal lo hi ≡ None }
    requires sum { sum ≡ summary_by (table_of vector.old.body.automaton) kinds.Sum (slice_of vector.old.history.journal lo hi) }
    ensures values { result ≡ spread (fold_of (six_operations_by (table_of vector.old.body.automaton)) (slice_of vector.old.history.journal lo hi)) }
    ensures same { vector.new ≡ vector.old }
{
    let mut values = no_values();
    put_part(&mut values, sum);
    put_value(vector, Kind::Least, lo, hi, &mut values);
    put_value(vector, Kind::Greatest, lo, hi, &mut values);
    put_value(vector, Kind::Best, lo, hi, &mut values);
    put_value(vector, Kind::Affine, lo, hi, &mut values);
    put_value(vector, Kind::Automaton, lo, hi, &mut values);
    values
}

// The plain values of a range of a vector, each kind by its own tree.
fn ask_six(vector: &mut KindVector, lo: u32, hi: u32) -> Reduced
    ensures answer { AsksVector lo hi result vector.old }
    ensures same { vector.new ≡ vector.old }
{
    match vector.value(Kind::Sum, lo, hi) {
        Err(refusal) => not_reduced(refusal.number(), detail(refusal)),
        Ok(answer) => Reduced {
            refusal: 0,
            detail: 0,
            edit: answer.edit,
            cells: 0,
            summaries: 0,
            values: six_values(vector, lo, hi, answer.summary),
        },
    }
}

// The plain values of a range in one of these two ways, of a vector that is of all six kinds. One of a single kind refuses it.
fn six_of(vector: &mut KindVector, only: Option<Kind>, trees: bool, lo: u32, hi: u32) -> Reduced
    ensures answer { SixOf only trees lo hi result vector.old }
    ensures same { vector.new ≡ vector.old }
{
    if only.is_some() {
        return not_reduced(BAD_KIND, 0);
    }
    if trees {
        ask_six(vector, lo, hi)
    } else {
        reduce_six(vector.live(), lo, hi)
    }
}

// The plain values of a range of an object, if it is a vector.
fn six_in(object: &mut Object, trees: bool, lo: u32, hi: u32) -> Reduced
    ensures answer { SixIn trees lo hi result object.old }
    ensures same { object.new ≡ object.old }
{
    match object {
        Object::Vector(vector, only) => six_of(vector, *only, trees, lo, hi),
        _ => not_reduced(NO_HANDLE, 0),
    }
}

/// The plain values of the elements of a range by all six kinds, each by its own tree or by the summaries that are kept.
pub fn six_held(alloc: Global, slot: &mut Slot, trees: bool, lo: u32, hi: u32) -> Reduced
    ensures answer { Six trees lo hi result slot.old.raw.inner }
    ensures plain { IsPlain lo hi result slot.old.raw.inner }
    ensures same { slot.new.raw.inner ≡ slot.old.raw.inner }
{
    match take(alloc, slot) {
        None => not_reduced(NO_HANDLE, 0),
        Some(mut held) => {
            let answer = six_in(&mut held, trees, lo, hi);
            put(slot, held);
            answer
        }
    }
}
