//! Queries by one kind, for which only that kind does work, or by all six.
ghost use Rattle.std.specs.Prelude.{◌≡◌, nat_lt, IfOk, IfErr, Some};
ghost use Rattle.livevec_c.specs.Kinds.{kind_at};
ghost use Rattle.livevec_c.specs.Only.{is_asked_by};
ghost use Rattle.livevec_c.specs.Plainly.{IsPlainBy};
ghost use Rattle.livevec_c.specs.Valued.{ValuesBy, object_value, value_asked, value_behind, value_of};

use crate::boards::kind_of;
use crate::kind_vectors::KindVector;
use crate::objects::Object;
use crate::only::may_ask;
use crate::reads::six_held;
use crate::results::{BAD_KIND, NO_HANDLE, Reduced, detail, not_reduced};
use crate::said::shown_values;
use crate::slots::{Slot, is_full, put, take_full};
use lv_bodies::Kind;
use std::alloc::Global;

// A value of a vector, which keeps what it computes by that kind.
#[inline(always)]
fn value_of_vector(vector: &mut KindVector, kind: Kind, lo: u32, hi: u32) -> Reduced
    ensures answer { result ≡ value_of kind lo hi vector.old }
    ensures same { vector.new ≡ vector.old }
{
    match vector.value(kind, lo, hi) {
        Err(refusal) => not_reduced(refusal.number(), detail(refusal)),
        Ok(answer) => Reduced {
            refusal: 0,
            detail: 0,
            edit: answer.edit,
            cells: 0,
            summaries: 0,
            values: shown_values(lo < hi, answer.summary.shown()),
        },
    }
}

// A value of a vector by any kind. Sums are asked for most, and the code for a kind that is known has fewer cases to tell apart.
fn value_by(vector: &mut KindVector, kind: Kind, lo: u32, hi: u32) -> Reduced
    ensures answer { result ≡ value_of kind lo hi vector.old }
    ensures same { vector.new ≡ vector.old }
{
    match kind {
        Kind::Sum => value_of_vector(vector, Kind::Sum, lo, hi),
        _ => value_of_vector(vector, kind, lo, hi),
    }
}

// A value of a vector that is of one kind or of all six, if it may be asked by this kind.
fn value_asked(vector: &mut KindVector, only: Option<Kind>, kind: Kind, lo: u32, hi: u32) -> Reduced
    ensures answer { result ≡ value_asked (is_asked_by only (Some kind)) kind lo hi vector.old }
    ensures same { vector.new ≡ vector.old }
{
    if !may_ask(only, Some(kind)) {
        return not_reduced(BAD_KIND, 0);
    }
    value_by(vector, kind, lo, hi)
}

// A value of an object, if it is a vector.
fn value_of_object(object: &mut Object, kind: Kind, lo: u32, hi: u32) -> Reduced
    ensures answer { result ≡ object_value kind lo hi object.old }
    ensures same { object.new ≡ object.old }
{
    match object {
        Object::Vector(vector, only) => value_asked(vector, *only, kind, lo, hi),
        _ => not_reduced(NO_HANDLE, 0),
    }
}

// A value of the object in a slot, by the kind that a number names.
#[inline(always)]
fn value_held(alloc: Global, slot: &mut Slot, kind: u32, lo: u32, hi: u32) -> Reduced
    ensures answer { result ≡ value_behind (kind_at kind) lo hi slot.old.raw.inner }
    ensures same { slot.new.raw.inner ≡ slot.old.raw.inner }
{
    let Some(kind) = kind_of(kind) else {
        return not_reduced(BAD_KIND, 0);
    };
    if !is_full(slot) {
        return not_reduced(NO_HANDLE, 0);
    }
    let mut held = take_full(alloc, slot);
    let answer = value_of_object(&mut held, kind, lo, hi);
    put(slot, held);
    answer
}

/// The plain values of the elements of a range by all six kinds, from each kind's tree or from the summaries that are kept; or the value by one
/// kind. What is computed for that value is kept for its kind only.
#[unsafe(no_mangle)]
pub extern "C" fn livevec_proved_value(
    alloc: Global,
    slot: &mut Slot,
    six: bool,
    trees: bool,
    kind: u32,
    lo: u32,
    hi: u32,
) -> Reduced
    ensures answer { ValuesBy six trees (kind_at kind) lo hi result slot.old.raw.inner }
    ensures plain { IsPlainBy six lo hi result slot.old.raw.inner }
    ensures same { slot.new.raw.inner ≡ slot.old.raw.inner }
{
    if six {
        six_held(alloc, slot, trees, lo, hi)
    } else {
        value_held(alloc, slot, kind, lo, hi)
    }
}
