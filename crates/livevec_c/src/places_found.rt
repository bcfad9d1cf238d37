//! Searches of a range of a vector, which return where something is.
ghost use Rattle.std.specs.Prelude.{◌≡◌, ◌<◌, IfSome};
ghost use Rattle.lv_geometry.specs.Numbers.{number_of};
ghost use Rattle.livevec_c.specs.Answers.{detail_of};
ghost use Rattle.livevec_c.specs.Found.{Finds, FindsAsked, FindsObject, FindsVector, end_at, index_at, nowhere, part_at, placed_at, run_at, start_at, unfound};
ghost use Rattle.livevec_c.specs.Wanted.{wanted_at};
ghost use Rattle.livevec_c.specs.declared.wanted.Wanted.TheVariants as wanted;

use crate::kind_vectors::KindVector;
use crate::objects::Object;
use crate::only::may_ask;
use crate::results::{BAD_KIND, NO_HANDLE, detail};
use crate::slots::{Slot, put, take};
use crate::values::halves;
use crate::wanted::{Wanted, sought_by, wanted_by};
use lv_geometry::Refusal;
use lv_tree::{Bound, Placed, Run};
use std::alloc::Global;

/// What a search of a range returns.
#[repr(C)]
#[derive(Clone, Copy)]
pub struct Found {
    pub refusal: u32,
    pub detail: u32,
    pub edit: u32,
    pub lo: u32,
    pub hi: u32,
    pub value: i64,
    pub sum_low: u64,
    pub sum_high: i64,
    pub found: bool,
}

// The answer of a search that was refused.
fn not_found(refusal: u32, detail: u32) -> Found
    ensures { result ≡ unfound refusal detail }
{
    Found {
        refusal,
        detail,
        edit: 0,
        lo: 0,
        hi: 0,
        value: 0,
        sum_low: 0,
        sum_high: 0,
        found: false,
    }
}

// The answer of a search that the library refused.
fn refused(refusal: Refusal) -> Found
    ensures { result ≡ unfound (number_of refusal) (detail_of refusal) }
{
    not_found(refusal.number(), detail(refusal))
}

// The answer of a search that found nothing.
fn none_found(edit: u32) -> Found
    ensures { result ≡ nowhere edit }
{
    let mut answer = not_found(0, 0);
    answer.edit = edit;
    answer
}

// The answer of a search for an element, in a range that ends at `hi`.
fn element_found(edit: u32, hi: u32, place: Option<Placed>) -> Found
    requires { IfSome place (λ p. p.index < hi) }
    ensures { result ≡ placed_at edit place }
{
    let mut answer = none_found(edit);
    if let Some(place) = place {
        answer.lo = place.index;
        answer.hi = place.index + 1;
        answer.value = place.value;
        answer.found = true;
    }
    answer
}

// The answer of a search for a run.
fn run_found(edit: u32, run: Option<Run>) -> Found
    ensures { result ≡ run_at edit run }
{
    let mut answer = none_found(edit);
    if let Some(run) = run {
        answer.lo = run.from;
        answer.hi = run.to;
        (answer.sum_low, answer.sum_high) = halves(run.sum);
        answer.found = true;
    }
    answer
}

// The answer of a search that found a part of a range.
fn part_found(edit: u32, lo: u32, hi: u32) -> Found
    ensures { result ≡ part_at edit lo hi }
{
    let mut answer = none_found(edit);
    answer.lo = lo;
    answer.hi = hi;
    answer.found = true;
    answer
}

// The answer of a search for the end up to which the elements from the range's start on reach a sum.
fn end_found(edit: u32, lo: u32, end: Option<u32>) -> Found
    ensures { result ≡ end_at edit lo end }
{
    match end {
        Some(end) => part_found(edit, lo, end),
        None => none_found(edit),
    }
}

// The answer of a search for the start from which on the elements up to the range's end reach a sum.
fn start_found(edit: u32, hi: u32, start: Option<u32>) -> Found
    ensures { result ≡ start_at edit hi start }
{
    match start {
        Some(start) => part_found(edit, start, hi),
        None => none_found(edit),
    }
}

// The answer of a search for an element within a bound, in a range that ends at `hi`.
fn index_found(edit: u32, hi: u32, index: Option<u32>) -> Found
    requires { IfSome index (λ i. i < hi) }
    ensures { result ≡ index_at edit index }
{
    match index {
        Some(index) => part_found(edit, index, index + 1),
        None => none_found(edit),
    }
}

// The first of the least elements of a range of a vector.
fn find_least(vector: &mut KindVector, lo: u32, hi: u32) -> Found
    ensures answer { FindsVector wanted.Least lo hi result vector.old }
    ensures same { vector.new ≡ vector.old }
{
    match vector.first_least(lo, hi) {
        Err(refusal) => refused(refusal),
        Ok(found) => element_found(vector.live().edit(), hi, found),
    }
}

// The first of the greatest elements.
fn find_greatest(vector: &mut KindVector, lo: u32, hi: u32) -> Found
    ensures answer { FindsVector wanted.Greatest lo hi result vector.old }
    ensures same { vector.new ≡ vector.old }
{
    match vector.first_greatest(lo, hi) {
        Err(refusal) => refused(refusal),
        Ok(found) => element_found(vector.live().edit(), hi, found),
    }
}

// The best run.
fn find_best(vector: &mut KindVector, lo: u32, hi: u32) -> Found
    ensures answer { FindsVector wanted.Best lo hi result vector.old }
    ensures same { vector.new ≡ vector.old }
{
    match vector.best_run(lo, hi) {
        Err(refusal) => refused(refusal),
        Ok(found) => run_found(vector.live().edit(), found),
    }
}

// The end at which a sum is reached.
fn find_end(vector: &mut KindVector, lo: u32, hi: u32, sum: i64) -> Found
    ensures answer { FindsVector (wanted.Reaches sum) lo hi result vector.old }
    ensures same { vector.new ≡ vector.old }
{
    match vector.reaches(lo, hi, i128::from(sum)) {
        Err(refusal) => refused(refusal),
        Ok(found) => end_found(vector.live().edit(), lo, found),
    }
}

// The start from which on a sum is reached.
fn find_start(vector: &mut KindVector, lo: u32, hi: u32, sum: i64) -> Found
    ensures answer { FindsVector (wanted.ReachesBack sum) lo hi result vector.old }
    ensures same { vector.new ≡ vector.old }
{
    match vector.reaches_back(lo, hi, i128::from(sum)) {
        Err(refusal) => refused(refusal),
        Ok(found) => start_found(vector.live().edit(), hi, found),
    }
}

// The first element within a bound.
fn find_first(vector: &mut KindVector, lo: u32, hi: u32, bound: Bound) -> Found
    ensures answer { FindsVector (wanted.First bound) lo hi result vector.old }
    ensures same { vector.new ≡ vector.old }
{
    match vector.first_index(bound, lo, hi) {
        Err(refusal) => refused(refusal),
        Ok(found) => index_found(vector.live().edit(), hi, found),
    }
}

// The last element within a bound.
fn find_last(vector: &mut KindVector, lo: u32, hi: u32, bound: Bound) -> Found
    ensures answer { FindsVector (wanted.Last bound) lo hi result vector.old }
    ensures same { vector.new ≡ vector.old }
{
    match vector.last_index(bound, lo, hi) {
        Err(refusal) => refused(refusal),
        Ok(found) => index_found(vector.live().edit(), hi, found),
    }
}

// Searches a range of a vector for what is wanted.
fn find_in(vector: &mut KindVector, wanted: Wanted, lo: u32, hi: u32) -> Found
    ensures answer { FindsVector wanted lo hi result vector.old }
    ensures same { vector.new ≡ vector.old }
{
    match wanted {
        Wanted::Least => find_least(vector, lo, hi),
        Wanted::Greatest => find_greatest(vector, lo, hi),
        Wanted::Best => find_best(vector, lo, hi),
        Wanted::Reaches(sum) => find_end(vector, lo, hi, sum),
        Wanted::ReachesBack(sum) => find_start(vector, lo, hi, sum),
        Wanted::First(bound) => find_first(vector, lo, hi, bound),
        Wanted::Last(bound) => find_last(vector, lo, hi, bound),
    }
}

// Searches a range of a vector, if the vector may be asked by the kind that the search needs.
fn find_asked(vector: &mut KindVector, asked: bool, wanted: Wanted, lo: u32, hi: u32) -> Found
    ensures answer { FindsAsked asked wanted lo hi result vector.old }
    ensures same { vector.new ≡ vector.old }
{
    if !asked {
        return not_found(BAD_KIND, 0);
    }
    find_in(vector, wanted, lo, hi)
}

// Searches a range of an object, if it is a vector.
fn find_of(object: &mut Object, wanted: Wanted, lo: u32, hi: u32) -> Found
    ensures answer { FindsObject wanted lo hi result object.old }
    ensures same { object.new ≡ object.old }
{
    match object {
        Object::Vector(vector, only) => {
            let asked = may_ask(*only, Some(sought_by(wanted)));
            find_asked(vector, asked, wanted, lo, hi)
        }
        _ => not_found(NO_HANDLE, 0),
    }
}

/// Searches a range of a vector. A number says for what, and `x` is what this is compared with.
#[unsafe(no_mangle)]
pub extern "C" fn livevec_proved_find(
    alloc: Global,
    slot: &mut Slot,
    wanted: u32,
    x: i64,
    lo: u32,
    hi: u32,
) -> Found
    ensures answer { Finds (wanted_at wanted x) lo hi result slot.old.raw.inner }
    ensures same { slot.new.raw.inner ≡ slot.old.raw.inner }
{
    let Some(wanted) = wanted_by(wanted, x) else {
        return not_found(BAD_KIND, 0);
    };
    match take(alloc, slot) {
        None => not_found(NO_HANDLE, 0),
        Some(mut held) => {
            let answer = find_of(&mut held, wanted, lo, hi);
            put(slot, held);
            answer
        }
    }
}
