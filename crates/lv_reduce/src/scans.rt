//! Both scans of a range, by one thread.
ghost use Rattle.std.specs.Prelude.{◌≡◌, ◌+◌, ◌<◌, ◌≤◌, [], ◌∷◌, ◌++◌, length, vec_len, vec_capacity, IfOk, IfErr, if◌then◌else◌};
ghost use Rattle.lv_bodies.specs.Scan.{exclusive_scan, inclusive_scan};
ghost use Rattle.lv_edits.specs.Ranges.{slice_of};
ghost use Rattle.lv_reduce.specs.Answer.{IsScan, IsScanRefusal, scan_of};
ghost use Rattle.lv_reduce.specs.Running.{CanGoOn, reached, scan_from};

use crate::values::Values;
use crate::views::{View, run_at};
use lv_bodies::{Body, fold_more};
use lv_edits::refusal_of;
use lv_geometry::Refusal;
use std::alloc::Global;

/// The answer to a scan: the number of the last edit, and a value for each element of the range.
#[derive(Drop)]
pub struct Scan<S> {
    pub edit: u32,
    pub values: Values<S>,
}

/// For each element from index `lo` up to `hi` the fold of all from `lo` up to it, and of it. Refused with `BadRange`,
/// `OutOfRange`, then `NoMemory`; the room for all values is made at once.
pub fn scan_inclusive<B: Body>(
    alloc: Global,
    view: View<'_, B::S>,
    body: &B,
    lo: u32,
    hi: u32,
) -> Result<Scan<B::S>, Refusal>
    ensures ok { IfOk result (λ scan. IsScan view.entry.cells.now.journal lo hi
        (inclusive_scan (B.operations body.now) (slice_of view.entry.cells.now.journal lo hi)) scan) }
    ensures err { IfErr result (λ refusal. IsScanRefusal view.entry.cells.now.journal lo hi refusal) }
{
    running_folds(alloc, view, body, lo, hi, true)
}

/// For each element from index `lo` up to `hi` the fold of all from `lo` up to it, without it. Refused as the
/// inclusive scan is.
pub fn scan_exclusive<B: Body>(
    alloc: Global,
    view: View<'_, B::S>,
    body: &B,
    lo: u32,
    hi: u32,
) -> Result<Scan<B::S>, Refusal>
    ensures ok { IfOk result (λ scan. IsScan view.entry.cells.now.journal lo hi
        (exclusive_scan (B.operations body.now) (slice_of view.entry.cells.now.journal lo hi)) scan) }
    ensures err { IfErr result (λ refusal. IsScanRefusal view.entry.cells.now.journal lo hi refusal) }
{
    running_folds(alloc, view, body, lo, hi, false)
}

// The folds of the beginnings of a range: each with the element at its end, or each without it.
pub fn running_folds<B: Body>(
    alloc: Global,
    view: View<'_, B::S>,
    body: &B,
    lo: u32,
    hi: u32,
    inclusive: bool,
) -> Result<Scan<B::S>, Refusal>
    ensures ok { IfOk result (λ scan. IsScan view.entry.cells.now.journal lo hi
        (scan_of inclusive (B.operations body.now) (slice_of view.entry.cells.now.journal lo hi)) scan) }
    ensures err { IfErr result (λ refusal. IsScanRefusal view.entry.cells.now.journal lo hi refusal) }
{
    if let Some(refusal) = refusal_of(view.cells, lo, hi) {
        return Err(refusal);
    }
    let Ok(mut values) = Vec::with_capacity(alloc, (hi - lo) as usize) else {
        return Err(Refusal::NoMemory);
    };
    let mut sum = body.identity();
    let mut cell = [0];
    let mut at = lo;
    while at < hi {
        let run = run_at(view.cells, at, hi, &mut cell);
        sum = push_folds(body, inclusive, sum, run, &mut values);
        at += run.len() as u32;
    }
    Ok(Scan {
        edit: view.cells.edit(),
        values: Values::from_vec(values),
    })
}

/// Puts the scan of some elements, continued from the summary `before`, behind the values that are there, and returns the fold that it reaches.
/// There is room for all.
#[inline(always)]
pub fn push_folds<B: Body>(
    body: &B,
    inclusive: bool,
    before: B::S,
    xs: &[i64],
    values: &mut Vec<B::S>,
) -> B::S
    requires can { CanGoOn (B.is_within body.now) before (length xs.now) }
    requires room { vec_len values.old + length xs.now ≤ vec_capacity values.old }
    ensures values { values.new.items ≡ values.old.items ++ scan_from inclusive (B.operations body.now) before xs.now }
    ensures sum { result ≡ reached (B.operations body.now) before xs.now }
    ensures len { vec_len values.new ≡ vec_len values.old + length xs.now }
    ensures capacity { vec_capacity values.new ≡ vec_capacity values.old }
{
    let mut sum = before;
    for x in xs {
        let sum_before = sum;
        sum = fold_more(body, sum_before, *x);
        values.push_reserved(if inclusive { sum } else { sum_before });
    }
    sum
}
