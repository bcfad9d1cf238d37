//! Reductions and scans by as many threads as pay.
ghost use Rattle.std.specs.Prelude.{◌≡◌, ◌^◌, ◌≤◌, length, IfOk, IfErr};
ghost use Rattle.lv_bodies.specs.Scan.{exclusive_scan, inclusive_scan};
ghost use Rattle.lv_edits.specs.History.{list_of};
ghost use Rattle.lv_edits.specs.Ranges.{slice_of};
ghost use Rattle.lv_reduce.specs.Answer.{IsScan, IsScanRefusal, IsAnswerPair, scan_of};

mod halves;
mod slices;
mod twos;

use crate::rows::{Part, Row};
use crate::scans::{Scan, running_folds};
use crate::values::Values;
use crate::views::{View, run_at};
use halves::{LEAST_FOLD, LEAST_SCAN, fold_halved, parts_for};
use lv_bodies::Body;
use lv_edits::{Edits, refusal_of};
use lv_geometry::Refusal;
pub use slices::{scan_alone, tell_elements};
use slices::{scan_part, scan_slice};
use std::alloc::{AllocError, Global};
use std::thread::Threads;

/// The fold of the elements from index `lo` up to `hi`, with the number of the last edit, by as many threads as pay: one, two, or more, but
/// more than two are at most one fewer than there are processors. It folds the elements themselves, and reads no summary. Refused with
/// `BadRange`, then `OutOfRange`. Its contract also allows `NoMemory`, but it takes no memory of its own.
pub fn par_reduce<R: Threads + Sync, B: Body>(
    rt: &R,
    alloc: Global,
    view: View<'_, B::S>,
    body: &B,
    lo: u32,
    hi: u32,
) -> Result<(u32, B::S), Refusal>
    ensures ok { IfOk result (λ answer. IsAnswerPair (B.operations body.now) view.entry.cells.now.journal lo hi answer) }
    ensures err { IfErr result (λ refusal. IsScanRefusal view.entry.cells.now.journal lo hi refusal) }
{
    if let Some(refusal) = refusal_of(view.cells, lo, hi) {
        return Err(refusal);
    }
    let parts = parts_for(rt, body, hi - lo, LEAST_FOLD);
    let row = Row::Cells(view.cells);
    let value = fold_halved(rt, Part { row, lo, hi }, body, parts);
    Ok((view.cells.edit(), value))
}

/// The scan that `scan_inclusive` makes, by as many threads as pay. Refused as that is.
pub fn par_scan_inclusive<R: Threads + Sync, B: Body>(
    rt: &R,
    alloc: Global,
    view: View<'_, B::S>,
    body: &B,
    lo: u32,
    hi: u32,
) -> Result<Scan<B::S>, Refusal>
    ensures ok { IfOk result (λ scan. IsScan view.entry.cells.now.journal lo hi
        (inclusive_scan (B.operations body.now) (slice_of view.entry.cells.now.journal lo hi)) scan) }
    ensures err { IfErr result (λ refusal. IsScanRefusal view.entry.cells.now.journal lo hi refusal) }
{
    scan_range(rt, alloc, view, body, lo, hi, true)
}

/// The scan that `scan_exclusive` makes, by as many threads as pay. Refused as that is.
pub fn par_scan_exclusive<R: Threads + Sync, B: Body>(
    rt: &R,
    alloc: Global,
    view: View<'_, B::S>,
    body: &B,
    lo: u32,
    hi: u32,
) -> Result<Scan<B::S>, Refusal>
    ensures ok { IfOk result (λ scan. IsScan view.entry.cells.now.journal lo hi
        (exclusive_scan (B.operations body.now) (slice_of view.entry.cells.now.journal lo hi)) scan) }
    ensures err { IfErr result (λ refusal. IsScanRefusal view.entry.cells.now.journal lo hi refusal) }
{
    scan_range(rt, alloc, view, body, lo, hi, false)
}

/// One of the two scans of a slice of at most 2^20 elements, by as many threads as pay. `NoMemory` is its only refusal.
pub fn par_scan_slice<R: Threads + Sync, B: Body>(
    rt: &R,
    alloc: Global,
    body: &B,
    xs: &[i64],
    inclusive: bool,
) -> Result<Values<B::S>, Refusal>
    requires few { length xs.now ≤ 2 ^ 20 }
    ensures ok { IfOk result (λ values. values ≡ scan_of inclusive (B.operations body.now) xs.now) }
    ensures err { IfErr result (λ refusal. refusal ≡ Refusal.NoMemory) }
{
    match scan_slice(rt, alloc, body, xs, inclusive) {
        Ok(values) => Ok(Values::from_vec(values)),
        Err(AllocError) => Err(Refusal::NoMemory),
    }
}

/// The elements of a range, copied out of the vector, with room made at once.
pub fn copy_range(alloc: Global, history: &Edits, lo: u32, hi: u32) -> Result<Vec<i64>, AllocError>
    requires order { lo ≤ hi }
    requires inside { hi ≤ length (list_of history.now.journal) }
    ensures { IfOk result (λ xs. xs.items ≡ slice_of history.now.journal lo hi) }
{
    let mut xs = Vec::with_capacity(alloc, (hi - lo) as usize)?;
    let mut cell = [0];
    let mut at = lo;
    while at < hi {
        let run = run_at(history, at, hi, &mut cell);
        xs.extend_from_slice(run)?;
        at += run.len() as u32;
    }
    Ok(xs)
}

// One of the two scans of a range, from the elements themselves, by as many threads as pay.
fn scan_range<R: Threads + Sync, B: Body>(
    rt: &R,
    alloc: Global,
    view: View<'_, B::S>,
    body: &B,
    lo: u32,
    hi: u32,
    inclusive: bool,
) -> Result<Scan<B::S>, Refusal>
    ensures ok { IfOk result (λ scan. IsScan view.entry.cells.now.journal lo hi
        (scan_of inclusive (B.operations body.now) (slice_of view.entry.cells.now.journal lo hi)) scan) }
    ensures err { IfErr result (λ refusal. IsScanRefusal view.entry.cells.now.journal lo hi refusal) }
{
    let parts = parts_for(rt, body, hi.saturating_sub(lo), LEAST_SCAN);
    if parts < 2 {
        return running_folds(alloc, view, body, lo, hi, inclusive);
    }
    if let Some(refusal) = refusal_of(view.cells, lo, hi) {
        return Err(refusal);
    }
    let row = Row::Cells(view.cells);
    let Ok(values) = scan_part(rt, alloc, Part { row, lo, hi }, body, inclusive, parts) else {
        return Err(Refusal::NoMemory);
    };
    Ok(Scan {
        edit: view.cells.edit(),
        values: Values::from_vec(values),
    })
}
