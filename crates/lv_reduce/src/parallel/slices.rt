//! The two scans of elements that aren't copied: as one piece into a new vector, and by several threads into disjoint pieces of one.
ghost use Rattle.std.specs.Prelude.{◌≡◌, ℕ, ◌+◌, ◌-◌, ◌*◌, ◌<◌, ◌≤◌, ◌^◌, ◌++◌, length, take, drop, vec_len, All, IfOk};
ghost use Rattle.std.specs.List.{slice_range};
ghost use Rattle.lv_geometry.specs.Elements.{IsElement};
ghost use Rattle.lv_bodies.specs.Body.{CanFold, fold_of};
ghost use Rattle.lv_edits.specs.History.{list_of};
ghost use Rattle.lv_edits.specs.Ranges.{slice_of};
ghost use Rattle.lv_reduce.specs.Answer.{scan_of};
ghost use Rattle.lv_reduce.specs.Rows.{IsPart, elements_of};
ghost use Rattle.lv_reduce.specs.Running.{AreBefore, AreOfPieces, CanGoOn, IsPiece, reached, scan_from};

use crate::parallel::halves::{LEAST_SCAN, parts_for};
use crate::parallel::twos::scan_by_two;
use crate::reductions::join;
use crate::rows::{Part, Row, fold_range};
use crate::scans::push_folds;
use crate::views::run_at;
use lv_bodies::{Body, fold_more};
use lv_edits::Edits;
use rayon::prelude::*;
use std::alloc::{AllocError, Global};
use std::thread::{Threads, map_indices};

/// One of the two scans of a slice, by as many threads as pay.
pub fn scan_slice<R: Threads + Sync, B: Body>(
    rt: &R,
    alloc: Global,
    body: &B,
    xs: &[i64],
    inclusive: bool,
) -> Result<Vec<B::S>, AllocError>
    requires { length xs.now ≤ 2 ^ 20 }
    ensures { IfOk result (λ values. values.items ≡ scan_of inclusive (B.operations body.now) xs.now) }
{
    let len = xs.len() as u32;
    let parts = parts_for(rt, body, len, LEAST_SCAN);
    if parts < 2 {
        return scan_alone(alloc, body, xs, inclusive);
    }
    tell_elements(xs);
    let part = Part {
        row: Row::Slice(xs),
        lo: 0,
        hi: len,
    };
    scan_part(rt, alloc, part, body, inclusive, parts)
}

/// One of the two scans of a part of a row, by so many threads.
pub fn scan_part<R: Threads + Sync, B: Body>(
    rt: &R,
    alloc: Global,
    part: Part<'_>,
    body: &B,
    inclusive: bool,
    parts: usize,
) -> Result<Vec<B::S>, AllocError>
    requires part { IsPart part }
    requires some { 0 < parts }
    ensures { IfOk result (λ values. values.items ≡ scan_of inclusive (B.operations body.now) (elements_of part.entry)) }
{
    if parts == 2 {
        scan_by_two(rt, alloc, part, body, inclusive)
    } else {
        scan_by_pieces(rt, alloc, part, body, inclusive, parts)
    }
}

// One of the two scans of a part of a row, in so many pieces. A thread of its own folds each piece and then scans it into its place.
fn scan_by_pieces<R: Threads + Sync, B: Body>(
    rt: &R,
    alloc: Global,
    part: Part<'_>,
    body: &B,
    inclusive: bool,
    parts: usize,
) -> Result<Vec<B::S>, AllocError>
    requires part { IsPart part }
    requires some { 0 < parts }
    ensures { IfOk result (λ values. values.items ≡ scan_of inclusive (B.operations body.now) (elements_of part.entry)) }
{
    let len = (part.hi - part.lo) as usize;
    let size = len / parts + 1;
    let befores = befores_of(rt, alloc, part, body, size)?;
    let mut values = Vec::with_capacity(alloc, len)?;
    values.resize(len, body.identity())?;
    scan_pieces(
        rt,
        part,
        body,
        inclusive,
        befores.as_slice(),
        size,
        values.as_mut_slice(),
    );
    Ok(values)
}

/// One of the two scans of a slice, by the thread that asks.
pub fn scan_alone<B: Body>(
    alloc: Global,
    body: &B,
    xs: &[i64],
    inclusive: bool,
) -> Result<Vec<B::S>, AllocError>
    requires { length xs.now ≤ 2 ^ 20 }
    ensures { IfOk result (λ values. values.items ≡ scan_of inclusive (B.operations body.now) xs.now) }
{
    let mut values = Vec::with_capacity(alloc, xs.len())?;
    push_folds(body, inclusive, body.identity(), xs, &mut values);
    Ok(values)
}

// The folds of the pieces of so many elements, each made by a thread of its own.
fn fold_pieces<R: Threads + Sync, B: Body>(
    rt: &R,
    alloc: Global,
    part: Part<'_>,
    body: &B,
    size: usize,
) -> Result<Vec<B::S>, AllocError>
    requires part { IsPart part }
    requires size { 0 < size }
    ensures count { IfOk result (λ folds. length (elements_of part.entry) ≤ vec_len folds * size) }
    ensures folds { IfOk result (λ folds. AreOfPieces (B.operations body.now) size (elements_of part.entry) folds.items) }
{
    let count = ((part.hi - part.lo) as usize).div_ceil(size);
    let fold = |n: usize| -> B::S
        requires { IsPart part × (n * size < part.hi - part.lo) }
        ensures { result ≡ fold_of (B.operations body.entry.now) (take size (drop (n * size) (elements_of part.entry))) }
    { fold_piece(part, body, size, n) };
    map_indices(rt, alloc, count, &fold)
}

// The fold of the piece of so many elements that has a number.
fn fold_piece<B: Body>(part: Part<'_>, body: &B, size: usize, n: usize) -> B::S
    requires part { IsPart part }
    requires inside { n * size < part.hi - part.lo }
    ensures { result ≡ fold_of (B.operations body.now) (take size (drop (n * size) (elements_of part.entry))) }
{
    let from = part.lo + (n * size) as u32;
    let count = size.min((part.hi - from) as usize) as u32;
    fold_range(part.row, body, from, from + count)
}

// Proves to the checker that the elements of a slice are of 64 bits. The loop computes nothing, so that no code is left of it.
pub fn tell_elements(xs: &[i64])
    ensures { All IsElement xs.now }
{
    for x in xs {
        let _element = *x;
    }
}

// For each piece of so many elements, the fold of all elements before it.
fn befores_of<R: Threads + Sync, B: Body>(
    rt: &R,
    alloc: Global,
    part: Part<'_>,
    body: &B,
    size: usize,
) -> Result<Vec<B::S>, AllocError>
    requires part { IsPart part }
    requires size { 0 < size }
    ensures { IfOk result (λ befores. AreBefore (B.operations body.now) size (elements_of part.entry) befores.items) }
{
    let folds = fold_pieces(rt, alloc, part, body, size)?;
    let mut befores = Vec::with_capacity(alloc, folds.len())?;
    let mut before = body.identity();
    for fold in folds.as_slice() {
        befores.push_reserved(before);
        before = join(body, before, *fold);
    }
    Ok(befores)
}

// Puts the scan of each piece of so many elements where its values belong, by a thread that has the piece.
fn scan_pieces<R: Threads + Sync, B: Body>(
    rt: &R,
    part: Part<'_>,
    body: &B,
    inclusive: bool,
    befores: &[B::S],
    size: usize,
    values: &mut [B::S],
)
    requires part { IsPart part }
    requires befores { AreBefore (B.operations body.now) size (elements_of part) befores.now }
    requires len { length values.old ≡ part.hi - part.lo }
    requires size { 0 < size }
    ensures { values.new ≡ scan_of inclusive (B.operations body.now) (elements_of part.entry) }
{
    par_chunks_mut_for_each(
        rt,
        values,
        size,
        |start: usize, piece: &mut [B::S]|
            requires { IsPiece (B.operations body.now) part befores.now size start (length piece.now) }
            ensures { piece.exit.now ≡ scan_from inclusive (B.operations body.entry.now) (fold_of (B.operations body.entry.now) (take start (elements_of part.entry))) (slice_range (elements_of part.entry) start (start + length piece.entry.now)) }
        { scan_piece(part, body, inclusive, befores, size, start, piece) },
    );
}

// Puts the scan of the piece that begins at an index where its values belong.
fn scan_piece<B: Body>(
    part: Part<'_>,
    body: &B,
    inclusive: bool,
    befores: &[B::S],
    size: usize,
    start: usize,
    piece: &mut [B::S],
)
    requires { IsPiece (B.operations body.now) part befores.now size start (length piece.old) }
    ensures { piece.new ≡ scan_from inclusive (B.operations body.now) (fold_of (B.operations body.now) (take start (elements_of part.entry))) (slice_range (elements_of part.entry) start (start + length piece.old)) }
{
    let before = befores[start / size];
    let lo = part.lo + start as u32;
    match part.row {
        Row::Cells(history) => scan_cells(body, inclusive, before, history, lo, piece),
        Row::Slice(xs) => {
            let from = lo as usize;
            scan_into(
                body,
                inclusive,
                before,
                &xs[from..from + piece.len()],
                0,
                piece,
            );
        }
    }
}

// Puts the scan of a range of a vector where its values belong, by runs of neighbouring cells. `before` is the fold of the elements from an
// earlier index up to the range.
fn scan_cells<B: Body>(
    body: &B,
    inclusive: bool,
    before: B::S,
    history: &Edits,
    lo: u32,
    values: &mut [B::S],
)
    requires can { CanFold (list_of history.now.journal) }
    requires before { (first : ℕ) × (first ≤ lo) × (before ≡ fold_of (B.operations body.now) (slice_of history.now.journal first lo)) }
    requires inside { lo + length values.old ≤ length (list_of history.now.journal) }
    ensures { values.new ≡ scan_from inclusive (B.operations body.now) before (slice_of history.now.journal lo (lo + length values.old)) }
{
    let hi = lo + values.len() as u32;
    let mut sum = before;
    let mut cell = [0];
    let mut at = lo;
    while at < hi {
        let from = (at - lo) as usize;
        let run = run_at(history, at, hi, &mut cell);
        sum = scan_into(body, inclusive, sum, run, from, values);
        at += run.len() as u32;
    }
}

// Puts the scan of some elements, continued from the summary `before`, where its values belong: from an index on. Returns the fold that it
// reaches.
fn scan_into<B: Body>(
    body: &B,
    inclusive: bool,
    before: B::S,
    xs: &[i64],
    from: usize,
    values: &mut [B::S],
) -> B::S
    requires can { CanGoOn (B.is_within body.now) before (length xs.now) }
    requires room { from + length xs.now ≤ length values.old }
    ensures values { take (from + length xs.now) values.new ≡ take from values.old ++ scan_from inclusive (B.operations body.now) before xs.now }
    ensures len { length values.new ≡ length values.old }
    ensures sum { result ≡ reached (B.operations body.now) before xs.now }
{
    let mut sum = before;
    for k in 0..xs.len() {
        let sum_before = sum;
        sum = fold_more(body, sum_before, xs[k]);
        values[from + k] = if inclusive { sum } else { sum_before };
    }
    sum
}
