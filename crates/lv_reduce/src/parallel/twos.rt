//! The two scans by two threads: each scans a part into room of its own, and then the second part is put behind the first.
ghost use Rattle.std.specs.Prelude.{◌≡◌, ◌+◌, ◌-◌, ◌≤◌, ◌++◌, [], length, map, vec_len, vec_capacity, All, IfOk};
ghost use Rattle.std.specs.List.{slice_range};
ghost use Rattle.std.specs.Thread.{IsSync, IsSend};
ghost use Rattle.lv_bodies.specs.Body.{CanFold, CanJoin, fold_of};
ghost use Rattle.lv_edits.specs.History.{list_of};
ghost use Rattle.lv_edits.specs.Ranges.{slice_of};
ghost use Rattle.lv_reduce.specs.Answer.{scan_of};
ghost use Rattle.lv_reduce.specs.Rows.{IsPart, elements_in, elements_of};

use crate::parallel::halves::cut;
use crate::reductions::join;
use crate::rows::{Part, Row};
use crate::scans::push_folds;
use crate::views::run_at;
use lv_bodies::Body;
use lv_edits::Edits;
use std::alloc::{AllocError, Global};
use std::thread;
use std::thread::Threads;

/// One of the two scans of a part of a row, by this thread and another. No element is lifted twice, and no room is filled before. This
/// thread has three quarters, since it also puts the last behind them, and the other takes a while to start.
pub fn scan_by_two<R: Threads + Sync, B: Body>(
    rt: &R,
    alloc: Global,
    part: Part<'_>,
    body: &B,
    inclusive: bool,
) -> Result<Vec<B::S>, AllocError>
    requires part { IsPart part }
    ensures { IfOk result (λ values. values.items ≡ scan_of inclusive (B.operations body.now) (elements_of part.entry)) }
{
    let Part { row, lo, hi } = part;
    let mid = cut(lo, hi, 3, 4);
    let values = Vec::with_capacity(alloc, (hi - lo) as usize)?;
    match Vec::with_capacity(alloc, (hi - mid) as usize) {
        Ok(rest) => Ok(scan_both(
            rt,
            Part { row, lo, hi: mid },
            Part { row, lo: mid, hi },
            body,
            inclusive,
            values,
            rest,
        )),
        Err(refused) => Err(refused),
    }
}

// One of the two scans of two neighbouring parts of a row, each by a thread. There is room for both in the first vector, and room for the second
// part in the other.
fn scan_both<R: Threads + Sync, B: Body>(
    rt: &R,
    first: Part<'_>,
    second: Part<'_>,
    body: &B,
    inclusive: bool,
    values: Vec<B::S>,
    rest: Vec<B::S>,
) -> Vec<B::S>
    requires first { IsPart first }
    requires second { IsPart second }
    requires side_by_side { (second.row ≡ first.row) × (second.lo ≡ first.hi) }
    requires empty { (values.items ≡ []) × (vec_len values ≡ 0) × (rest.items ≡ []) × (vec_len rest ≡ 0) }
    requires room { (second.hi - first.lo ≤ vec_capacity values) × (second.hi - second.lo ≤ vec_capacity rest) }
    ensures { result.items ≡ scan_of inclusive (B.operations body.now) (slice_range (elements_in first.entry.row) first.entry.lo second.entry.hi) }
{
    let (theirs, ours) = thread::join(
        rt,
        move || -> (Vec<B::S>, B::S)
            requires { IsSync B.row × IsPart second × (rest.items ≡ []) × (vec_len rest ≡ 0) × (second.hi - second.lo ≤ vec_capacity rest) }
            ensures { (result.0.items ≡ scan_of inclusive (B.operations body.entry.now) (elements_of second.entry)) × (vec_len result.0 ≡ second.entry.hi - second.entry.lo) }
        { scan_one(second, body, inclusive, rest) },
        move || -> (Vec<B::S>, B::S)
            requires { IsPart first × (values.items ≡ []) × (vec_len values ≡ 0) × (first.hi - first.lo ≤ vec_capacity values) }
            ensures { (result.0.items ≡ scan_of inclusive (B.operations body.entry.now) (elements_of first.entry)) × (result.1 ≡ fold_of (B.operations body.entry.now) (elements_of first.entry)) × (vec_len result.0 ≡ first.entry.hi - first.entry.lo) × (vec_capacity result.0 ≡ vec_capacity values) }
        { scan_one(first, body, inclusive, values) },
    );
    let (mut values, sum) = ours;
    let (rest, _) = theirs;
    put_behind(body, sum, rest.as_slice(), &mut values);
    values
}

// One of the two scans of a part of a row, put into an empty vector that has room for it, and the fold of the part.
fn scan_one<B: Body>(
    part: Part<'_>,
    body: &B,
    inclusive: bool,
    mut values: Vec<B::S>,
) -> (Vec<B::S>, B::S)
    requires part { IsPart part }
    requires empty { (values.items ≡ []) × (vec_len values ≡ 0) }
    requires room { part.hi - part.lo ≤ vec_capacity values }
    ensures values { result.0.items ≡ scan_of inclusive (B.operations body.now) (elements_of part.entry) }
    ensures sum { result.1 ≡ fold_of (B.operations body.now) (elements_of part.entry) }
    ensures len { vec_len result.0 ≡ part.entry.hi - part.entry.lo }
    ensures capacity { vec_capacity result.0 ≡ vec_capacity values }
{
    let sum = push_part(part, body, inclusive, &mut values);
    (values, sum)
}

// Pushes one of the two scans of a part of a row into an empty vector that has room for it, and gives the fold of the part.
fn push_part<B: Body>(part: Part<'_>, body: &B, inclusive: bool, values: &mut Vec<B::S>) -> B::S
    requires part { IsPart part }
    requires empty { (values.old.items ≡ []) × (vec_len values.old ≡ 0) }
    requires room { part.hi - part.lo ≤ vec_capacity values.old }
    ensures values { values.new.items ≡ scan_of inclusive (B.operations body.now) (elements_of part.entry) }
    ensures sum { result ≡ fold_of (B.operations body.now) (elements_of part.entry) }
    ensures len { vec_len values.new ≡ part.entry.hi - part.entry.lo }
    ensures capacity { vec_capacity values.new ≡ vec_capacity values.old }
{
    match part.row {
        Row::Cells(history) => push_cells(body, inclusive, history, part.lo, part.hi, values),
        Row::Slice(xs) => push_folds(
            body,
            inclusive,
            body.identity(),
            &xs[part.lo as usize..part.hi as usize],
            values,
        ),
    }
}

// Pushes one of the two scans of a range of a vector, by runs of neighbouring cells.
fn push_cells<B: Body>(
    body: &B,
    inclusive: bool,
    history: &Edits,
    lo: u32,
    hi: u32,
    values: &mut Vec<B::S>,
) -> B::S
    requires can { CanFold (list_of history.now.journal) }
    requires order { lo ≤ hi }
    requires inside { hi ≤ length (list_of history.now.journal) }
    requires empty { (values.old.items ≡ []) × (vec_len values.old ≡ 0) }
    requires room { hi - lo ≤ vec_capacity values.old }
    ensures values { values.new.items ≡ scan_of inclusive (B.operations body.now) (slice_of history.now.journal lo hi) }
    ensures sum { result ≡ fold_of (B.operations body.now) (slice_of history.now.journal lo hi) }
    ensures len { vec_len values.new ≡ hi - lo }
    ensures capacity { vec_capacity values.new ≡ vec_capacity values.old }
{
    let mut sum = body.identity();
    let mut cell = [0];
    let mut at = lo;
    while at < hi {
        let run = run_at(history, at, hi, &mut cell);
        sum = push_folds(body, inclusive, sum, run, values);
        at += run.len() as u32;
    }
    sum
}

// Pushes some values, each joined with the summary `before` in front of it. There is room for all.
fn put_behind<B: Body>(body: &B, before: B::S, more: &[B::S], values: &mut Vec<B::S>)
    requires can { All (λ value. CanJoin (B.is_within body.now) before value) more.now }
    requires room { vec_len values.old + length more.now ≤ vec_capacity values.old }
    ensures { values.new.items ≡ values.old.items ++ map ((B.operations body.now).join before) more.now }
{
    for value in more {
        values.push_reserved(join(body, before, *value));
    }
}
