//! Tests the parallel forms: what they answer and refuse, and that two pieces are folded at once.
ghost use Rattle.std.specs.Prelude.{◌^◌, ◌≤◌, length, IfOk};

use crate::same::assert_same;
use fixtures::{Stage, Staged};
use lv_bodies::{Body, Sum};
use lv_edits::Edits;
use lv_geometry::{Limits, Refusal};
use lv_reduce::{
    Scan, Values, View, par_reduce, par_scan_exclusive, par_scan_inclusive, par_scan_slice,
};
use lv_summary::Summaries;
use std::alloc::{AllocError, Global};
use std::process::Abort;
use std::test::Fail;
use std::thread::Threads;

// Checks that a scan at edit 4096 has 4,096 values, which begin and end with these.
fn assert_goes(rt: &impl Abort, scan: &Scan<u64>, first: &[u64], last: u64) {
    let values = scan.values.as_slice();
    let seen = (values.starts_with(first), values.last().copied());
    assert_same(
        rt,
        &(scan.edit, values.len(), seen),
        &(4096, 4096, (true, Some(last))),
    );
}

// Checks the inclusive or exclusive scan of 0 to 4095.
fn check_scan<R: Threads + Sync + Abort>(
    rt: &R,
    alloc: Global,
    view: View<'_, u64>,
    inclusive: bool,
    first: &[u64],
    last: u64,
) -> Result<(), Refusal> {
    let scan = either_scan(rt, alloc, view, &Sum, 4096, inclusive)?;
    assert_goes(rt, &scan, first, last);
    drop(scan);
    Ok(())
}

// The inclusive or exclusive scan of the first `hi` elements.
fn either_scan<B: Body + Sync, R: Threads + Sync>(
    rt: &R,
    alloc: Global,
    view: View<'_, B::S>,
    body: &B,
    hi: u32,
    inclusive: bool,
) -> Result<Scan<B::S>, Refusal> {
    if inclusive {
        par_scan_inclusive(rt, alloc, view, body, 0, hi)
    } else {
        par_scan_exclusive(rt, alloc, view, body, 0, hi)
    }
}

// Pushes 0 to 4095, and checks their sum, their scans, and which ranges are refused.
fn check_answers<R: Threads + Sync + Abort>(
    rt: &R,
    alloc: Global,
    edits: &mut Edits,
    table: &Summaries<u64>,
) -> Result<(), Refusal> {
    for x in 0..4096 {
        edits.push(x)?;
    }
    let view = View {
        cells: edits,
        table,
    };
    assert_same(
        rt,
        &par_reduce(rt, alloc, view, &Sum, 0, 4096),
        &Ok((4096, 8_386_560)),
    );
    check_scan(rt, alloc, view, true, &[0, 1, 3], 8_386_560)?;
    check_scan(rt, alloc, view, false, &[0, 0, 1], 8_382_465)?;
    check_refusal(rt, alloc, view, 2, 1, Refusal::BadRange);
    let past = Refusal::OutOfRange { size: 4096 };
    check_refusal(rt, alloc, view, 0, 4097, past);
    Ok(())
}

// Checks that a range is refused by the three calls that take one.
fn check_refusal<R: Threads + Sync + Abort>(
    rt: &R,
    alloc: Global,
    view: View<'_, u64>,
    lo: u32,
    hi: u32,
    refusal: Refusal,
) {
    let reduced = par_reduce(rt, alloc, view, &Sum, lo, hi).err();
    let inclusive = par_scan_inclusive(rt, alloc, view, &Sum, lo, hi).err();
    let exclusive = par_scan_exclusive(rt, alloc, view, &Sum, lo, hi).err();
    assert_same(
        rt,
        &[reduced, inclusive, exclusive],
        &[Some(refusal), Some(refusal), Some(refusal)],
    );
}

#[test]
fn the_numbers_below_4096(rt: HostRuntime) -> Result<(), Fail> {
    let mut edits = Edits::new(rt.alloc(), Limits::greatest());
    let table = Summaries::new(rt.alloc(), 0);
    let done = check_answers(&rt, rt.alloc(), &mut edits, &table);
    drop(table);
    drop(edits);
    Ok(done?)
}

// Checks the scan of a slice.
fn check_slice<R: Threads + Sync + Abort>(
    rt: &R,
    alloc: Global,
    xs: &[i64],
    inclusive: bool,
    wanted: &[u64],
) -> Result<(), Refusal>
    requires { length xs.now ≤ 2 ^ 20 }
{
    let values = par_scan_slice(rt, alloc, &Sum, xs, inclusive)?;
    assert_same(rt, &values.as_slice(), &wanted);
    drop(values);
    Ok(())
}

#[test]
fn slices_of_one_two_three(rt: HostRuntime) -> Result<(), Refusal> {
    check_slice(&rt, rt.alloc(), &[1, 2, 3], true, &[1, 3, 6])?;
    check_slice(&rt, rt.alloc(), &[1, 2, 3], false, &[0, 1, 3])?;
    check_slice(&rt, rt.alloc(), &[], true, &[])
}

// 65,536 elements: the first is 1, the last is 2, and all others are 0.
fn far_apart(alloc: Global) -> Result<Vec<i64>, AllocError>
    ensures { IfOk result (λ xs. length xs.items ≤ 2 ^ 20) }
{
    let mut xs = Vec::with_capacity(alloc, 65_536)?;
    xs.push(1)?;
    for _ in 0..65_534u32 {
        xs.push(0)?;
    }
    xs.push(2)?;
    Ok(xs)
}

// Reduces a range by a new stage, and checks that its first element met the last there.
fn meet_in_reduce<R: Threads + Sync + Abort>(
    rt: &R,
    alloc: Global,
    view: View<'_, u64>,
) -> Result<(), Refusal> {
    let stage = Stage::new(true);
    let body = Staged { stage: &stage };
    let (edit, sum) = par_reduce(rt, alloc, view, &body, 0, 65_536)?;
    assert_same(
        rt,
        &(edit, sum, stage.latch.was_in_time()),
        &(65_536, 3, true),
    );
    Ok(())
}

// Scans a range by a new stage, either way, and checks that its first element met the last there.
fn meet_in_scan<R: Threads + Sync + Abort>(
    rt: &R,
    alloc: Global,
    view: View<'_, u64>,
    inclusive: bool,
) -> Result<(), Refusal> {
    let stage = Stage::new(true);
    let body = Staged { stage: &stage };
    let scan = either_scan(rt, alloc, view, &body, 65_536, inclusive)?;
    assert_last(rt, &scan.values, inclusive);
    drop(scan);
    assert_same(rt, &stage.latch.was_in_time(), &true);
    Ok(())
}

// Scans a slice by a new stage, and checks that its first element met the last there.
fn meet_in_slice<R: Threads + Sync + Abort>(
    rt: &R,
    alloc: Global,
    xs: &[i64],
) -> Result<(), Refusal>
    requires { length xs.now ≤ 2 ^ 20 }
{
    let stage = Stage::new(true);
    let body = Staged { stage: &stage };
    let values = par_scan_slice(rt, alloc, &body, xs, true)?;
    assert_last(rt, &values, true);
    drop(values);
    assert_same(rt, &stage.latch.was_in_time(), &true);
    Ok(())
}

// Checks that there are 65,536 values, and that they end with the sum of all elements, or of all but the last.
fn assert_last(rt: &impl Abort, values: &Values<u64>, inclusive: bool) {
    let last = if inclusive { 3 } else { 1 };
    assert_same(rt, &values.len(), &65_536);
    assert_same(rt, &values.as_slice().last().copied(), &Some(last));
}

// Pushes the elements, and makes the three calls that take a range meet over them.
fn meet_in_ranges<R: Threads + Sync + Abort>(
    rt: &R,
    alloc: Global,
    edits: &mut Edits,
    table: &Summaries<u64>,
    xs: &[i64],
) -> Result<(), Refusal> {
    for x in xs {
        edits.push(*x)?;
    }
    let view = View {
        cells: edits,
        table,
    };
    meet_in_reduce(rt, alloc, view)?;
    meet_in_scan(rt, alloc, view, true)?;
    meet_in_scan(rt, alloc, view, false)
}

#[test]
fn two_pieces_at_once(rt: HostRuntime) -> Result<(), Fail> {
    let xs = far_apart(rt.alloc())?;
    meet_in_slice(&rt, rt.alloc(), xs.as_slice())?;
    let mut edits = Edits::new(rt.alloc(), Limits::greatest());
    let table = Summaries::new(rt.alloc(), 0);
    let met = meet_in_ranges(&rt, rt.alloc(), &mut edits, &table, xs.as_slice());
    drop(table);
    drop(edits);
    Ok(met?)
}
