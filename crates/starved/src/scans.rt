//! Scans, parallel forms and copies of a range.

use crate::told::{Told, again, begin, end, first};
use lv_bodies::Sum;
use lv_edits::{Edit, Edits};
use lv_geometry::{Limits, Refusal};
use lv_live::Live;
use lv_reduce::{
    Scan, Stretch, Values, View, par_reduce, par_scan_exclusive, par_scan_inclusive,
    par_scan_slice, scan_exclusive, scan_inclusive,
};
use lv_summary::Summaries;
use std::alloc::Global;
use std::thread::Threads;

/// How many elements there are, each 1. They make three pieces.
const COUNT: u32 = 20;

// The version of an answer, how many values it has, and the last value.
type Seen = (u32, usize, Option<u64>);

fn seen(edit: u32, values: &Values<u64>) -> Seen {
    (edit, values.len(), values.as_slice().last().copied())
}

fn of_scan(scan: Result<Scan<u64>, Refusal>) -> Result<Seen, Refusal> {
    let scan = scan?;
    Ok(seen(scan.edit, &scan.values))
}

/// The calls that return values of a range of an unchanging list, and the right result of each.
pub fn name(number: u32) -> Option<(&'static str, Seen)> {
    match number {
        0 => Some(("scan_inclusive", (20, 20, Some(20)))),
        1 => Some(("scan_exclusive", (20, 20, Some(19)))),
        2 => Some(("par_reduce", (20, 0, Some(20)))),
        3 => Some(("par_scan_inclusive", (20, 20, Some(20)))),
        4 => Some(("par_scan_exclusive", (20, 20, Some(19)))),
        5 => Some(("par_scan_slice", (0, 20, Some(20)))),
        6 => Some((
            "Stretch::copy and its scan by one thread",
            (20, 20, Some(19)),
        )),
        7 => Some(("Live::scan_inclusive", (20, 20, Some(20)))),
        8 => Some(("Live::scan_exclusive", (20, 20, Some(19)))),
        9 => Some((
            "Live::copy_range and its scan by threads",
            (20, 20, Some(20)),
        )),
        _ => None,
    }
}

// The call of a number, on a view.
fn ask_view<R: Threads + Sync>(
    rt: &R,
    alloc: Global,
    view: View<'_, u64>,
    number: u32,
) -> Result<Seen, Refusal> {
    match number {
        0 => of_scan(scan_inclusive(alloc, view, &Sum, 0, COUNT)),
        1 => of_scan(scan_exclusive(alloc, view, &Sum, 0, COUNT)),
        2 => {
            let (edit, value) = par_reduce(rt, alloc, view, &Sum, 0, COUNT)?;
            Ok((edit, 0, Some(value)))
        }
        3 => of_scan(par_scan_inclusive(rt, alloc, view, &Sum, 0, COUNT)),
        4 => of_scan(par_scan_exclusive(rt, alloc, view, &Sum, 0, COUNT)),
        5 => {
            let values = par_scan_slice(rt, alloc, &Sum, &[1; 20], true)?;
            Ok(seen(0, &values))
        }
        _ => {
            let stretch = Stretch::copy(alloc, view.cells, Sum, 0, COUNT)?;
            of_scan(stretch.scan_alone(alloc, false))
        }
    }
}

fn try_view<R: Threads + Eprint + Sync>(
    rt: &R,
    alloc: Global,
    edits: &mut Edits,
    table: &Summaries<u64>,
    number: u32,
    wanted: Seen,
) -> Told {
    for _ in 0..COUNT {
        let _ = edits.push(1);
    }
    let view = View {
        cells: edits,
        table,
    };
    begin(rt);
    let answer = ask_view(rt, alloc, view, number);
    end(rt);
    match first(answer, wanted) {
        Told::Refused => again(true, ask_view(rt, alloc, view, number), wanted),
        told => told,
    }
}

fn of_view<R: Threads + Eprint + Sync>(rt: &R, alloc: Global, number: u32, wanted: Seen) -> Told {
    let mut edits = Edits::new(alloc, Limits::greatest());
    let table = Summaries::new(alloc, 0);
    let told = try_view(rt, alloc, &mut edits, &table, number, wanted);
    drop(table);
    drop(edits);
    told
}

// The call of a number, on a live vector.
fn ask_live<R: Threads + Sync>(
    rt: &R,
    alloc: Global,
    live: &Live<Sum>,
    number: u32,
) -> Result<Seen, Refusal> {
    match number {
        7 => of_scan(live.scan_inclusive(alloc, 0, COUNT)),
        8 => of_scan(live.scan_exclusive(alloc, 0, COUNT)),
        _ => {
            let stretch = live.copy_range(alloc, 0, COUNT)?;
            of_scan(stretch.scan(rt, alloc, true))
        }
    }
}

fn try_live<R: Threads + Eprint + Sync>(
    rt: &R,
    alloc: Global,
    live: &mut Live<Sum>,
    number: u32,
    wanted: Seen,
) -> Told {
    for _ in 0..COUNT {
        let _ = live.apply(Edit::Push(1));
    }
    begin(rt);
    let answer = ask_live(rt, alloc, live, number);
    end(rt);
    match first(answer, wanted) {
        Told::Refused => again(true, ask_live(rt, alloc, live, number), wanted),
        told => told,
    }
}

fn of_live<R: Threads + Eprint + Sync>(rt: &R, alloc: Global, number: u32, wanted: Seen) -> Told {
    let mut live = Live::new(alloc, Limits::greatest(), Sum);
    let told = try_live(rt, alloc, &mut live, number, wanted);
    drop(live);
    told
}

/// The call with a number, and whether it returns this result.
pub fn ask<R: Threads + Eprint + Sync>(rt: &R, alloc: Global, number: u32, wanted: Seen) -> Told {
    if number < 7 {
        return of_view(rt, alloc, number, wanted);
    }
    of_live(rt, alloc, number, wanted)
}
