//! Updates while 64 queries are registered, and the registration of a query.

use crate::rows::Row;
use crate::told::{Told, again, begin, end, first, right};
use lv_bodies::{Kind, Shown};
use lv_edits::{Edit, Receipt};
use lv_geometry::{Limits, Refusal};
use lv_standing::{Name, Standing};
use std::alloc::Global;

// The name of a query: w and two digits.
fn name(number: u8) -> Option<Name> {
    Name::new(&[b'w', b'0' + number / 10 % 10, b'0' + number % 10])
}

fn watch_all(standing: &mut Standing, count: u8) {
    for number in 0..count {
        if let Some(name) = name(number) {
            let _ = standing.watch(name, Kind::Sum, 0, 100);
        }
    }
}

// The answer of a named query.
fn asked(standing: &Standing, number: u8) -> Option<(u32, Shown)> {
    let answered = standing.answer(name(number)?).ok()?;
    Some((answered.edit, answered.value))
}

// What is compared: the size, the version, the capacity, the journal, and the answers of the first and the last query.
fn shown(
    standing: &Standing,
) -> (
    u32,
    u32,
    u32,
    usize,
    Option<(u32, Shown)>,
    Option<(u32, Shown)>,
) {
    let live = standing.live();
    (
        live.size(),
        live.edit(),
        live.capacity(),
        live.journal().len(),
        asked(standing, 0),
        asked(standing, 63),
    )
}

// The receipt of an update, and how many notes came with it.
fn make(standing: &mut Standing, alloc: Global, edit: Edit) -> Result<(Receipt, usize), Refusal> {
    let (receipt, notes) = standing.edit(alloc, edit)?;
    Ok((receipt, notes.len()))
}

fn try_edit<R: Eprint>(rt: &R, alloc: Global, standing: &mut Standing, row: Row) -> Told {
    for _ in 0..row.pushes {
        let _ = make(standing, alloc, Edit::Push(1));
    }
    watch_all(standing, 64);
    let before = shown(standing);
    let notes = if matches!(row.edit, Edit::Reserve(_) | Edit::Swap { .. }) {
        0
    } else {
        64
    };
    begin(rt);
    let answer = make(standing, alloc, row.edit);
    end(rt);
    match first(answer, (row.receipt, notes)) {
        Told::Refused => {
            let same = shown(standing) == before;
            again(same, make(standing, alloc, row.edit), (row.receipt, notes))
        }
        told => told,
    }
}

/// An update while 64 queries are registered. It changes the answer of each, unless it is a reserve or a swap of two equal elements.
pub fn edit_under_queries<R: Eprint>(rt: &R, alloc: Global, row: Row) -> Told {
    let mut standing = Standing::new(alloc, Limits::greatest());
    let told = try_edit(rt, alloc, &mut standing, row);
    drop(standing);
    told
}

fn try_watch<R: Eprint>(rt: &R, standing: &mut Standing, count: u8) -> Told {
    watch_all(standing, count);
    let Some(name) = name(count) else {
        return Told::Wrong;
    };
    begin(rt);
    let answer = standing.watch(name, Kind::Best, 0, 5);
    end(rt);
    match first(answer, ()) {
        Told::Refused => {
            let same = standing.answer(name) == Err(Refusal::NoSuchName);
            again(same, standing.watch(name, Kind::Best, 0, 5), ())
        }
        told => right(standing.answer(name).is_ok(), told),
    }
}

/// The registration of one more query.
pub fn watch<R: Eprint>(rt: &R, alloc: Global, count: u8) -> Told {
    let mut standing = Standing::new(alloc, Limits::greatest());
    let told = try_watch(rt, &mut standing, count);
    drop(standing);
    told
}
