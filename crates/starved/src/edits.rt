//! Updates of a list, by their own calls and by `apply`, and of a live vector.

use crate::rows::Row;
use crate::told::{Told, again, begin, end, first};
use lv_bodies::Sum;
use lv_edits::{Edit, Edits, Receipt};
use lv_geometry::{Limits, Refusal};
use lv_live::Live;
use std::alloc::Global;

// Makes an update by a call of its own, or by `apply`.
fn make(edits: &mut Edits, edit: Edit, applies: bool) -> Result<Receipt, Refusal> {
    if applies {
        return edits.apply(edit);
    }
    match edit {
        Edit::Push(x) => edits.push(x),
        Edit::Pop => edits.pop(),
        Edit::Write { index, value } => edits.write(index, value),
        Edit::Reserve(cells) => edits.reserve(cells),
        Edit::Swap { first, second } => edits.swap(first, second),
        Edit::Truncate(count) => edits.truncate(count),
    }
}

// What is compared of a list: its size, its version, its capacity, the length of its journal, and an element.
fn shown(edits: &Edits) -> (u32, u32, u32, usize, Result<i64, Refusal>) {
    (
        edits.size(),
        edits.edit(),
        edits.capacity(),
        edits.journal().len(),
        edits.get(3),
    )
}

fn try_edit<R: Eprint>(rt: &R, edits: &mut Edits, row: Row, applies: bool) -> Told {
    for _ in 0..row.pushes {
        let _ = edits.push(1);
    }
    let before = shown(edits);
    begin(rt);
    let answer = make(edits, row.edit, applies);
    end(rt);
    match first(answer, row.receipt) {
        Told::Refused => {
            let same = shown(edits) == before;
            again(same, make(edits, row.edit, applies), row.receipt)
        }
        told => told,
    }
}

/// An update of a list.
pub fn edit_list<R: Eprint>(rt: &R, alloc: Global, row: Row, applies: bool) -> Told {
    let mut edits = Edits::new(alloc, Limits::greatest());
    let told = try_edit(rt, &mut edits, row, applies);
    drop(edits);
    told
}

// What is compared of a vector: what is compared of a list, and what a reduction of all elements reads.
fn shown_live(live: &Live<Sum>) -> (u32, u32, u32, usize, u64, u32, u32) {
    let (value, cells, summaries) = match live.reduce(0, live.size()) {
        Ok(answer) => (answer.value, answer.cells_read, answer.summaries_read),
        Err(_) => (0, 0, 0),
    };
    (
        live.size(),
        live.edit(),
        live.capacity(),
        live.journal().len(),
        value,
        cells,
        summaries,
    )
}

// A block is valid before the update, if there is one.
fn try_live<R: Eprint>(rt: &R, live: &mut Live<Sum>, row: Row) -> Told {
    for _ in 0..row.pushes {
        let _ = live.apply(Edit::Push(1));
    }
    live.refresh(1);
    let before = shown_live(live);
    begin(rt);
    let answer = live.apply(row.edit);
    end(rt);
    match first(answer, row.receipt) {
        Told::Refused => {
            let same = shown_live(live) == before && live.claim().is_none();
            again(same, live.apply(row.edit), row.receipt)
        }
        told => told,
    }
}

/// An update of a live vector.
pub fn edit_live<R: Eprint>(rt: &R, alloc: Global, row: Row) -> Told {
    let mut live = Live::new(alloc, Limits::greatest(), Sum);
    let told = try_live(rt, &mut live, row);
    drop(live);
    told
}
