//! The updates that each layer is asked for, with their receipts.

use lv_edits::{Edit, Receipt};

/// An update that is made after some pushes of 1, and its receipt.
#[derive(Clone, Copy)]
pub struct Row {
    pub name: &'static str,
    pub pushes: u32,
    pub edit: Edit,
    pub receipt: Receipt,
}

/// The row with a number. Those that open a bucket come first.
pub fn row_of(number: u32) -> Option<Row> {
    if number < 3 {
        opening_row(number)
    } else {
        row_after_eight(number)
    }
}

// The row of an update that opens a bucket.
fn opening_row(number: u32) -> Option<Row> {
    match number {
        0 => row_with(
            "reserve 56 from nothing",
            0,
            Edit::Reserve(56),
            Receipt::Reserved {
                edit: 1,
                capacity: 56,
            },
        ),
        1 => row_with(
            "the first push",
            0,
            Edit::Push(1),
            Receipt::Pushed { edit: 1, index: 0 },
        ),
        2 => row_with(
            "the push that opens the second bucket",
            8,
            Edit::Push(1),
            Receipt::Pushed { edit: 9, index: 8 },
        ),
        _ => None,
    }
}

// The row of an update of eight elements that opens none.
fn row_after_eight(number: u32) -> Option<Row> {
    let (name, edit, receipt) = match number {
        3 => ("a pop", Edit::Pop, Receipt::Popped { edit: 9, value: 1 }),
        4 => (
            "a write",
            Edit::Write { index: 3, value: 9 },
            Receipt::Written { edit: 9, before: 1 },
        ),
        5 => (
            "a swap",
            Edit::Swap {
                first: 0,
                second: 7,
            },
            Receipt::Swapped {
                edit: 9,
                first: 1,
                second: 1,
            },
        ),
        6 => (
            "a truncate",
            Edit::Truncate(3),
            Receipt::Truncated {
                edit: 9,
                dropped: 5,
            },
        ),
        _ => return None,
    };
    row_with(name, 8, edit, receipt)
}

fn row_with(name: &'static str, pushes: u32, edit: Edit, receipt: Receipt) -> Option<Row> {
    Some(Row {
        name,
        pushes,
        edit,
        receipt,
    })
}
