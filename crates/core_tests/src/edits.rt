//! Tests of swaps and truncates on an `Edits` without a vector around it, also when memory runs out.
use crate::same::assert_same;
use lv_edits::{Edits, Receipt};
use lv_geometry::{Limits, Refusal};
use std::process::Abort;

// Exchanges two elements. If there is no memory, it checks that nothing has changed, and tries again.
fn swap_or_again(
    rt: &impl Abort,
    edits: &mut Edits,
    first: u32,
    second: u32,
) -> Result<Receipt, Refusal> {
    let before = (edits.size(), edits.edit(), edits.get(first));
    let answer = edits.swap(first, second);
    if answer == Err(Refusal::NoMemory) {
        assert_same(rt, &(edits.size(), edits.edit(), edits.get(first)), &before);
        return edits.swap(first, second);
    }
    answer
}

// Drops all but the first `count` elements. If there is no memory, it checks that nothing has changed, and tries again.
fn truncate_or_again(rt: &impl Abort, edits: &mut Edits, count: u32) -> Result<Receipt, Refusal> {
    let before = (edits.size(), edits.edit(), edits.get(0));
    let answer = edits.truncate(count);
    if answer == Err(Refusal::NoMemory) {
        assert_same(rt, &(edits.size(), edits.edit(), edits.get(0)), &before);
        return edits.truncate(count);
    }
    answer
}

// Pushes an element. If there is no memory, it pushes again.
fn push_or_again(edits: &mut Edits, x: i64) -> Result<Receipt, Refusal> {
    match edits.push(x) {
        Err(Refusal::NoMemory) => edits.push(x),
        answer => answer,
    }
}

fn check_swaps(rt: &impl Abort, edits: &mut Edits) {
    for x in [4, 6, 9] {
        assert!(rt; push_or_again(edits, x).is_ok());
    }
    let swapped = swap_or_again(rt, edits, 0, 2);
    let same = swap_or_again(rt, edits, 1, 1);
    let outside = swap_or_again(rt, edits, 0, 3);
    let first = (edits.get(0), edits.get(1), edits.get(2));
    let truncated = truncate_or_again(rt, edits, 1);
    let beyond = truncate_or_again(rt, edits, 2);
    let last = (edits.size(), edits.edit(), edits.capacity(), edits.get(0));
    assert_same(
        rt,
        &swapped,
        &Ok(Receipt::Swapped {
            edit: 4,
            first: 9,
            second: 4,
        }),
    );
    assert_same(
        rt,
        &same,
        &Ok(Receipt::Swapped {
            edit: 5,
            first: 6,
            second: 6,
        }),
    );
    assert_same(
        rt,
        &truncated,
        &Ok(Receipt::Truncated {
            edit: 6,
            dropped: 2,
        }),
    );
    assert_same(rt, &outside, &Err(Refusal::OutOfRange { size: 3 }));
    assert_same(rt, &beyond, &Err(Refusal::OutOfRange { size: 1 }));
    assert_same(rt, &first, &(Ok(9), Ok(6), Ok(4)));
    assert_same(rt, &last, &(1, 6, 8, Ok(9)));
}

// To be run with each allocation failing in turn, too.
#[test]
fn swaps_and_truncates_answer(rt: HostRuntime) {
    let mut edits = Edits::new(rt.alloc(), Limits::greatest());
    check_swaps(&rt, &mut edits);
    drop(edits);
}
