//! Tests of limits, places, buckets and the texts of errors.
use crate::same::assert_same;
use lv_geometry::{Limits, Place, Refusal, buckets_for, place};

#[test]
fn limits_are_checked(rt: HostRuntime) {
    for (buckets, edits) in [(0, 1), (18, 1), (1, 0), (1, 16_777_216)] {
        let refused = Limits::new(buckets, edits);
        assert_same(
            &rt,
            &(buckets, edits, refused),
            &(buckets, edits, Err(Refusal::BadLimits)),
        );
    }
    let greatest = Limits::new(17, 16_777_215);
    assert_same(&rt, &greatest, &Ok(Limits::greatest()));
}

#[test]
fn places_and_buckets(rt: HostRuntime) {
    for (i, bucket, cell) in [(0, 0, 0), (7, 0, 7), (8, 1, 0), (23, 1, 15), (24, 2, 0)] {
        assert_same(&rt, &(i, place(i)), &(i, Place { bucket, cell }));
    }
    for (n, k) in [(0, 0), (1, 1), (8, 1), (9, 2), (25, 3)] {
        assert_same(&rt, &(n, buckets_for(n)), &(n, k));
    }
}

#[test]
fn refusals_have_numbers_and_texts(rt: HostRuntime) -> Result<(), std::test::Fail> {
    assert_same(&rt, &Refusal::Worn.number(), &1);
    assert_same(&rt, &Refusal::NotNow.number(), &20);
    let text = Refusal::OutOfRange { size: 9 }.to_string(rt.alloc())?;
    assert_same(&rt, &text.as_str(), &"out of range: the size is 9");
    Ok(())
}
