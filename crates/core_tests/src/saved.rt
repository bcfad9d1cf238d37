//! Tests of saved series and samples: bytes that another program wrote, each byte changed in turn, and lengths that differ.
use crate::same::assert_same;
use lv_bodies::Automaton;
use lv_saved::{LoadRefusal, Loader, save, save_samples};
use lv_series::{Samples, Series};
use std::alloc::Global;
use std::process::Abort;

// A series of one element, -2, after one edit, as a program in Python wrote it by the table of the layout.
const ONE: [u8; 96] = [
    108, 105, 118, 101, 118, 101, 99, 58, 1, 0, 0, 0, 0, 0, 0, 0, 1, 0, 0, 0, 0, 0, 0, 0, 0, 0, 0,
    0, 0, 0, 0, 0, 1, 0, 0, 0, 0, 0, 0, 0, 1, 0, 0, 0, 0, 0, 0, 0, 0, 2, 4, 6, 0, 2, 4, 6, 1, 3, 5,
    7, 1, 3, 5, 7, 2, 4, 6, 0, 2, 4, 6, 0, 3, 5, 7, 1, 3, 5, 7, 1, 254, 255, 255, 255, 255, 255,
    255, 255, 202, 10, 48, 73, 220, 136, 64, 149,
];

fn check_one(rt: &impl Abort, series: &mut Series) {
    assert_same(rt, &series.push(-2).is_ok(), &true);
    let mut bytes = [0; 96];
    assert_same(rt, &save(series, 0, &mut bytes), &96);
    assert_same(rt, &bytes, &ONE);
}

#[test]
fn the_bytes_are_those_of_the_layout(rt: HostRuntime) {
    let mut series = Series::new(rt.alloc(), Automaton::program());
    check_one(&rt, &mut series);
    drop(series);
}

// Two samples, whose times are as far apart as can be, the first under the index 1.
fn few_samples(rt: &impl Abort, alloc: Global) -> Samples {
    let mut samples = Samples::new(alloc, Automaton::program());
    for (time, value) in [(i64::MIN, 7), (i64::MIN, -4), (i64::MAX, 9)] {
        assert_same(rt, &samples.push(time, value).is_ok(), &true);
    }
    assert_same(rt, &samples.expire(1).is_ok(), &true);
    samples
}

// Takes in bytes, in pieces of 50.
fn load(alloc: Global, bytes: &[u8]) -> Result<Loader, LoadRefusal> {
    let mut loader = Loader::new(alloc);
    for part in bytes.chunks(50) {
        if loader.give(part).is_err() {
            drop(loader);
            return Err(LoadRefusal::NoMemory);
        }
    }
    Ok(loader)
}

// The number of the refusal of bytes as a series, 0 if they are one.
fn refusal_of_series(alloc: Global, bytes: &[u8]) -> u32 {
    match load(alloc, bytes) {
        Ok(loader) => match loader.series(alloc) {
            Ok(series) => {
                drop(series);
                0
            }
            Err(refusal) => refusal.number(),
        },
        Err(refusal) => refusal.number(),
    }
}

// The number of the refusal of bytes as samples, 0 if they are those of some.
fn refusal_of_samples(alloc: Global, bytes: &[u8]) -> u32 {
    match load(alloc, bytes) {
        Ok(loader) => match loader.samples(alloc) {
            Ok(samples) => {
                drop(samples);
                0
            }
            Err(refusal) => refusal.number(),
        },
        Err(refusal) => refusal.number(),
    }
}

#[test]
fn each_changed_byte_shows(rt: HostRuntime) {
    let mut bytes = ONE;
    for i in 0..96 {
        for change in [1_u8, 128, 255] {
            bytes[i] = ONE[i] ^ change;
            let refusal = refusal_of_series(rt.alloc(), &bytes);
            assert_same(&rt, &(i, change, refusal), &(i, change, 22));
        }
        bytes[i] = ONE[i];
    }
    assert_same(&rt, &refusal_of_series(rt.alloc(), &bytes), &0);
}

#[test]
fn bytes_of_another_length_are_refused(rt: HostRuntime) {
    for length in 0..96 {
        let refusal = refusal_of_series(rt.alloc(), &ONE[..length]);
        assert_same(&rt, &(length, refusal), &(length, 22));
    }
    let mut longer = [0; 104];
    longer[..96].copy_from_slice(&ONE);
    for length in 97..105 {
        let refusal = refusal_of_series(rt.alloc(), &longer[..length]);
        assert_same(&rt, &(length, refusal), &(length, 22));
    }
}

#[test]
fn each_changed_byte_of_samples_shows(rt: HostRuntime) {
    let samples = few_samples(&rt, rt.alloc());
    let mut bytes = [0; 120];
    assert_same(&rt, &save_samples(&samples, 0, &mut bytes), &120);
    drop(samples);
    for i in 0..120 {
        let byte = bytes[i];
        bytes[i] = byte ^ 16;
        let refusal = refusal_of_samples(rt.alloc(), &bytes);
        assert_same(&rt, &(i, refusal), &(i, 22));
        bytes[i] = byte;
    }
    assert_same(&rt, &refusal_of_samples(rt.alloc(), &bytes), &0);
    // Samples are no series.
    assert_same(&rt, &refusal_of_series(rt.alloc(), &bytes), &22);
}
