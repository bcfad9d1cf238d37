//! Tests of monoid instances as values: tables that are rejected, and a pair.
use crate::same::assert_same;
use lv_bodies::{Automaton, Least, Pair, Sum, fold_slice};
use lv_geometry::Refusal;

#[test]
fn tables_are_checked(rt: HostRuntime) {
    let mut table = [[7; 4]; 8];
    assert_same(&rt, &Automaton::new(table).err(), &None);
    table[2][3] = 8;
    assert_same(&rt, &Automaton::new(table), &Err(Refusal::BadTable));
}

#[test]
fn pairs_fold_side_by_side(rt: HostRuntime) {
    let pair = Pair {
        first: Sum,
        second: Least,
    };
    assert_same(&rt, &fold_slice(&pair, &[3, -1]), &(2, Some(-1)));
    assert_same(&rt, &fold_slice(&pair, &[]), &(0, None));
}
