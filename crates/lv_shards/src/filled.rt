//! The fold of at least one element by each of the six.
ghost use Rattle.std.specs.Prelude.{◌≡◌, ◌↔◌, ◌^◌, ◌≤◌, IsTrue};
ghost use Rattle.lv_bodies.specs.RunTotals.{AreTotalsOf, IsTotalOf};
ghost use Rattle.lv_bodies.specs.Six.{six_within};
ghost use Rattle.lv_bodies.specs.Tables.{IsStateMap};
ghost use Rattle.lv_shards.specs.Reading.{six_of};

use crate::sixfold::Each;
use lv_bodies::{AffineMap, RunTotals};

/// The sum, the least, the greatest, the best run, the map and the states of some elements.
#[derive(Clone, Copy)]
pub struct Filled {
    pub sum: u64,
    pub least: i64,
    pub greatest: i64,
    pub run: RunTotals,
    pub map: AffineMap,
    pub states: [u8; 8],
}

/// The summaries by each.
pub fn each_of(filled: Filled) -> Each
    ensures { result ≡ six_of filled }
{
    let Filled {
        sum,
        least,
        greatest,
        run,
        map,
        states,
    } = filled;
    let later = (Some(greatest), (Some(run), (map, states)));
    (sum, (Some(least), later))
}

/// Whether each of the eight is a state.
pub fn are_states(states: [u8; 8]) -> bool
    ensures { IsTrue result ↔ IsStateMap states 0 }
{
    states.iter().all(|q| *q < 8)
}

// Whether so many elements can get that far from 0.
fn is_total(x: i128, count: u64) -> bool
    requires { count ≤ 2 ^ 62 }
    ensures { IsTrue result ↔ IsTotalOf count x }
{
    x.unsigned_abs() <= u128::from(count) * (1 << 63)
}

// Whether a run can be that of so many elements.
fn are_totals(run: RunTotals, count: u64) -> bool
    requires { count ≤ 2 ^ 62 }
    ensures { IsTrue result ↔ AreTotalsOf run count }
{
    is_total(run.total, count)
        && is_total(run.prefix, count)
        && is_total(run.suffix, count)
        && is_total(run.best, count)
}

/// Whether it can be what so many elements come to.
pub fn is_within(filled: Filled, count: u64) -> bool
    requires { count ≤ 2 ^ 62 }
    ensures { IsTrue result ↔ six_within (six_of filled) count }
{
    are_totals(filled.run, count) && are_states(filled.states)
}
