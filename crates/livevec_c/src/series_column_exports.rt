//! The export that scans a series, by one kind or by all six at once, into the column that fits.
ghost use Rattle.std.specs.Prelude.{◌≡◌, length, if◌then◌else◌, ◌==◌};
ghost use Rattle.lv_bodies.specs.Plain.{plain_sum};
ghost use Rattle.livevec_c.specs.Cells.{affine_cell, automaton_cell, best_cell, greatest_cell, least_cell, values_cell};
ghost use Rattle.livevec_c.specs.SeriesHeld.{series_behind};
ghost use Rattle.livevec_c.specs.SeriesPieces.{column_in, scanned_by};

use crate::cells::{MapCell, StatesCell, TotalCell};
use crate::series_columns::scan_held;
use crate::series_kinds::no_kind;
use crate::series_results::{SeriesScanned, not_scanned};
use crate::slots::Slot;
use crate::values::PlainValues;
use lv_bodies::{Affine, Automaton, Best, Greatest, Least, SixPairs, Sum};
use std::alloc::Global;

/// Puts the running values of a range into a column, from an index on, each with the element at its end or without it. A number says by which kind,
/// or that it is by all six (6), and so into which column. The other columns stay as they are.
#[unsafe(no_mangle)]
pub extern "C" fn livevec_proved_series_scan(
    alloc: Global,
    slot: &mut Slot,
    by: u32,
    lo: u64,
    at: u64,
    hi: u64,
    inclusive: bool,
    sums: &mut [u64],
    extremes: &mut [i64],
    totals: &mut [TotalCell],
    maps: &mut [MapCell],
    states: &mut [StatesCell],
    values: &mut [PlainValues],
) -> SeriesScanned
    ensures answer { result ≡ scanned_by by lo at hi (length sums.old) (length extremes.old) (length totals.old) (length maps.old) (length states.old) (length values.old) (series_behind slot.old.raw.inner) }
    ensures sums { sums.new ≡ (if by == 0 then column_in (λ _. plain_sum) inclusive lo at hi sums.old (series_behind slot.old.raw.inner) else sums.old) }
    ensures extremes { extremes.new ≡ (if by == 1 then column_in (λ _. least_cell) inclusive lo at hi extremes.old (series_behind slot.old.raw.inner)
        else (if by == 2 then column_in (λ _. greatest_cell) inclusive lo at hi extremes.old (series_behind slot.old.raw.inner) else extremes.old)) }
    ensures totals { totals.new ≡ (if by == 3 then column_in (λ _. best_cell) inclusive lo at hi totals.old (series_behind slot.old.raw.inner) else totals.old) }
    ensures maps { maps.new ≡ (if by == 4 then column_in (λ _. affine_cell) inclusive lo at hi maps.old (series_behind slot.old.raw.inner) else maps.old) }
    ensures states { states.new ≡ (if by == 5 then column_in automaton_cell inclusive lo at hi states.old (series_behind slot.old.raw.inner) else states.old) }
    ensures values { values.new ≡ (if by == 6 then column_in values_cell inclusive lo at hi values.old (series_behind slot.old.raw.inner) else values.old) }
    ensures same { slot.new.raw.inner ≡ slot.old.raw.inner }
{
    match by {
        0 => scan_held::<Sum>(alloc, slot, lo, at, hi, inclusive, sums),
        1 => scan_held::<Least>(alloc, slot, lo, at, hi, inclusive, extremes),
        2 => scan_held::<Greatest>(alloc, slot, lo, at, hi, inclusive, extremes),
        3 => scan_held::<Best>(alloc, slot, lo, at, hi, inclusive, totals),
        4 => scan_held::<Affine>(alloc, slot, lo, at, hi, inclusive, maps),
        5 => scan_held::<Automaton>(alloc, slot, lo, at, hi, inclusive, states),
        6 => scan_held::<SixPairs>(alloc, slot, lo, at, hi, inclusive, values),
        _ => not_scanned(no_kind()),
    }
}
