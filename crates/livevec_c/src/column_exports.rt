//! The export that scans a vector, by one kind or by all six at once, into the column that fits.
ghost use Rattle.std.specs.Prelude.{◌≡◌, None, Some, length, if◌then◌else◌, ◌==◌};
ghost use Rattle.lv_bodies.specs.Plain.{plain_sum};
ghost use Rattle.lv_bodies.specs.declared.kinds.Kind.TheVariants as kinds;
ghost use Rattle.livevec_c.specs.Cells.{affine_cell, automaton_cell, best_cell, greatest_cell, least_cell, values_cell};
ghost use Rattle.livevec_c.specs.Columns.{filled_behind, scanned_by};

use crate::cells::{MapCell, StatesCell, TotalCell};
use crate::columns::{Scanned, not_scanned, scan_held};
use crate::results::BAD_KIND;
use crate::slots::Slot;
use crate::values::PlainValues;
use lv_bodies::{Affine, Automaton, Best, Greatest, Kind, Least, SixPairs, Sum};
use std::alloc::Global;

/// Puts the running values of a range into a column, each with the element at its end or without it. A number says by which kind, or that it is by
/// all six (6), and so into which column. The other columns stay as they are.
#[unsafe(no_mangle)]
pub extern "C" fn livevec_proved_scan(
    alloc: Global,
    slot: &mut Slot,
    by: u32,
    lo: u32,
    hi: u32,
    inclusive: bool,
    sums: &mut [u64],
    extremes: &mut [i64],
    totals: &mut [TotalCell],
    maps: &mut [MapCell],
    states: &mut [StatesCell],
    values: &mut [PlainValues],
) -> Scanned
    ensures answer { result ≡ scanned_by by lo hi (length sums.old) (length extremes.old) (length totals.old) (length maps.old) (length states.old) (length values.old) slot.old.raw.inner }
    ensures sums { sums.new ≡ (if by == 0 then filled_behind (Some kinds.Sum) (λ _. plain_sum) inclusive lo hi sums.old slot.old.raw.inner else sums.old) }
    ensures extremes { extremes.new ≡ (if by == 1 then filled_behind (Some kinds.Least) (λ _. least_cell) inclusive lo hi extremes.old slot.old.raw.inner
        else (if by == 2 then filled_behind (Some kinds.Greatest) (λ _. greatest_cell) inclusive lo hi extremes.old slot.old.raw.inner else extremes.old)) }
    ensures totals { totals.new ≡ (if by == 3 then filled_behind (Some kinds.Best) (λ _. best_cell) inclusive lo hi totals.old slot.old.raw.inner else totals.old) }
    ensures maps { maps.new ≡ (if by == 4 then filled_behind (Some kinds.Affine) (λ _. affine_cell) inclusive lo hi maps.old slot.old.raw.inner else maps.old) }
    ensures states { states.new ≡ (if by == 5 then filled_behind (Some kinds.Automaton) automaton_cell inclusive lo hi states.old slot.old.raw.inner else states.old) }
    ensures values { values.new ≡ (if by == 6 then filled_behind None values_cell inclusive lo hi values.old slot.old.raw.inner else values.old) }
    ensures same { slot.new.raw.inner ≡ slot.old.raw.inner }
{
    match by {
        0 => scan_held::<Sum>(alloc, slot, Some(Kind::Sum), lo, hi, inclusive, sums),
        1 => scan_held::<Least>(alloc, slot, Some(Kind::Least), lo, hi, inclusive, extremes),
        2 => scan_held::<Greatest>(
            alloc,
            slot,
            Some(Kind::Greatest),
            lo,
            hi,
            inclusive,
            extremes,
        ),
        3 => scan_held::<Best>(alloc, slot, Some(Kind::Best), lo, hi, inclusive, totals),
        4 => scan_held::<Affine>(alloc, slot, Some(Kind::Affine), lo, hi, inclusive, maps),
        5 => scan_held::<Automaton>(
            alloc,
            slot,
            Some(Kind::Automaton),
            lo,
            hi,
            inclusive,
            states,
        ),
        6 => scan_held::<SixPairs>(alloc, slot, None, lo, hi, inclusive, values),
        _ => not_scanned(BAD_KIND, 0),
    }
}
