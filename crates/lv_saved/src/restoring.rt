//! A series, or samples, of what was read.
ghost use Rattle.std.specs.Prelude.{◌≡◌, ℕ, List, true, false, IfOk, IfSome, IsErrOf};
ghost use Rattle.lv_saved.specs.Readings.{IsReading, IsWhole};
ghost use Rattle.lv_saved.specs.Saved.{bytes_of, saved_samples, saved_series};
ghost use Rattle.lv_series.specs.Plain.{no_kinds};

use crate::reading::Reading;
use crate::refusals::LoadRefusal;
use lv_series::{Samples, Series};
use std::alloc::Global;

// The series that was read; none if there is no memory.
fn restored(alloc: Global, reading: &Reading) -> Option<Series>
    requires { IsWhole false reading.now }
    ensures series { IfSome result (λ s. (bytes : List ℕ) → IsReading bytes false reading.now → bytes_of (saved_series s) ≡ bytes) }
    ensures kinds { IfSome result (λ s. s.kinds ≡ no_kinds) }
{
    let (automaton, first) = (reading.front.automaton, reading.front.first);
    let edits = reading.front.edits;
    Series::restored(alloc, automaton, first, edits, reading.elements.as_slice())
}

/// The series that was read, or why none was.
pub fn restore(alloc: Global, reading: Result<Reading, LoadRefusal>) -> Result<Series, LoadRefusal>
    requires { IfOk reading (IsWhole false) }
    ensures series { IfOk result (λ s. (bytes : List ℕ) → IfOk reading (IsReading bytes false) → bytes_of (saved_series s) ≡ bytes) }
    ensures kinds { IfOk result (λ s. s.kinds ≡ no_kinds) }
    ensures damaged { IsErrOf result LoadRefusal.Damaged → IsErrOf reading LoadRefusal.Damaged }
{
    match reading {
        Err(refusal) => Err(refusal),
        Ok(reading) => match restored(alloc, &reading) {
            None => Err(LoadRefusal::NoMemory),
            Some(series) => Ok(series),
        },
    }
}

// The samples that were read; none if there is no memory.
fn restored_samples(alloc: Global, reading: &Reading) -> Option<Samples>
    requires { IsWhole true reading.now }
    ensures samples { IfSome result (λ s. (bytes : List ℕ) → IsReading bytes true reading.now → bytes_of (saved_samples s) ≡ bytes) }
    ensures kinds { IfSome result (λ s. s.series.kinds ≡ no_kinds) }
{
    let front = reading.front;
    Samples::restored(
        alloc,
        front.automaton,
        front.first,
        front.edits,
        reading.elements.as_slice(),
        reading.times.as_slice(),
    )
}

/// The samples that were read, or why none were.
pub fn restore_samples(
    alloc: Global,
    reading: Result<Reading, LoadRefusal>,
) -> Result<Samples, LoadRefusal>
    requires { IfOk reading (IsWhole true) }
    ensures samples { IfOk result (λ s. (bytes : List ℕ) → IfOk reading (IsReading bytes true) → bytes_of (saved_samples s) ≡ bytes) }
    ensures kinds { IfOk result (λ s. s.series.kinds ≡ no_kinds) }
    ensures damaged { IsErrOf result LoadRefusal.Damaged → IsErrOf reading LoadRefusal.Damaged }
{
    match reading {
        Err(refusal) => Err(refusal),
        Ok(reading) => match restored_samples(alloc, &reading) {
            None => Err(LoadRefusal::NoMemory),
            Some(samples) => Ok(samples),
        },
    }
}
