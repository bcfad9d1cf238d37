//! A series, or samples, made of what was saved of them.
ghost use Rattle.std.specs.Prelude.{◌≡◌, ◌+◌, ◌^◌, ◌<◌, ◌≤◌, IfSome, All, drop, length};
ghost use Rattle.lv_geometry.specs.Elements.{IsElement};
ghost use Rattle.lv_bodies.specs.Automata.{table_of};
ghost use Rattle.lv_series.specs.Plain.{no_kinds};
ghost use Rattle.lv_series.specs.Samples.{IsRising};

use crate::samples::Samples;
use crate::series::Series;
use crate::trees::Trees;
use crate::windows::MOST;
use lv_bodies::Automaton;
use std::alloc::Global;

impl Series {
    /// The series that has these elements, the first of them under the index `first`, after so many edits. No kind has a tree. O(n). None if
    /// there is no memory.
    pub fn restored(
        alloc: Global,
        automaton: Automaton,
        first: u64,
        edits: u64,
        elements: &[i64],
    ) -> Option<Series>
        requires { first + length elements.now ≤ 2 ^ 62 }
        ensures { IfSome result (λ s. s ≡ record { table = table_of automaton; kinds = no_kinds; held = record { first = first; elements = elements.now }; edits = edits }) }
    {
        match in_memory(alloc, (first % 8) as usize, elements) {
            None => None,
            Some(elements) => Some(Series {
                base: first / 8,
                first,
                edits,
                elements,
                trees: Trees::new(alloc, automaton),
            }),
        }
    }
}

impl Samples {
    /// The samples that have these values and times, the first of them under the index `first`, after so many edits. No kind has a tree. O(n).
    /// None if there is no memory.
    pub fn restored(
        alloc: Global,
        automaton: Automaton,
        first: u64,
        edits: u64,
        elements: &[i64],
        times: &[i64],
    ) -> Option<Samples>
        requires paired { length times.now ≡ length elements.now }
        requires rising { IsRising times.now }
        requires numbered { first + length elements.now ≤ 2 ^ 62 }
        ensures { IfSome result (λ s. s ≡ record { series = record { table = table_of automaton; kinds = no_kinds; held = record { first = first; elements = elements.now }; edits = edits }; times = times.now }) }
    {
        match Series::restored(alloc, automaton, first, edits, elements) {
            None => None,
            Some(series) => with_times(alloc, series, times),
        }
    }
}

// The samples whose values are these, with times.
fn with_times(alloc: Global, series: Series, times: &[i64]) -> Option<Samples>
    requires paired { length times.now ≡ length series.held.elements }
    requires rising { IsRising times.now }
    ensures { IfSome result (λ s. s ≡ record { series = series; times = times.now }) }
{
    match in_memory(alloc, 0, times) {
        None => None,
        Some(times) => Some(Samples {
            series,
            times,
            gone: 0,
        }),
    }
}

// Elements as they are in memory: behind those of their block that are not kept, which are zeros here.
fn in_memory(alloc: Global, gone: usize, elements: &[i64]) -> Option<Vec<i64>>
    requires { gone < 8 }
    ensures kept { IfSome result (λ held. drop gone held.items ≡ elements.now) }
    ensures many { IfSome result (λ held. length held.items ≡ gone + length elements.now) }
    ensures few { IfSome result (λ held. length held.items ≤ 2 ^ 59) }
    ensures all { IfSome result (λ held. All IsElement held.items) }
{
    if elements.len() > MOST - 8 {
        return None;
    }
    let Ok(mut held) = Vec::with_capacity(alloc, gone + elements.len()) else {
        return None;
    };
    let zeros = [0; 8];
    if held.extend_from_slice(&zeros[..gone]).is_ok() && held.extend_from_slice(elements).is_ok() {
        tell_elements(held.as_slice());
        return Some(held);
    }
    None
}

/// Proves to the checker that each element has 64 bits. The loop computes nothing, so that no code is left of it.
pub fn tell_elements(xs: &[i64])
    ensures { All IsElement xs.now }
{
    for x in xs {
        let _element = *x;
    }
}
