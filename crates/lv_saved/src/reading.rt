//! What bytes say, if they are those of a series or of samples.
ghost use Rattle.std.specs.Prelude.{◌≡◌, ◌↔◌, ◌+◌, ◌*◌, ◌^◌, ◌<◌, ◌≤◌, IfOk, IfSome, IsErrOf, IsTrue, is_some, if◌then◌else◌, length};
ghost use Rattle.lv_series.specs.Samples.{IsRising};
ghost use Rattle.lv_saved.specs.Fronts.{IsFrontOf};
ghost use Rattle.lv_saved.specs.Readings.{AreElementsAt, IsNoneSaved, IsReading, IsWhole};
ghost use Rattle.lv_saved.specs.Saved.{IsSaved, Saved, bytes_of};

use crate::among::HEAD;
use crate::exact::are_bytes_of;
use crate::fronts::{Front, front_among, make_head};
use crate::refusals::LoadRefusal;
use crate::rising::are_rising;
use lv_shards::number_at;
use std::alloc::Global;

/// How many numbers there are without elements, the checksum among them.
const LEAST_NUMBERS: u64 = 11;

/// What bytes say: what comes before the elements, the elements, and times if there are any.
#[derive(Drop)]
pub struct Reading {
    pub front: Front,
    pub elements: Vec<i64>,
    pub times: Vec<i64>,
}

// So many numbers from a place on, as elements.
fn elements_at(alloc: Global, bytes: &[u8], from: u64, count: u64) -> Option<Vec<i64>>
    requires inside { 8 * (from + count) ≤ length bytes.now }
    requires few { from + count ≤ 2 ^ 60 }
    ensures { IfSome result (λ v. AreElementsAt bytes.now from count v.items) }
{
    let Ok(mut elements) = Vec::with_capacity(alloc, count as usize) else {
        return None;
    };
    for k in 0..count {
        let number = number_at(bytes, (from + k) as usize);
        if elements.push(number.cast_signed()).is_err() {
            return None;
        }
    }
    Some(elements)
}

// A front, and the elements and times that come after it.
fn reading_behind(alloc: Global, bytes: &[u8], front: Front) -> Option<Reading>
    requires inside { 8 * (11 + front.elements + front.times) ≤ length bytes.now }
    requires few { 11 + front.elements + front.times ≤ 2 ^ 60 }
    ensures front { IfSome result (λ r. r.front ≡ front) }
    ensures elements { IfSome result (λ r. AreElementsAt bytes.now 10 r.front.elements r.elements.items) }
    ensures times { IfSome result (λ r. AreElementsAt bytes.now (10 + r.front.elements) r.front.times r.times.items) }
{
    match elements_at(alloc, bytes, HEAD as u64, front.elements) {
        None => None,
        Some(elements) => with_times(alloc, bytes, front, elements),
    }
}

// A front and elements, and the times that come after them.
fn with_times(alloc: Global, bytes: &[u8], front: Front, elements: Vec<i64>) -> Option<Reading>
    requires inside { 8 * (11 + front.elements + front.times) ≤ length bytes.now }
    requires few { 11 + front.elements + front.times ≤ 2 ^ 60 }
    ensures front { IfSome result (λ r. r.front ≡ front) }
    ensures elements { IfSome result (λ r. r.elements.items ≡ elements.items) }
    ensures times { IfSome result (λ r. AreElementsAt bytes.now (10 + r.front.elements) r.front.times r.times.items) }
{
    match elements_at(alloc, bytes, HEAD as u64 + front.elements, front.times) {
        None => None,
        Some(times) => Some(Reading {
            front,
            elements,
            times,
        }),
    }
}

// Whether bytes are exactly those of what was read from them.
fn is_exact(reading: &Reading, timed: bool, bytes: &[u8]) -> bool
    requires { length reading.now.elements.items + length reading.now.times.items ≤ 2 ^ 60 }
    ensures { IsTrue result ↔ IsReading bytes.now timed reading.now }
{
    let front = reading.front;
    let head = make_head(
        front.automaton,
        timed,
        front.first,
        front.edits,
        front.elements,
    );
    are_bytes_of(
        &head,
        reading.elements.as_slice(),
        reading.times.as_slice(),
        bytes,
    )
}

// Whether bytes are exactly those of what was read from them, and times do not fall.
fn is_sound(reading: &Reading, timed: bool, bytes: &[u8]) -> bool
    requires { length reading.now.elements.items + length reading.now.times.items ≤ 2 ^ 60 }
    ensures { IsTrue result ↔ IsReading bytes.now timed reading.now × IsRising reading.now.times.items }
{
    is_exact(reading, timed, bytes) && are_rising(reading.times.as_slice())
}

// What bytes say after their front, if they are exactly those of it.
fn read_behind(
    alloc: Global,
    bytes: &[u8],
    front: Front,
    timed: bool,
) -> Result<Reading, LoadRefusal>
    requires inside { 8 * (11 + front.elements + front.times) ≤ length bytes.now }
    requires few { 11 + front.elements + front.times ≤ 2 ^ 60 }
    requires times { front.times ≡ (if timed then front.elements else 0) }
    requires numbered { front.first + front.elements ≤ 2 ^ 62 }
    ensures exact { IfOk result (λ r. IsReading bytes.now timed r) }
    ensures whole { IfOk result (λ r. IsWhole timed r) }
    ensures damaged { IsErrOf result LoadRefusal.Damaged → (s : Saved) → IsSaved s → is_some s.times ≡ timed → IsFrontOf s front → bytes_of s ≡ bytes.now → ⊥ }
{
    let Some(reading) = reading_behind(alloc, bytes, front) else {
        return Err(LoadRefusal::NoMemory);
    };
    if is_sound(&reading, timed, bytes) {
        Ok(reading)
    } else {
        Err(LoadRefusal::Damaged)
    }
}

/// What bytes say, if they are exactly those of a series, or of samples if `timed` is true. O(n). Refused with `Damaged` if nothing that may be
/// saved has these bytes, and with `NoMemory`.
pub fn read(alloc: Global, bytes: &[u8], timed: bool) -> Result<Reading, LoadRefusal>
    requires { length bytes.now < 2 ^ 63 }
    ensures exact { IfOk result (λ r. IsReading bytes.now timed r) }
    ensures whole { IfOk result (λ r. IsWhole timed r) }
    ensures damaged { IsErrOf result LoadRefusal.Damaged → IsNoneSaved bytes.now timed }
{
    let numbers = bytes.len() as u64 / 8;
    if bytes.len() % 8 != 0 {
        return Err(LoadRefusal::Damaged);
    }
    if numbers < LEAST_NUMBERS {
        return Err(LoadRefusal::Damaged);
    }
    match front_among(bytes, numbers, timed) {
        None => Err(LoadRefusal::Damaged),
        Some(front) => read_behind(alloc, bytes, front, timed),
    }
}
