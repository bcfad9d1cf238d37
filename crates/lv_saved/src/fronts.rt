//! What comes before the elements, as it is written and as it is read.
ghost use Rattle.std.specs.Prelude.{◌≡◌, ◌↔◌, ◌+◌, ◌*◌, ◌^◌, ◌≤◌, IfSome, IsTrue, is_some, length, if◌then◌else◌};
ghost use Rattle.lv_bodies.specs.Automata.{table_of};
ghost use Rattle.lv_saved.specs.Fronts.{IsSomeFront};
ghost use Rattle.lv_saved.specs.Saved.{IsSaved, Saved, bytes_of, head_by};

use crate::among::Head;
use lv_bodies::Automaton;
use lv_shards::{automaton_by, leads_by, leads_by_numbers, number_at};

/// The first number: the bytes of `livevec:`.
const FIRST_NUMBER: u64 = 4_207_318_036_076_980_588;

/// The version of the layout.
const VERSION: u64 = 1;

/// The most elements that bytes can have.
const MOST_ELEMENTS: u64 = 1 << 60;

/// The greatest index that may come after the last element.
const MOST: u64 = 1 << 62;

/// What comes before the elements, except for what is always the same.
#[derive(Clone, Copy)]
pub struct Front {
    pub automaton: Automaton,
    pub first: u64,
    pub edits: u64,
    pub elements: u64,
    pub times: u64,
}

/// The numbers before the elements; `timed` says whether they are those of samples.
pub fn make_head(automaton: Automaton, timed: bool, first: u64, edits: u64, elements: u64) -> Head
    ensures { result ≡ head_by (table_of automaton) (if timed then 2 else 1) first edits elements }
{
    let [zero, one, two, three] = leads_by(automaton);
    [
        FIRST_NUMBER,
        VERSION,
        if timed { 2 } else { 1 },
        first,
        edits,
        elements,
        u64::from_le_bytes(zero),
        u64::from_le_bytes(one),
        u64::from_le_bytes(two),
        u64::from_le_bytes(three),
    ]
}

// How many times there are.
fn times_by(timed: bool, elements: u64) -> u64
    ensures { result ≡ (if timed then elements else 0) }
{
    if timed { elements } else { 0 }
}

// Whether there can be bytes of so many numbers with this first index, and so many elements and times.
fn is_possible(first: u64, elements: u64, times: u64, numbers: u64) -> bool
    requires most { numbers ≤ 2 ^ 60 }
    requires times { times ≤ elements }
    ensures { IsTrue result ↔ (11 + elements + times ≡ numbers) × (first + elements ≤ 2 ^ 62) }
{
    elements <= MOST_ELEMENTS && 11 + elements + times == numbers && first <= MOST - elements
}

/// The front in the bytes of so many numbers, including the checksum. There is none only if nothing that may be saved has these bytes.
pub fn front_among(bytes: &[u8], numbers: u64, timed: bool) -> Option<Front>
    requires whole { length bytes.now ≡ 8 * numbers }
    requires least { 11 ≤ numbers }
    requires most { numbers ≤ 2 ^ 60 }
    ensures counts { IfSome result (λ f. 11 + f.elements + f.times ≡ numbers) }
    ensures times { IfSome result (λ f. f.times ≡ (if timed then f.elements else 0)) }
    ensures numbered { IfSome result (λ f. f.first + f.elements ≤ 2 ^ 62) }
    ensures found { (s : Saved) → IsSaved s → is_some s.times ≡ timed → bytes.now ≡ bytes_of s → IsSomeFront result s }
{
    let (first, edits, elements) = (
        number_at(bytes, 3),
        number_at(bytes, 4),
        number_at(bytes, 5),
    );
    let times = times_by(timed, elements);
    if !is_possible(first, elements, times, numbers) {
        return None;
    }
    let (zero, one) = (number_at(bytes, 6), number_at(bytes, 7));
    let (two, three) = (number_at(bytes, 8), number_at(bytes, 9));
    match leads_by_numbers(zero, one, two, three) {
        None => None,
        Some(leads) => Some(Front {
            automaton: automaton_by(&leads),
            first,
            edits,
            elements,
            times,
        }),
    }
}
