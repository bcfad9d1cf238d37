//! The answers of the calls, in the layouts of the header, and what makes them.
ghost use Rattle.std.specs.Prelude.{◌≡◌, pos};
ghost use Rattle.livevec_c.specs.Answers.{detail_of, edited_by, element_by, reduced_by, unreduced};

use crate::values::{PlainValues, no_values, plain_values};
use lv_bodies::SixSummary;
use lv_edits::Receipt;
use lv_geometry::Refusal;
use lv_reduce::Answer;

/// The number for out of memory, as the library has it.
pub const NO_MEMORY: u32 = 6;

/// The number for limits outside their ranges, as the library has it.
pub const BAD_LIMITS: u32 = 8;

/// The number for an automaton's table with an entry above 7, as the library has it.
pub const BAD_TABLE: u32 = 9;

/// The number for a time before that of the last sample, as the library has it.
pub const EARLIER: u32 = 21;

/// The number for a slot that should be full and is empty.
pub const NO_HANDLE: u32 = 101;

/// The number for a column that is shorter than its range.
pub const SHORT_BUFFER: u32 = 103;

/// The number for a slot that should be empty and is full.
pub const IN_USE: u32 = 104;

/// The number for a board that has no seat left.
pub const NO_SEAT: u32 = 105;

/// The number for a board that is closed while a seat isn't there.
pub const SEATS_OUT: u32 = 106;

/// The number for a kind that there isn't.
pub const BAD_KIND: u32 = 113;

/// The number for a seat that is given back to another board than its own.
pub const OTHER_BOARD: u32 = 107;

/// The answer of an edit.
#[repr(C)]
#[derive(Clone, Copy)]
pub struct Edited {
    pub refusal: u32,
    pub detail: u32,
    pub edit: u32,
    pub place: u32,
    pub value: i64,
}

/// Why an edit would be refused: zeros if it would be accepted.
#[repr(C)]
#[derive(Clone, Copy)]
pub struct Verdict {
    pub refusal: u32,
    pub detail: u32,
}

/// A count.
#[repr(C)]
#[derive(Clone, Copy)]
pub struct Count {
    pub refusal: u32,
    pub value: u32,
}

/// An element.
#[repr(C)]
#[derive(Clone, Copy)]
pub struct Element {
    pub refusal: u32,
    pub detail: u32,
    pub value: i64,
}

/// What became of the outcomes of a batch.
#[repr(C)]
#[derive(Clone, Copy)]
pub struct Taken {
    pub refusal: u32,
    pub installed: u64,
    pub held: u64,
    pub stale: u64,
    pub strangers: u64,
}

/// The answer of a reduction.
#[repr(C)]
#[derive(Clone, Copy)]
pub struct Reduced {
    pub refusal: u32,
    pub detail: u32,
    pub edit: u32,
    pub cells: u32,
    pub summaries: u32,
    pub values: PlainValues,
}

/// What a refusal says besides its number: the size, the limit, or the edit that came first.
pub fn detail(refusal: Refusal) -> u32
    ensures { result ≡ detail_of refusal }
{
    match refusal {
        Refusal::OutOfRange { size } => size,
        Refusal::TooLarge { limit } => limit,
        Refusal::Contended { edit } | Refusal::Overtaken { edit } => edit,
        _ => 0,
    }
}

/// The answer of an edit that was not accepted.
pub fn not_edited(refusal: u32, detail: u32) -> Edited
    ensures { result ≡ record { refusal = refusal; detail = detail; edit = 0; place = 0; value = pos 0 } }
{
    Edited {
        refusal,
        detail,
        edit: 0,
        place: 0,
        value: 0,
    }
}

/// What an edit answers for C.
// Inlined: if the edit is known, its receipt's variant is known too.
#[inline(always)]
pub fn edit_answer(answer: Result<Receipt, Refusal>) -> Edited
    ensures { result ≡ edited_by answer }
{
    let (edit, place, value) = match answer {
        Err(refusal) => return not_edited(refusal.number(), detail(refusal)),
        Ok(Receipt::Pushed { edit, index }) => (edit, index, 0),
        Ok(Receipt::Popped { edit, value }) => (edit, 0, value),
        Ok(Receipt::Written { edit, before }) => (edit, 0, before),
        Ok(Receipt::Reserved { edit, capacity }) => (edit, capacity, 0),
        Ok(Receipt::Swapped { edit, first, .. }) => (edit, 0, first),
        Ok(Receipt::Truncated { edit, dropped }) => (edit, dropped, 0),
    };
    Edited {
        refusal: 0,
        detail: 0,
        edit,
        place,
        value,
    }
}

/// The answer of a copy that was refused, or that copied nothing.
pub fn not_copied(refusal: u32) -> Count
    ensures { result ≡ record { refusal = refusal; value = 0 } }
{
    Count { refusal, value: 0 }
}

/// The element at an index, for C.
pub fn element_answer(answer: Result<i64, Refusal>) -> Element
    ensures { result ≡ element_by answer }
{
    match answer {
        Ok(value) => Element {
            refusal: 0,
            detail: 0,
            value,
        },
        Err(refusal) => Element {
            refusal: refusal.number(),
            detail: detail(refusal),
            value: 0,
        },
    }
}

/// The answer of a reduction that was refused.
pub fn not_reduced(refusal: u32, detail: u32) -> Reduced
    ensures { result ≡ unreduced refusal detail }
{
    Reduced {
        refusal,
        detail,
        edit: 0,
        cells: 0,
        summaries: 0,
        values: no_values(),
    }
}

/// The answer of a reduction, for C.
pub fn reduction_answer(answer: Result<Answer<SixSummary>, Refusal>) -> Reduced
    ensures { result ≡ reduced_by answer }
{
    match answer {
        Err(refusal) => not_reduced(refusal.number(), detail(refusal)),
        Ok(answer) => Reduced {
            refusal: 0,
            detail: 0,
            edit: answer.edit,
            cells: answer.cells_read,
            summaries: answer.summaries_read,
            values: plain_values(answer.value),
        },
    }
}
