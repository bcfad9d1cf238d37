//! The answers of the calls at a series, in the layouts of the header, and what makes them.
ghost use Rattle.std.specs.Prelude.{◌≡◌};
ghost use Rattle.livevec_c.specs.SeriesAnswers.{granted, long_edited, long_element, refused_by, sample_edited, unedited_by, unelement, unheld, unnamed, unreduced_by, unscanned_by};

use crate::results::{EARLIER, NO_HANDLE};
use crate::values::{PlainValues, no_values};
use lv_series::{LongReceipt, LongRefusal, SampleRefusal};

/// Why a call at a series was refused, or 0 if it was not. For an index that isn't kept it says which are: from `first` up to `size`.
#[repr(C)]
#[derive(Clone, Copy)]
pub struct Refused {
    pub refusal: u32,
    pub first: u64,
    pub size: u64,
}

/// The answer of an edit of a series.
#[repr(C)]
#[derive(Clone, Copy)]
pub struct SeriesEdited {
    pub why: Refused,
    pub edit: u64,
    pub place: u64,
    pub value: i64,
}

/// An element of a series, or of samples with its time; both are 0 if the call was refused.
#[repr(C)]
#[derive(Clone, Copy)]
pub struct SampleElement {
    pub why: Refused,
    pub time: i64,
    pub value: i64,
}

/// The answer of a reduction of a series.
#[repr(C)]
#[derive(Clone, Copy)]
pub struct SeriesReduced {
    pub why: Refused,
    pub edit: u64,
    pub values: PlainValues,
}

/// The answer of many edits at a series.
#[repr(C)]
#[derive(Clone, Copy)]
pub struct SeriesMany {
    pub why: Refused,
    pub edit: u64,
    pub done: usize,
    pub place: usize,
}

/// The answer of a read or a scan that put a piece of a range into a buffer.
#[repr(C)]
#[derive(Clone, Copy)]
pub struct SeriesScanned {
    pub why: Refused,
    pub edit: u64,
    pub length: u64,
}

/// The answer for why, of a call that was not refused.
pub fn not_refused() -> Refused
    ensures { result ≡ granted }
{
    Refused {
        refusal: 0,
        first: 0,
        size: 0,
    }
}

/// The answer for why, of a call at a slot that holds no series.
pub fn not_held() -> Refused
    ensures { result ≡ unheld }
{
    Refused {
        refusal: NO_HANDLE,
        first: 0,
        size: 0,
    }
}

/// The answer for why, of a call that asks for a query that isn't there.
pub fn unnamed(refusal: u32) -> Refused
    ensures { result ≡ unnamed refusal }
{
    Refused {
        refusal,
        first: 0,
        size: 0,
    }
}

/// Why the library refused a call.
pub fn refusal_answer(refusal: LongRefusal) -> Refused
    ensures { result ≡ refused_by refusal }
{
    let number = refusal.number();
    match refusal {
        LongRefusal::OutOfRange { first, size } => Refused {
            refusal: number,
            first,
            size,
        },
        _ => Refused {
            refusal: number,
            first: 0,
            size: 0,
        },
    }
}

/// The answer of an edit that was refused.
pub fn not_edited(why: Refused) -> SeriesEdited
    ensures { result ≡ unedited_by why }
{
    SeriesEdited {
        why,
        edit: 0,
        place: 0,
        value: 0,
    }
}

/// The answer of an edit, for C.
pub fn edit_answer(answer: Result<LongReceipt, LongRefusal>) -> SeriesEdited
    ensures { result ≡ long_edited answer }
{
    let (edit, place, value) = match answer {
        Err(refusal) => return not_edited(refusal_answer(refusal)),
        Ok(LongReceipt::Pushed { edit, index }) => (edit, index, 0),
        Ok(LongReceipt::Popped { edit, value }) => (edit, 0, value),
        Ok(LongReceipt::Written { edit, before }) => (edit, 0, before),
        Ok(LongReceipt::Expired { edit, dropped }) => (edit, dropped, 0),
        Ok(LongReceipt::Swapped { edit, first, .. }) => (edit, 0, first),
        Ok(LongReceipt::Truncated { edit, dropped }) => (edit, dropped, 0),
    };
    SeriesEdited {
        why: not_refused(),
        edit,
        place,
        value,
    }
}

/// The answer of an edit of samples for C. If its time was earlier than that of the last sample, the answer has the latter.
pub fn sample_answer(answer: Result<LongReceipt, SampleRefusal>) -> SeriesEdited
    ensures { result ≡ sample_edited answer }
{
    match answer {
        Ok(receipt) => edit_answer(Ok(receipt)),
        Err(SampleRefusal::Refused(refusal)) => not_edited(refusal_answer(refusal)),
        Err(SampleRefusal::Earlier { newest }) => SeriesEdited {
            why: Refused {
                refusal: EARLIER,
                first: 0,
                size: 0,
            },
            edit: 0,
            place: 0,
            value: newest,
        },
    }
}

/// The answer to a query for an element that was refused.
pub fn no_element(why: Refused) -> SampleElement
    ensures { result ≡ unelement why }
{
    SampleElement {
        why,
        time: 0,
        value: 0,
    }
}

/// The element under an index, for C.
pub fn element_answer(answer: Result<i64, LongRefusal>) -> SampleElement
    ensures { result ≡ long_element answer }
{
    match answer {
        Ok(value) => SampleElement {
            why: not_refused(),
            time: 0,
            value,
        },
        Err(refusal) => no_element(refusal_answer(refusal)),
    }
}

/// The answer of a reduction that was refused.
pub fn not_reduced(why: Refused) -> SeriesReduced
    ensures { result ≡ unreduced_by why }
{
    SeriesReduced {
        why,
        edit: 0,
        values: no_values(),
    }
}

/// The answer of a read or a scan that was refused.
pub fn not_scanned(why: Refused) -> SeriesScanned
    ensures { result ≡ unscanned_by why }
{
    SeriesScanned {
        why,
        edit: 0,
        length: 0,
    }
}
