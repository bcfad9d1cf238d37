//! A board's answers to calls, as C has them, and the answer if a slot holds no seat.
ghost use Rattle.std.specs.Prelude.{◌≡◌};
ghost use Rattle.livevec_c.specs.Seats.{reduced_for, told_for, values_for};

use crate::results::{Edited, NO_HANDLE, Reduced, detail, edit_answer, not_edited, not_reduced};
use crate::values::{PlainValues, halves, no_values};
use lv_bodies::Shown;
use lv_machine::Said;

// The answer of a look or a refresh that was not refused.
fn told(edit: u32, place: u32, value: i64) -> Edited
    ensures { result ≡ record { refusal = 0; detail = 0; edit = edit; place = place; value = value } }
{
    Edited {
        refusal: 0,
        detail: 0,
        edit,
        place,
        value,
    }
}

/// The answer of an edit, a look or a refresh.
pub fn call_said(said: Option<Said<Shown>>) -> Edited
    ensures { result ≡ told_for said }
{
    match said {
        Some(Said::Did(receipt)) => edit_answer(Ok(receipt)),
        Some(Said::Read(read)) => told(read.edit, 0, read.value),
        Some(Said::Sized(sized)) => told(sized.edit, sized.size, 0),
        Some(Said::Refreshed(refreshed)) => told(refreshed.edit, refreshed.version, 0),
        Some(Said::Refused(refusal)) => edit_answer(Err(refusal)),
        _ => not_edited(NO_HANDLE, 0),
    }
}

/// The value of a kind among the plain values.
pub fn shown_values(any: bool, shown: Shown) -> PlainValues
    ensures { result ≡ values_for any shown }
{
    let mut values = no_values();
    values.any = any as u64;
    match shown {
        Shown::Sum(sum) => values.sum = sum,
        Shown::Least(least) => values.least = least.unwrap_or(0),
        Shown::Greatest(greatest) => values.greatest = greatest.unwrap_or(0),
        Shown::Best(best) => (values.best_low, values.best_high) = halves(best.unwrap_or(0)),
        Shown::Affine { a, b } => (values.affine_a, values.affine_b) = (a, b),
        Shown::Automaton(states) => values.automaton = states,
    }
    values
}

/// The answer of a reduction. The caller says whether its range has an element.
pub fn reduction_said(any: bool, said: Option<Said<Shown>>) -> Reduced
    ensures { result ≡ reduced_for any said }
{
    match said {
        Some(Said::Answered(answer)) => Reduced {
            refusal: 0,
            detail: 0,
            edit: answer.edit,
            cells: answer.cells_read,
            summaries: answer.summaries_read,
            values: shown_values(any, answer.value),
        },
        Some(Said::Refused(refusal)) => not_reduced(refusal.number(), detail(refusal)),
        _ => not_reduced(NO_HANDLE, 0),
    }
}
