//! Elements of a series, lent to C without a copy.
ghost use Rattle.std.specs.Prelude.{◌≡◌, ◌-◌};
ghost use Rattle.std.specs.Borrow.{sem};
ghost use Rattle.livevec_c.specs.Kept.{Keeps};
ghost use Rattle.livevec_c.specs.SeriesHeld.{series_behind, series_in};
ghost use Rattle.livevec_c.specs.SeriesLent.{lent_in, lent_of};
ghost use Rattle.livevec_c.specs.SeriesPieces.{elements_read, read_in};

use crate::objects::Object;
use crate::series_held::series_of;
use crate::series_pieces::piece_answer;
use crate::series_results::{SeriesScanned, not_held, not_scanned, refusal_answer};
use crate::slots::lent::shared;
use crate::slots::{Slot, is_full};
use lv_series::Series;

/// Elements that are lent.
#[repr(C)]
#[derive(Drop)]
pub struct Lent<'a> {
    pub elements: &'a [i64],
}

// Lends elements of a series.
fn lend_series<'a>(series: &'a Series, lo: u64, hi: u64, lent: &mut Lent<'a>) -> SeriesScanned
    ensures answer { result ≡ elements_read lo hi (hi - lo) series.now }
    ensures lent { lent.new.elements.now ≡ lent_of lo hi lent.old.elements.now series.now }
{
    match series.elements(lo, hi) {
        Err(refusal) => not_scanned(refusal_answer(refusal)),
        Ok(elements) => {
            lent.elements = elements;
            piece_answer(series, elements.len())
        }
    }
}

// Lends elements of an object, if it has a series.
fn lend_of<'a>(object: &'a Object, lo: u64, hi: u64, lent: &mut Lent<'a>) -> SeriesScanned
    ensures answer { result ≡ read_in lo hi (hi - lo) (series_in object.now) }
    ensures lent { lent.new.elements.now ≡ lent_in lo hi lent.old.elements.now (series_in object.now) }
{
    match series_of(object) {
        Some(series) => lend_series(series, lo, hi, lent),
        None => not_scanned(not_held()),
    }
}

// The answer of a loan. It names the loan's lifetime, so that a clause may say what the slot ends as.
struct Loan<'a> {
    answer: SeriesScanned,
    of: [&'a i64; 0],
}

// Lends elements of the object in a slot.
fn lend_behind<'a>(slot: &'a mut Slot, lo: u64, hi: u64, lent: &mut Lent<'a>) -> Loan<'a>
    ensures* kept { sem 𝓛 (Keeps slot.entry) }
    ensures answer { result.answer ≡ read_in lo hi (hi - lo) (series_behind slot.old.raw.inner) }
    ensures lent { lent.new.elements.now ≡ lent_in lo hi lent.old.elements.now (series_behind slot.old.raw.inner) }
{
    if is_full(slot) {
        let answer = lend_of(shared(slot), lo, hi, lent);
        Loan { answer, of: [] }
    } else {
        Loan {
            answer: not_scanned(not_held()),
            of: [],
        }
    }
}

/// Lends the elements of a range, which are neither copied nor changed.
#[unsafe(no_mangle)]
pub extern "C" fn livevec_proved_series_lend<'a>(
    slot: &'a mut Slot,
    lo: u64,
    hi: u64,
    lent: &mut Lent<'a>,
) -> SeriesScanned
    ensures* kept { sem 𝓛 (Keeps slot.entry) }
    ensures answer { result ≡ read_in lo hi (hi - lo) (series_behind slot.old.raw.inner) }
    ensures lent { lent.new.elements.now ≡ lent_in lo hi lent.old.elements.now (series_behind slot.old.raw.inner) }
{
    let Loan { answer, of: _ } = lend_behind(slot, lo, hi, lent);
    answer
}
