//! Scans of a range, written into a column of the caller's: how one is laid, and when it is refused.
ghost use Rattle.std.specs.Prelude.{◌≡◌, ◌+◌, ◌-◌, ◌≤◌, ◌++◌, None, Some, drop, length, map, take};
ghost use Rattle.lv_edits.specs.History.{list_of};
ghost use Rattle.lv_edits.specs.Ranges.{slice_of};
ghost use Rattle.lv_reduce.specs.Answer.{scan_of};
ghost use Rattle.lv_reduce.specs.Running.{reached, scan_from};
ghost use Rattle.livevec_c.specs.Columns.{CanGoOnLong, filled, filled_asked, filled_behind, object_filled, object_scanned, scanned, scanned_asked, scanned_behind, unscanned};

use crate::cells::Celled;
use crate::objects::Object;
use crate::only::may_ask;
use crate::results::{BAD_KIND, NO_HANDLE, SHORT_BUFFER, detail};
use crate::slots::{Slot, put, take};
use lv_bodies::{Kind, SixByTable, long_laws};
use lv_edits::{Edits, refusal_of};
use lv_live::Live;
use lv_reduce::run_at;
use std::alloc::Global;

/// The answer of a scan.
#[repr(C)]
#[derive(Clone, Copy)]
pub struct Scanned {
    pub refusal: u32,
    pub detail: u32,
    pub edit: u32,
    pub length: u32,
}

/// The answer of a scan that was refused.
pub fn not_scanned(refusal: u32, detail: u32) -> Scanned
    ensures { result ≡ unscanned refusal detail }
{
    Scanned {
        refusal,
        detail,
        edit: 0,
        length: 0,
    }
}

/// Puts the cells of the scan of some elements into a column, from a place on. The scan starts from the summary of what comes before them. Returns
/// the summary that it ends with.
#[inline(always)]
pub fn lay_run<B: Celled>(
    body: &B,
    inclusive: bool,
    before: B::S,
    xs: &[i64],
    from: usize,
    column: &mut [B::Cell],
) -> B::S
    requires can { CanGoOnLong (B.is_within body.now) before (length xs.now) }
    requires room { from + length xs.now ≤ length column.old }
    ensures cells { take (from + length xs.now) column.new ≡ take from column.old ++ map B.cell_of (scan_from inclusive (B.operations body.now) before xs.now) }
    ensures len { length column.new ≡ length column.old }
    ensures sum { result ≡ reached (B.operations body.now) before xs.now }
{
    long_laws(body);
    let mut sum = before;
    for k in 0..xs.len() {
        let sum_before = sum;
        sum = body.extend_long(sum_before, xs[k]);
        column[from + k] = B::cell(if inclusive { sum } else { sum_before });
    }
    sum
}

// Puts the cells of one of the two scans of a range into a column that has exactly as many places. It goes by runs of elements that are next to
// each other in memory.
fn lay_range<B: Celled>(body: &B, inclusive: bool, history: &Edits, lo: u32, column: &mut [B::Cell])
    requires { lo + length column.old ≤ length (list_of history.now.journal) }
    ensures { column.new ≡ map B.cell_of (scan_of inclusive (B.operations body.now) (slice_of history.now.journal lo (lo + length column.old))) }
{
    // The elements are few enough for a fold.
    let _size = history.size();
    let hi = lo + column.len() as u32;
    let mut sum = body.identity();
    let mut cell = [0];
    let mut at = lo;
    while at < hi {
        let run = run_at(history, at, hi, &mut cell);
        sum = lay_run(body, inclusive, sum, run, (at - lo) as usize, column);
        at += run.len() as u32;
    }
}

// Puts the cells of a scan of a range at the start of a column that has at least as many places. The places after them keep what they have.
fn lay_front<B: Celled>(
    body: &B,
    inclusive: bool,
    history: &Edits,
    lo: u32,
    hi: u32,
    column: &mut [B::Cell],
)
    requires order { lo ≤ hi }
    requires inside { hi ≤ length (list_of history.now.journal) }
    requires room { hi - lo ≤ length column.old }
    ensures { column.new ≡ map B.cell_of (scan_of inclusive (B.operations body.now) (slice_of history.now.journal lo hi)) ++ drop (hi - lo) column.old }
{
    let many = (hi - lo) as usize;
    lay_range(body, inclusive, history, lo, &mut column[..many]);
}

// A scan of a vector.
fn scan_live<B: Celled>(
    live: &Live<SixByTable>,
    lo: u32,
    hi: u32,
    inclusive: bool,
    column: &mut [B::Cell],
) -> Scanned
    ensures answer { result ≡ scanned lo hi (length column.old) live.now }
    ensures column { column.new ≡ filled B.plain_cell inclusive lo hi column.old live.now }
{
    let history = live.view().cells;
    if let Some(refusal) = refusal_of(history, lo, hi) {
        return not_scanned(refusal.number(), detail(refusal));
    }
    let many = hi - lo;
    if column.len() < many as usize {
        return not_scanned(SHORT_BUFFER, many);
    }
    let body = B::by(live.body().automaton);
    lay_front(&body, inclusive, history, lo, hi, column);
    Scanned {
        refusal: 0,
        detail: 0,
        edit: history.edit(),
        length: many,
    }
}

// A scan of a vector, if the vector may be asked so.
fn scan_asked<B: Celled>(
    live: &Live<SixByTable>,
    may: bool,
    lo: u32,
    hi: u32,
    inclusive: bool,
    column: &mut [B::Cell],
) -> Scanned
    ensures answer { result ≡ scanned_asked may lo hi (length column.old) live.now }
    ensures column { column.new ≡ filled_asked may B.plain_cell inclusive lo hi column.old live.now }
{
    if !may {
        return not_scanned(BAD_KIND, 0);
    }
    scan_live::<B>(live, lo, hi, inclusive, column)
}

// A scan of an object by a kind, or by all six.
fn scan_object<B: Celled>(
    object: &Object,
    asked: Option<Kind>,
    lo: u32,
    hi: u32,
    inclusive: bool,
    column: &mut [B::Cell],
) -> Scanned
    ensures answer { result ≡ object_scanned asked lo hi (length column.old) object.now }
    ensures column { column.new ≡ object_filled asked B.plain_cell inclusive lo hi column.old object.now }
{
    match object {
        Object::Vector(vector, only) => {
            let may = may_ask(*only, asked);
            scan_asked::<B>(vector.live(), may, lo, hi, inclusive, column)
        }
        _ => not_scanned(NO_HANDLE, 0),
    }
}

/// A scan of the object in a slot, by a kind or by all six.
pub fn scan_held<B: Celled>(
    alloc: Global,
    slot: &mut Slot,
    asked: Option<Kind>,
    lo: u32,
    hi: u32,
    inclusive: bool,
    column: &mut [B::Cell],
) -> Scanned
    ensures answer { result ≡ scanned_behind asked lo hi (length column.old) slot.old.raw.inner }
    ensures column { column.new ≡ filled_behind asked B.plain_cell inclusive lo hi column.old slot.old.raw.inner }
    ensures same { slot.new.raw.inner ≡ slot.old.raw.inner }
{
    match take(alloc, slot) {
        None => not_scanned(NO_HANDLE, 0),
        Some(held) => {
            let answer = scan_object::<B>(&held, asked, lo, hi, inclusive, column);
            put(slot, held);
            answer
        }
    }
}
