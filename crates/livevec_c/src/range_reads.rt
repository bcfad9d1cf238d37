//! Reads of a range, of a vector or of a closed board: its elements are put into a buffer of the caller's.
ghost use Rattle.std.specs.Prelude.{◌≡◌, ◌+◌, ◌-◌, ◌≤◌, ◌++◌, drop, length, take};
ghost use Rattle.lv_edits.specs.History.{list_of};
ghost use Rattle.lv_edits.specs.Ranges.{slice_of};
ghost use Rattle.livevec_c.specs.RangeReads.{elements_put, elements_read, put_behind, range_of, range_put_of, read_behind};

use crate::columns::{Scanned, not_scanned};
use crate::ended::Ended;
use crate::objects::Object;
use crate::results::{NO_HANDLE, SHORT_BUFFER, detail};
use crate::series_pieces::lay_elements;
use crate::slots::{Slot, put, take};
use lv_bodies::SixByTable;
use lv_edits::{Edits, refusal_of};
use lv_live::Live;
use lv_reduce::run_at;
use std::alloc::Global;

// Puts elements into a buffer from a place on.
fn lay_at(elements: &[i64], from: usize, buffer: &mut [i64])
    requires { from + length elements.now ≤ length buffer.old }
    ensures elements { take (from + length elements.now) buffer.new ≡ take from buffer.old ++ elements.now }
    ensures len { length buffer.new ≡ length buffer.old }
{
    lay_elements(elements, &mut buffer[from..]);
}

// Puts the elements of a range into a buffer that has exactly as many places. It goes by runs of elements that are next to each other in memory.
fn lay_runs(history: &Edits, lo: u32, buffer: &mut [i64])
    requires { lo + length buffer.old ≤ length (list_of history.now.journal) }
    ensures { buffer.new ≡ slice_of history.now.journal lo (lo + length buffer.old) }
{
    // The elements are few enough for indices of 32 bits.
    let _size = history.size();
    let hi = lo + buffer.len() as u32;
    let mut cell = [0];
    let mut at = lo;
    while at < hi {
        let run = run_at(history, at, hi, &mut cell);
        lay_at(run, (at - lo) as usize, buffer);
        at += run.len() as u32;
    }
}

// Puts the elements of a range at the start of a buffer that has at least as many places. The places after them keep what they have.
fn lay_range(history: &Edits, lo: u32, hi: u32, buffer: &mut [i64])
    requires order { lo ≤ hi }
    requires inside { hi ≤ length (list_of history.now.journal) }
    requires room { hi - lo ≤ length buffer.old }
    ensures { buffer.new ≡ slice_of history.now.journal lo hi ++ drop (hi - lo) buffer.old }
{
    let many = (hi - lo) as usize;
    lay_runs(history, lo, &mut buffer[..many]);
}

// A read of a vector.
fn read_live(live: &Live<SixByTable>, lo: u32, hi: u32, buffer: &mut [i64]) -> Scanned
    ensures answer { result ≡ elements_read (list_of live.now.history.journal) (length live.now.history.journal) lo hi (length buffer.old) }
    ensures buffer { buffer.new ≡ elements_put (list_of live.now.history.journal) lo hi buffer.old }
{
    let history = live.view().cells;
    if let Some(refusal) = refusal_of(history, lo, hi) {
        return not_scanned(refusal.number(), detail(refusal));
    }
    let many = hi - lo;
    if buffer.len() < many as usize {
        return not_scanned(SHORT_BUFFER, many);
    }
    lay_range(history, lo, hi, buffer);
    Scanned {
        refusal: 0,
        detail: 0,
        edit: history.edit(),
        length: many,
    }
}

// A read of a closed board.
fn read_ended(ended: &Ended, lo: u32, hi: u32, buffer: &mut [i64]) -> Scanned
    ensures answer { result ≡ elements_read ended.now.closed.elements ended.now.closed.edit lo hi (length buffer.old) }
    ensures buffer { buffer.new ≡ elements_put ended.now.closed.elements lo hi buffer.old }
{
    if let Some(refusal) = ended.range_refusal(lo, hi) {
        return not_scanned(refusal.number(), detail(refusal));
    }
    let many = hi - lo;
    if buffer.len() < many as usize {
        return not_scanned(SHORT_BUFFER, many);
    }
    let elements = ended.closed.elements.as_slice();
    lay_elements(&elements[lo as usize..hi as usize], buffer);
    Scanned {
        refusal: 0,
        detail: 0,
        edit: ended.closed.edit,
        length: many,
    }
}

// A read of an object of this sort: of a vector, or of a closed board.
fn read_of(object: &Object, sort: u32, lo: u32, hi: u32, buffer: &mut [i64]) -> Scanned
    ensures answer { result ≡ range_of sort lo hi (length buffer.old) object.now }
    ensures buffer { buffer.new ≡ range_put_of sort lo hi buffer.old object.now }
{
    match object {
        Object::Vector(vector, _) => {
            if sort == 0 {
                read_live(vector.live(), lo, hi, buffer)
            } else {
                not_scanned(NO_HANDLE, 0)
            }
        }
        Object::Closed(ended) => {
            if sort == 4 {
                read_ended(ended, lo, hi, buffer)
            } else {
                not_scanned(NO_HANDLE, 0)
            }
        }
        _ => not_scanned(NO_HANDLE, 0),
    }
}

/// Puts the elements of a range of a vector or of a closed board, as the sort says, into a buffer, from its start on.
#[unsafe(no_mangle)]
pub extern "C" fn livevec_proved_read(
    alloc: Global,
    slot: &mut Slot,
    sort: u32,
    lo: u32,
    hi: u32,
    buffer: &mut [i64],
) -> Scanned
    ensures answer { result ≡ read_behind sort lo hi (length buffer.old) slot.old.raw.inner }
    ensures buffer { buffer.new ≡ put_behind sort lo hi buffer.old slot.old.raw.inner }
    ensures same { slot.new.raw.inner ≡ slot.old.raw.inner }
{
    match take(alloc, slot) {
        None => not_scanned(NO_HANDLE, 0),
        Some(held) => {
            let answer = read_of(&held, sort, lo, hi, buffer);
            put(slot, held);
            answer
        }
    }
}
