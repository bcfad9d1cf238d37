//! The calls of a seat. None of them waits, so each thread may have a seat of its own in a slot of its own.
ghost use Rattle.std.specs.Prelude.{◌≡◌, nat_lt};
ghost use Rattle.lv_machine.specs.declared.events.Call.TheVariants as asked;
ghost use Rattle.lv_board.specs.Sharing.{Makes};
ghost use Rattle.livevec_c.specs.FlatEdits.{seat_call_at};
ghost use Rattle.livevec_c.specs.Kinds.{sat_at};
ghost use Rattle.livevec_c.specs.Seats.{Answers, Calls, CallsBy, CallsObject, reduced_for, told_for};

use crate::flat_edits::seat_call_of;
use crate::kind_seats::KindSeat;
use crate::objects::Object;
use crate::results::{Edited, Reduced};
use crate::said::{call_said, reduction_said};
use crate::slots::{Slot, put, take};
use lv_bodies::Shown;
use lv_machine::{Call, Said};
use std::alloc::Global;

// A call of a seat.
fn call_seat(seat: &mut KindSeat, call: Call, tries: u32) -> Said<Shown>
    ensures { Makes tries call (sat_at seat.old) result (sat_at seat.new) }
{
    match seat {
        KindSeat::Sum(seat) => seat.make(call, tries),
        KindSeat::Least(seat) => seat.make(call, tries),
        KindSeat::Greatest(seat) => seat.make(call, tries),
        KindSeat::Best(seat) => seat.make(call, tries),
        KindSeat::Affine(seat) => seat.make(call, tries),
        KindSeat::Automaton(seat) => seat.make(call, tries),
    }
}

// A call of an object.
fn call_of(object: &mut Object, call: Call, tries: u32) -> Option<Said<Shown>>
    ensures { CallsObject tries call result object.old object.new }
{
    match object {
        Object::Seat(seat) => Some(call_seat(seat, call, tries)),
        _ => None,
    }
}

// A call of the seat that a slot holds.
fn call_held(alloc: Global, slot: &mut Slot, call: Call, tries: u32) -> Option<Said<Shown>>
    ensures { Calls tries call result slot.old.raw.inner slot.new.raw.inner }
{
    match take(alloc, slot) {
        None => None,
        Some(mut held) => {
            let said = call_of(&mut held, call, tries);
            put(slot, held);
            said
        }
    }
}

/// Makes a call by its number, an edit by so many tries at most: an edit, a look at an element or at how many there are, or a refresh of a block.
#[unsafe(no_mangle)]
pub extern "C" fn livevec_proved_seat_call(
    alloc: Global,
    slot: &mut Slot,
    what: u32,
    index: u32,
    value: i64,
    tries: u32,
) -> Edited
    ensures { CallsBy tries (seat_call_at what index value) result slot.old.raw.inner slot.new.raw.inner }
{
    match seat_call_of(what, index, value) {
        None => call_said(None),
        Some(call) => call_said(call_held(alloc, slot, call, tries)),
    }
}

/// The plain value of a range by the board's kind, after the edits that the seat's look shows.
#[unsafe(no_mangle)]
pub extern "C" fn livevec_proved_seat_reduce(
    alloc: Global,
    slot: &mut Slot,
    lo: u32,
    hi: u32,
) -> Reduced
    ensures { Answers (reduced_for (nat_lt lo hi)) 1 (asked.Reduce lo hi) result slot.old.raw.inner slot.new.raw.inner }
{
    reduction_said(lo < hi, call_held(alloc, slot, Call::Reduce { lo, hi }, 1))
}
