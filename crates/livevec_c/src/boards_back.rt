//! Boards that threads share: how a seat is given back.
ghost use Rattle.std.specs.Prelude.{◌≡◌, ◌≢◌, Some, None, IfErr, OnOk};
ghost use Rattle.lv_board.specs.Sharing.{IsBack};
ghost use Rattle.livevec_c.specs.Kinds.{HasOwnStamp, sat_at, shared_at};
ghost use Rattle.livevec_c.specs.Lives.{OwnStamp, OwnStampAt, OwnStampBy, OwnStampFrom, TakesBack, TakesBackBy, TakesBackFrom, TakesBackObject};

use crate::jobs::refilled;
use crate::kind_boards::KindBoard;
use crate::kind_seats::KindSeat;
use crate::objects::{Object, nothing};
use crate::results::{NO_HANDLE, OTHER_BOARD};
use crate::slots::{Slot, put, take};
use std::alloc::Global;
use std::mem;

// Takes a seat back at its board.
fn take_at(board: &mut KindBoard, seat: KindSeat) -> Result<(), KindSeat>
    requires own { HasOwnStamp board.old seat }
    ensures ok { OnOk result (IsBack (shared_at board.old) (sat_at seat) (shared_at board.new)) }
    ensures err { IfErr result (λ same. (sat_at same ≡ sat_at seat) × ((sat_at seat).stamp ≢ (shared_at board.old).stamp) × (shared_at board.new ≡ shared_at board.old)) }
{
    match seat {
        KindSeat::Sum(seat) => match board {
            KindBoard::Sum(board) => match board.take_back(seat) {
                Ok(()) => Ok(()),
                Err(seat) => Err(KindSeat::Sum(seat)),
            },
            _ => Err(KindSeat::Sum(seat)),
        },
        KindSeat::Least(seat) => match board {
            KindBoard::Least(board) => match board.take_back(seat) {
                Ok(()) => Ok(()),
                Err(seat) => Err(KindSeat::Least(seat)),
            },
            _ => Err(KindSeat::Least(seat)),
        },
        KindSeat::Greatest(seat) => match board {
            KindBoard::Greatest(board) => match board.take_back(seat) {
                Ok(()) => Ok(()),
                Err(seat) => Err(KindSeat::Greatest(seat)),
            },
            _ => Err(KindSeat::Greatest(seat)),
        },
        KindSeat::Best(seat) => match board {
            KindBoard::Best(board) => match board.take_back(seat) {
                Ok(()) => Ok(()),
                Err(seat) => Err(KindSeat::Best(seat)),
            },
            _ => Err(KindSeat::Best(seat)),
        },
        KindSeat::Affine(seat) => match board {
            KindBoard::Affine(board) => match board.take_back(seat) {
                Ok(()) => Ok(()),
                Err(seat) => Err(KindSeat::Affine(seat)),
            },
            _ => Err(KindSeat::Affine(seat)),
        },
        KindSeat::Automaton(seat) => match board {
            KindBoard::Automaton(board) => match board.take_back(seat) {
                Ok(()) => Ok(()),
                Err(seat) => Err(KindSeat::Automaton(seat)),
            },
            _ => Err(KindSeat::Automaton(seat)),
        },
    }
}

// Takes back the object that was taken out of the seat's slot, if it is a seat of this board. Else it is put into the slot again.
fn take_back_held(
    alloc: Global,
    board: &mut KindBoard,
    seat: &mut Slot,
    mut held: Box<Object>,
) -> u32
    requires empty { seat.old.raw.inner ≡ None }
    requires own { OwnStampAt board.old held.value }
    ensures { TakesBackObject result board.old held.value board.new seat.new.raw.inner }
{
    match mem::replace(&mut *held, nothing(alloc)) {
        Object::Seat(given) => match take_at(board, given) {
            Ok(()) => {
                drop(held);
                0
            }
            Err(same) => {
                put(seat, refilled(held, Object::Seat(same)));
                OTHER_BOARD
            }
        },
        other => {
            put(seat, refilled(held, other));
            NO_HANDLE
        }
    }
}

// Takes back the object that was taken out of the seat's slot, if the other object is a board that it is a seat of.
fn take_back_by(alloc: Global, object: &mut Object, seat: &mut Slot, held: Box<Object>) -> u32
    requires empty { seat.old.raw.inner ≡ None }
    requires own { OwnStampBy object.old held.value }
    ensures { TakesBackBy result object.old held.value object.new seat.new.raw.inner }
{
    match object {
        Object::Board(board) => take_back_held(alloc, board, seat, held),
        _ => {
            put(seat, held);
            NO_HANDLE
        }
    }
}

// Takes back the object that was taken out of the seat's slot, if the board's slot holds a board that it is a seat of.
fn take_back_from(alloc: Global, board: &mut Slot, seat: &mut Slot, held: Box<Object>) -> u32
    requires empty { seat.old.raw.inner ≡ None }
    requires own { OwnStampFrom board.old.raw.inner held.value }
    ensures { TakesBackFrom result board.old.raw.inner held.value board.new.raw.inner seat.new.raw.inner }
{
    match take(alloc, board) {
        None => {
            put(seat, held);
            NO_HANDLE
        }
        Some(mut kept) => {
            let answer = take_back_by(alloc, &mut kept, seat, held);
            put(board, kept);
            answer
        }
    }
}

/// Takes a seat back at its board, and empties the seat's slot. A seat of a board of another stamp stays in its slot.
#[unsafe(no_mangle)]
pub extern "C" fn livevec_proved_board_take_back(
    alloc: Global,
    board: &mut Slot,
    seat: &mut Slot,
) -> u32
    requires { OwnStamp board.old.raw.inner seat.old.raw.inner }
    ensures { TakesBack result board.old.raw.inner seat.old.raw.inner board.new.raw.inner seat.new.raw.inner }
{
    match take(alloc, seat) {
        None => NO_HANDLE,
        Some(held) => take_back_from(alloc, board, seat, held),
    }
}
