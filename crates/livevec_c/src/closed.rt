//! The close of a board, and what it leaves: the vector's elements.
ghost use Rattle.std.specs.Prelude.{◌≡◌, ◌≤◌, length, IfOk, IfErr};
ghost use Rattle.lv_board.specs.Sharing.{IsClosedShared, IsUnclosed};
ghost use Rattle.livevec_c.specs.declared.objects.Object.TheVariants as behind;
ghost use Rattle.livevec_c.specs.declared.ended.Ended.{Ended};
ghost use Rattle.livevec_c.specs.Kinds.{shared_at};
ghost use Rattle.livevec_c.specs.Lives.{Closes, ClosesBoard, ClosesObject, unclosed_for};

use crate::ended::Ended;
use crate::kind_boards::KindBoard;
use crate::objects::{Object, nothing, refill};
use crate::reads::{count_answer, uncounted};
use crate::results::{Count, NO_MEMORY, SEATS_OUT};
use crate::slots::{Slot, put, take};
use lv_board::{Closed, Unclosed};
use std::alloc::Global;
use std::mem;

// The vector of a board whose seats are all there, or the board again.
fn close_kind(alloc: Global, board: KindBoard) -> Result<Closed, (KindBoard, Unclosed)>
    ensures ok { IfOk result (λ closed. IsClosedShared (shared_at board) closed) }
    ensures err { IfErr result (λ r. (shared_at r.0 ≡ shared_at board) × IsUnclosed (shared_at board) r.1) }
{
    match board {
        KindBoard::Sum(board) => match board.close(alloc) {
            Ok(closed) => Ok(closed),
            Err((same, why)) => Err((KindBoard::Sum(same), why)),
        },
        KindBoard::Least(board) => match board.close(alloc) {
            Ok(closed) => Ok(closed),
            Err((same, why)) => Err((KindBoard::Least(same), why)),
        },
        KindBoard::Greatest(board) => match board.close(alloc) {
            Ok(closed) => Ok(closed),
            Err((same, why)) => Err((KindBoard::Greatest(same), why)),
        },
        KindBoard::Best(board) => match board.close(alloc) {
            Ok(closed) => Ok(closed),
            Err((same, why)) => Err((KindBoard::Best(same), why)),
        },
        KindBoard::Affine(board) => match board.close(alloc) {
            Ok(closed) => Ok(closed),
            Err((same, why)) => Err((KindBoard::Affine(same), why)),
        },
        KindBoard::Automaton(board) => match board.close(alloc) {
            Ok(closed) => Ok(closed),
            Err((same, why)) => Err((KindBoard::Automaton(same), why)),
        },
    }
}

// A closed board, as it is kept in a slot.
fn ended(closed: Closed) -> Ended
    requires { length closed.elements ≤ 4088 }
    ensures { result.closed ≡ closed }
{
    let size = closed.elements.len() as u32;
    Ended { closed, size }
}

// The answer of a close that was refused.
fn unclosed(why: Unclosed) -> Count
    ensures { result ≡ unclosed_for why }
{
    let refusal = match why {
        Unclosed::NoMemory => NO_MEMORY,
        Unclosed::SeatsOut => SEATS_OUT,
        Unclosed::Shared => SEATS_OUT,
    };
    Count { refusal, value: 0 }
}

// Closes a board. Returns the object for its slot, and the answer.
fn close_board(alloc: Global, board: KindBoard) -> (Object, Count)
    ensures { ClosesBoard result.1 board result.0 }
{
    match close_kind(alloc, board) {
        Err((same, why)) => (Object::Board(same), unclosed(why)),
        Ok(closed) => {
            let answer = count_answer(closed.edit);
            (Object::Closed(ended(closed)), answer)
        }
    }
}

// Closes an object, if it is a board. Returns the object that is left, and the answer.
fn close_object(alloc: Global, object: Object) -> (Object, Count)
    ensures { ClosesObject result.1 object result.0 }
{
    match object {
        Object::Board(board) => close_board(alloc, board),
        other => (other, uncounted()),
    }
}

// Closes an object that is a board.
fn close_of(alloc: Global, object: &mut Object) -> Count
    ensures { ClosesObject result object.old object.new }
{
    let (left, answer) = close_object(alloc, mem::replace(object, nothing(alloc)));
    refill(object, left);
    answer
}

/// Closes a board whose seats are all there. Its slot holds what the vector was then.
#[unsafe(no_mangle)]
pub extern "C" fn livevec_proved_board_close(alloc: Global, slot: &mut Slot) -> Count
    ensures { Closes result slot.old.raw.inner slot.new.raw.inner }
{
    match take(alloc, slot) {
        None => uncounted(),
        Some(mut held) => {
            let answer = close_of(alloc, &mut held);
            put(slot, held);
            answer
        }
    }
}
