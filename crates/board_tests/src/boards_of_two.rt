//! Boards of two seats, for tests: how they are opened and closed.
ghost use Rattle.std.specs.Prelude.{◌≡◌, ◌≤◌, [], length, vec_capacity, IfOk};
ghost use Rattle.lv_board.specs.Closing.{AreAll, AreAt};
ghost use Rattle.lv_board.specs.Opening.{AreDealt};
ghost use Rattle.lv_board.specs.Tells.{actor_of, IsAt};

use crate::same::assert_same;
use lv_board::*;
use lv_bodies::Sum;
use lv_geometry::{Limits, Refusal};
use std::alloc::Global;
use std::process::Abort;

// A board of two seats, with the greatest limits.
pub(crate) fn open(alloc: Global) -> Result<(Board<Sum>, Vec<Seat<Sum>>), Refusal>
    ensures count { IfOk result (λ r. r.0.terms.seats ≡ 2) }
    ensures seats { IfOk result (λ r. length r.1.items ≡ 2) }
    ensures dealt { IfOk result (λ r. AreDealt r.0.table.shared.table_id r.0.terms r.1.items) }
{
    Board::new(alloc, Limits::new(9, 16_777_215)?, 2, Sum)
}

// Opens a board, and tries once more if memory runs out.
pub(crate) fn open_or_again(
    rt: &impl Abort,
    alloc: Global,
) -> Result<(Board<Sum>, Vec<Seat<Sum>>), Refusal>
    ensures count { IfOk result (λ r. r.0.terms.seats ≡ 2) }
    ensures seats { IfOk result (λ r. length r.1.items ≡ 2) }
    ensures dealt { IfOk result (λ r. AreDealt r.0.table.shared.table_id r.0.terms r.1.items) }
{
    let opened = match open(alloc) {
        Ok(opened) => opened,
        Err(refusal) => {
            assert_same(rt, &refusal, &Refusal::NoMemory);
            return open(alloc);
        }
    };
    Ok(opened)
}

// Closes a board, and tries once more if memory runs out, in which case everything was returned.
fn close_or_again(
    alloc: Global,
    board: Board<Sum>,
    seats: Vec<Seat<Sum>>,
) -> Result<Closed, (Board<Sum>, Vec<Seat<Sum>>)>
    requires at { AreAt board.table.shared.table_id board.terms seats.items }
    requires all { AreAll board.terms.seats seats.items }
{
    match board.close(alloc, seats) {
        Ok(closed) => Ok(closed),
        Err((board, seats)) => board.close(alloc, seats),
    }
}

// The result of closing a board, if memory doesn't run out twice.
pub(crate) fn closed(
    rt: &impl Abort,
    alloc: Global,
    board: Board<Sum>,
    seats: Vec<Seat<Sum>>,
) -> Closed
    requires at { AreAt board.table.shared.table_id board.terms seats.items }
    requires all { AreAll board.terms.seats seats.items }
{
    match close_or_again(alloc, board, seats) {
        Ok(closed) => closed,
        Err((board, seats)) => {
            drop(seats);
            drop(board);
            panic!(rt; "memory is wanting twice");
        }
    }
}

// Closes a board, and checks the number of its last update and its elements.
pub(crate) fn assert_closed(
    rt: &impl Abort,
    alloc: Global,
    board: Board<Sum>,
    seats: Vec<Seat<Sum>>,
    edit: u32,
    elements: &[i64],
)
    requires at { AreAt board.table.shared.table_id board.terms seats.items }
    requires all { AreAll board.terms.seats seats.items }
{
    let left = closed(rt, alloc, board, seats);
    assert_same(rt, &left.edit, &edit);
    assert_same(rt, &left.elements.as_slice(), &elements);
    drop(left);
}

// The two seats of a new board, and the vector that they were in.
pub(crate) fn seats_of(
    board: &Board<Sum>,
    seats: Vec<Seat<Sum>>,
) -> (Seat<Sum>, Seat<Sum>, Vec<Seat<Sum>>)
    requires two { length seats.items ≡ 2 }
    requires dealt { AreDealt board.now.table.shared.table_id board.now.terms seats.items }
    ensures a { IsAt board.now.table.shared.table_id board.now.terms result.0 }
    ensures first { (actor_of result.0).number ≡ 0 }
    ensures b { IsAt board.now.table.shared.table_id board.now.terms result.1 }
    ensures second { (actor_of result.1).number ≡ 1 }
    ensures none { result.2.items ≡ [] }
    ensures room { 2 ≤ vec_capacity result.2 }
{
    let mut rest = seats;
    let b = rest.pop().unwrap();
    let a = rest.pop().unwrap();
    (a, b, rest)
}

// All seats of a board, in a vector that has room for them.
pub(crate) fn both(
    board: &Board<Sum>,
    a: Seat<Sum>,
    b: Seat<Sum>,
    rest: Vec<Seat<Sum>>,
) -> Vec<Seat<Sum>>
    requires a { IsAt board.now.table.shared.table_id board.now.terms a }
    requires first { (actor_of a).number ≡ 0 }
    requires b { IsAt board.now.table.shared.table_id board.now.terms b }
    requires second { (actor_of b).number ≡ 1 }
    requires none { rest.items ≡ [] }
    requires room { 2 ≤ vec_capacity rest }
    ensures at { AreAt board.now.table.shared.table_id board.now.terms result.items }
    ensures all { AreAll 2 result.items }
{
    let mut seats = rest;
    seats.push_reserved(a);
    seats.push_reserved(b);
    seats
}
