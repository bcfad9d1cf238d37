//! A board that is opened, and one that is closed.

ghost use Rattle.std.specs.Prelude.{◌≡◌, length, IfOk};
ghost use Rattle.lv_board.specs.Closing.{AreAll, AreAt, IsStill};
ghost use Rattle.lv_board.specs.Opening.{AreDealt};
ghost use Rattle.lv_board.specs.Ordered.{AreInOrder};
ghost use Rattle.lv_board.specs.Tells.{IsAt};

use crate::told::{Told, again, begin, end, first, right};
use lv_board::{Board, Closed, Seat};
use lv_bodies::Sum;
use lv_geometry::{Limits, Refusal};
use std::alloc::Global;
use std::thread;
use std::thread::Threads;

// A board of two seats.
fn opened(alloc: Global) -> Result<(), Refusal> {
    let (board, seats) = Board::new(alloc, Limits::new(9, 16_777_215)?, 2, Sum)?;
    drop(seats);
    drop(board);
    Ok(())
}

/// A board that is opened.
pub fn open<R: Eprint>(rt: &R, alloc: Global) -> Told {
    begin(rt);
    let answer = opened(alloc);
    end(rt);
    match first(answer, ()) {
        Told::Refused => again(true, opened(alloc), ()),
        told => told,
    }
}

fn push(board: &Board<Sum>, seat: &mut Seat<Sum>)
    requires { IsAt board.now.table.shared.table_id board.now.terms seat.old }
    ensures { IsStill seat.old seat.new }
{
    let _ = board.push_within(seat, 4, 1000);
}

fn push_each<R: Threads + Sync>(rt: &R, board: &Board<Sum>, seats: &mut [Seat<Sum>])
    requires { AreInOrder board.now.table.shared.table_id board.now.terms seats.old }
    ensures { AreInOrder board.now.table.shared.table_id board.now.terms seats.new }
{
    thread::for_each_mut(rt, seats, 1, &|_, seat| push(board, seat));
}

// Whether two updates were made, each a push of 4.
fn is_right(closed: &Closed) -> bool {
    closed.edit == 2 && closed.elements.as_slice() == [4, 4].as_slice()
}

fn close_again(alloc: Global, board: Board<Sum>, seats: Vec<Seat<Sum>>) -> Told
    requires at { AreAt board.table.shared.table_id board.terms seats.items }
    requires all { AreAll board.terms.seats seats.items }
{
    match board.close(alloc, seats) {
        Ok(closed) => right(is_right(&closed), Told::Refused),
        Err((board, seats)) => {
            drop(seats);
            drop(board);
            Told::Wrong
        }
    }
}

fn close_all<R: Eprint>(rt: &R, alloc: Global, board: Board<Sum>, seats: Vec<Seat<Sum>>) -> Told
    requires at { AreAt board.table.shared.table_id board.terms seats.items }
    requires all { AreAll board.terms.seats seats.items }
{
    begin(rt);
    let answer = board.close(alloc, seats);
    end(rt);
    match answer {
        Ok(closed) => right(is_right(&closed), Told::Answered),
        Err((board, seats)) => close_again(alloc, board, seats),
    }
}

fn closed<R: Threads + Eprint + Sync>(
    rt: &R,
    alloc: Global,
    board: Board<Sum>,
    mut seats: Vec<Seat<Sum>>,
) -> Told
    requires { AreInOrder board.table.shared.table_id board.terms seats.items }
{
    push_each(rt, &board, &mut seats);
    close_all(rt, alloc, board, seats)
}

fn of_board<R: Threads + Eprint + Sync>(rt: &R, alloc: Global) -> Result<Told, Refusal> {
    let (board, seats) = Board::new(alloc, Limits::new(9, 16_777_215)?, 2, Sum)?;
    Ok(closed(rt, alloc, board, seats))
}

/// A board is closed after a push by each seat. If that is refused, board and seats are returned, and it is closed again.
pub fn close<R: Threads + Eprint + Sync>(rt: &R, alloc: Global) -> Told {
    match of_board(rt, alloc) {
        Ok(told) => told,
        Err(_) => Told::Wrong,
    }
}
