//! Tests of a board with two threads. Of tries that collide one is accepted, and each thread sees what the other did.
ghost use Rattle.std.specs.Prelude.{◌≡◌, length};
ghost use Rattle.lv_bodies.specs.Parts.{IsShort};
ghost use Rattle.lv_board.specs.Closing.{IsStill};
ghost use Rattle.lv_board.specs.Opening.{AreDealt};
ghost use Rattle.lv_board.specs.Tells.{IsAt};

use crate::boards_of_two::{assert_closed, both, closed, open, seats_of};
use crate::same::assert_same;
use lv_board::*;
use lv_bodies::Sum;
use std::alloc::Global;
use std::process::Abort;
use std::test::Fail;
use std::thread;
use std::thread::Threads;

// Pushes an element 500 times, and counts how often that is accepted.
fn push_500(board: &Board<Sum>, seat: Seat<Sum>, x: i64) -> (Seat<Sum>, usize)
    requires at { IsAt board.now.table.shared.table_id board.now.terms seat }
    requires short { IsShort x }
    ensures { IsStill seat result.0 }
{
    let mut mine = seat;
    let mut accepted = 0;
    for _ in 0..500_usize {
        if board.try_push(&mut mine, x).is_ok() {
            accepted += 1;
        }
    }
    (mine, accepted)
}

// Two threads make 500 pushes each, of 1 and of 2.
fn push_from_two<R: Threads + Sync>(
    rt: &R,
    board: &Board<Sum>,
    a: Seat<Sum>,
    b: Seat<Sum>,
) -> ((Seat<Sum>, usize), (Seat<Sum>, usize))
    requires a { IsAt board.now.table.shared.table_id board.now.terms a }
    requires b { IsAt board.now.table.shared.table_id board.now.terms b }
    ensures a { IsStill a result.0.0 }
    ensures b { IsStill b result.1.0 }
{
    thread::join(
        rt,
        move || -> (Seat<Sum>, usize)
            requires { IsAt board.now.table.shared.table_id board.now.terms a }
            ensures { IsStill a result.0 }
        { push_500(board, a, 1) },
        move || -> (Seat<Sum>, usize)
            requires { IsAt board.now.table.shared.table_id board.now.terms b }
            ensures { IsStill b result.0 }
        { push_500(board, b, 2) },
    )
}

// How often an element occurs among some.
fn times(elements: &[i64], x: i64) -> usize {
    let mut count: usize = 0;
    for y in elements {
        if *y == x {
            count = count.saturating_add(1);
        }
    }
    count
}

// Checks a closed board of pushes of 1 and of 2, given how many were accepted. Of two tries that collide, one is.
fn assert_counts(rt: &impl Abort, closed: &Closed, ones: usize, twos: usize) {
    let elements = closed.elements.as_slice();
    let accepted = ones.saturating_add(twos);
    assert!(rt; accepted >= 500);
    assert_same(
        rt,
        &(closed.edit as usize, elements.len()),
        &(accepted, accepted),
    );
    assert_same(rt, &(times(elements, 1), times(elements, 2)), &(ones, twos));
}

// A board to which two threads pushed is closed.
fn thousand_tries<R: Threads + Abort + Sync>(
    rt: &R,
    alloc: Global,
    board: Board<Sum>,
    seats: Vec<Seat<Sum>>,
)
    requires count { board.terms.seats ≡ 2 }
    requires two { length seats.items ≡ 2 }
    requires dealt { AreDealt board.table.shared.table_id board.terms seats.items }
{
    let (a, b, rest) = seats_of(&board, seats);
    let ((a, ones), (b, twos)) = push_from_two(rt, &board, a, b);
    let seats = both(&board, a, b, rest);
    let left = closed(rt, alloc, board, seats);
    assert_counts(rt, &left, ones, twos);
    drop(left);
}

#[test]
fn two_threads_try(rt: HostRuntime) -> Result<(), Fail> {
    let (board, seats) = open(rt.alloc())?;
    thousand_tries(&rt, rt.alloc(), board, seats);
    Ok(())
}

// Looks until there are this many elements, at most 1,000,000 times. Returns whether there were.
fn wait_for(board: &Board<Sum>, seat: &mut Seat<Sum>, size: u32) -> bool
    requires { IsAt board.now.table.shared.table_id board.now.terms seat.old }
    ensures { IsStill seat.old seat.new }
{
    for _ in 0..1_000_000 {
        if board.size(seat).size == size {
            return true;
        }
        thread::yield_now();
    }
    false
}

// Tries to push an element until that is accepted, at most 1,000,000 times. Returns whether it was.
fn push_until(board: &Board<Sum>, seat: &mut Seat<Sum>, x: i64) -> bool
    requires at { IsAt board.now.table.shared.table_id board.now.terms seat.old }
    requires short { IsShort x }
    ensures { IsStill seat.old seat.new }
{
    for _ in 0..1_000_000 {
        if board.try_push(seat, x).is_ok() {
            return true;
        }
        thread::yield_now();
    }
    false
}

// Pushes a 1, and waits for a second element.
fn push_and_wait(board: &Board<Sum>, seat: Seat<Sum>) -> (Seat<Sum>, bool)
    requires { IsAt board.now.table.shared.table_id board.now.terms seat }
    ensures { IsStill seat result.0 }
{
    let mut mine = seat;
    let pushed = push_until(board, &mut mine, 1);
    let seen = wait_for(board, &mut mine, 2);
    (mine, pushed && seen)
}

// Waits for a first element, and pushes a 2.
fn wait_and_push(board: &Board<Sum>, seat: Seat<Sum>) -> (Seat<Sum>, bool)
    requires { IsAt board.now.table.shared.table_id board.now.terms seat }
    ensures { IsStill seat result.0 }
{
    let mut mine = seat;
    let seen = wait_for(board, &mut mine, 1);
    let pushed = push_until(board, &mut mine, 2);
    (mine, seen && pushed)
}

// Two threads that each wait for the other's push.
fn push_by_turns<R: Threads + Sync>(
    rt: &R,
    board: &Board<Sum>,
    a: Seat<Sum>,
    b: Seat<Sum>,
) -> ((Seat<Sum>, bool), (Seat<Sum>, bool))
    requires a { IsAt board.now.table.shared.table_id board.now.terms a }
    requires b { IsAt board.now.table.shared.table_id board.now.terms b }
    ensures a { IsStill a result.0.0 }
    ensures b { IsStill b result.1.0 }
{
    thread::join(
        rt,
        move || -> (Seat<Sum>, bool)
            requires { IsAt board.now.table.shared.table_id board.now.terms a }
            ensures { IsStill a result.0 }
        { push_and_wait(board, a) },
        move || -> (Seat<Sum>, bool)
            requires { IsAt board.now.table.shared.table_id board.now.terms b }
            ensures { IsStill b result.0 }
        { wait_and_push(board, b) },
    )
}

// A board to which two threads push by turns is closed.
fn two_turns<R: Threads + Abort + Sync>(
    rt: &R,
    alloc: Global,
    board: Board<Sum>,
    seats: Vec<Seat<Sum>>,
)
    requires count { board.terms.seats ≡ 2 }
    requires two { length seats.items ≡ 2 }
    requires dealt { AreDealt board.table.shared.table_id board.terms seats.items }
{
    let (a, b, rest) = seats_of(&board, seats);
    let ((a, first), (b, second)) = push_by_turns(rt, &board, a, b);
    assert_same(rt, &(first, second), &(true, true));
    let seats = both(&board, a, b, rest);
    assert_closed(rt, alloc, board, seats, 2, &[1, 2]);
}

#[test]
fn each_sees_the_other(rt: HostRuntime) -> Result<(), Fail> {
    let (board, seats) = open(rt.alloc())?;
    two_turns(&rt, rt.alloc(), board, seats);
    Ok(())
}
