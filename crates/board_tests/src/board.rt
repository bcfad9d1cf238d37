//! Tests of the board: the results of its calls, and what it has when it is closed.
ghost use Rattle.std.specs.Prelude.{◌≡◌, length};
ghost use Rattle.lv_bodies.specs.Parts.{IsShort};
ghost use Rattle.lv_board.specs.Closing.{IsStill};
ghost use Rattle.lv_board.specs.Opening.{AreDealt};
ghost use Rattle.lv_board.specs.Tells.{IsAt};

use crate::boards_of_two::{assert_closed, both, open, open_or_again, seats_of};
use crate::same::assert_same;
use lv_board::*;
use lv_bodies::Sum;
use lv_edits::Receipt;
use lv_geometry::{Limits, Refusal};
use lv_machine::{Read, Refreshed, Sized};
use lv_reduce::Answer;
use std::alloc::Global;
use std::process::Abort;
use std::test::Fail;

// Pushes an element, and checks its index.
fn assert_pushed(
    rt: &impl Abort,
    board: &Board<Sum>,
    seat: &mut Seat<Sum>,
    x: i64,
    edit: u32,
    index: u32,
)
    requires at { IsAt board.now.table.shared.table_id board.now.terms seat.old }
    requires short { IsShort x }
    ensures { IsStill seat.old seat.new }
{
    let pushed = board.try_push(seat, x);
    assert_same(rt, &pushed, &Ok(Receipt::Pushed { edit, index }));
}

// Reads an element, and checks its value and the version.
fn assert_read(
    rt: &impl Abort,
    board: &Board<Sum>,
    seat: &mut Seat<Sum>,
    i: u32,
    edit: u32,
    value: i64,
)
    requires { IsAt board.now.table.shared.table_id board.now.terms seat.old }
    ensures { IsStill seat.old seat.new }
{
    let read = board.get(seat, i);
    assert_same(rt, &read, &Ok(Read { edit, value }));
}

// Two seats look, and the second is faster with its push.
fn contend(rt: &impl Abort, board: &Board<Sum>, a: &mut Seat<Sum>, b: &mut Seat<Sum>)
    requires a { IsAt board.now.table.shared.table_id board.now.terms a.old }
    requires b { IsAt board.now.table.shared.table_id board.now.terms b.old }
    ensures a { IsStill a.old a.new }
    ensures b { IsStill b.old b.new }
{
    let seen = (board.look(a), board.look(b));
    let none = Look { edit: 0, size: 0 };
    assert_same(rt, &seen, &(none, none));
    let pushed = board.push_looked(b, 4);
    assert_same(rt, &pushed, &Ok(Receipt::Pushed { edit: 1, index: 0 }));
    let lost = board.push_looked(a, 5);
    assert_same(rt, &lost, &Err(Refusal::Contended { edit: 1 }));
}

// The first seat pushes, reads, and is refused an element that is too wide.
fn push(rt: &impl Abort, board: &Board<Sum>, a: &mut Seat<Sum>)
    requires { IsAt board.now.table.shared.table_id board.now.terms a.old }
    ensures { IsStill a.old a.new }
{
    assert_pushed(rt, board, a, 5, 2, 1);
    assert_read(rt, board, a, 0, 2, 4);
    assert_pushed(rt, board, a, 32767, 3, 2);
    assert_pushed(rt, board, a, -32768, 4, 3);
    let wide = board.try_push(a, 40000);
    assert_same(rt, &wide, &Err(Refusal::TooWide));
    assert_summed(rt, board, a, 4, 4, 8);
}

// Sums the first elements, and checks the result: it is read only from cells or, if there are eight, only from their aggregate.
fn assert_summed(
    rt: &impl Abort,
    board: &Board<Sum>,
    seat: &mut Seat<Sum>,
    hi: u32,
    edit: u32,
    value: u64,
)
    requires { IsAt board.now.table.shared.table_id board.now.terms seat.old }
    ensures { IsStill seat.old seat.new }
{
    let summed = board.reduce(seat, 0, hi);
    let answer = Answer {
        edit,
        value,
        cells_read: hi % 8,
        summaries_read: hi / 8,
    };
    assert_same(rt, &summed, &Ok(answer));
}

// Refreshes the first block, and checks the result.
fn assert_refreshed(
    rt: &impl Abort,
    board: &Board<Sum>,
    seat: &mut Seat<Sum>,
    wanted: Result<Refreshed, Refusal>,
)
    requires { IsAt board.now.table.shared.table_id board.now.terms seat.old }
    ensures { IsStill seat.old seat.new }
{
    let refreshed = board.refresh(seat, 0);
    assert_same(rt, &refreshed, &wanted);
}

// The first four updates of two seats.
fn make_four(rt: &impl Abort, board: &Board<Sum>, a: &mut Seat<Sum>, b: &mut Seat<Sum>)
    requires a { IsAt board.now.table.shared.table_id board.now.terms a.old }
    requires b { IsAt board.now.table.shared.table_id board.now.terms b.old }
    ensures a { IsStill a.old a.new }
    ensures b { IsStill b.old b.new }
{
    contend(rt, board, a, b);
    push(rt, board, a);
    let size = board.size(b);
    assert_same(rt, &size, &Sized { edit: 4, size: 4 });
}

// The second seat drops the last element, and the first overwrites one. Then they meet.
fn change(rt: &impl Abort, board: &Board<Sum>, a: &mut Seat<Sum>, b: &mut Seat<Sum>)
    requires a { IsAt board.now.table.shared.table_id board.now.terms a.old }
    requires b { IsAt board.now.table.shared.table_id board.now.terms b.old }
    ensures a { IsStill a.old a.new }
    ensures b { IsStill b.old b.new }
{
    let popped = board.try_pop(b);
    assert_same(rt, &popped, &Ok(Receipt::Popped { edit: 9, value: 1 }));
    let written = board.try_write(a, 0, 9);
    let receipt = Receipt::Written {
        edit: 10,
        before: 4,
    };
    assert_same(rt, &written, &Ok(receipt));
    let past = board.try_write(a, 7, 9);
    assert_same(rt, &past, &Err(Refusal::OutOfRange { size: 7 }));
    assert_refreshed(rt, board, a, Err(Refusal::OutOfRange { size: 7 }));
    let met = board.meet(a, b);
    assert_same(rt, &(met.first, met.second), &(10, 10));
    assert_read(rt, board, b, 0, 10, 9);
    assert_same(rt, &(a.seen(), b.seen()), &(10, 10));
}

// A board after its first four updates is closed.
fn four_edits(rt: &impl Abort, alloc: Global, board: Board<Sum>, seats: Vec<Seat<Sum>>)
    requires count { board.terms.seats ≡ 2 }
    requires two { length seats.items ≡ 2 }
    requires dealt { AreDealt board.table.shared.table_id board.terms seats.items }
{
    let (mut a, mut b, rest) = seats_of(&board, seats);
    make_four(rt, &board, &mut a, &mut b);
    let seats = both(&board, a, b, rest);
    assert_closed(rt, alloc, board, seats, 4, &[4, 5, 32767, -32768]);
}

// It is also run with each allocation failing in turn.
#[test]
fn the_first_four_edits(rt: HostRuntime) -> Result<(), Fail> {
    let (board, seats) = open_or_again(&rt, rt.alloc())?;
    four_edits(&rt, rt.alloc(), board, seats);
    Ok(())
}

// Four pushes of 1 by the second seat.
fn push_ones(rt: &impl Abort, board: &Board<Sum>, b: &mut Seat<Sum>)
    requires { IsAt board.now.table.shared.table_id board.now.terms b.old }
    ensures { IsStill b.old b.new }
{
    assert_pushed(rt, board, b, 1, 5, 4);
    assert_pushed(rt, board, b, 1, 6, 5);
    assert_pushed(rt, board, b, 1, 7, 6);
    assert_pushed(rt, board, b, 1, 8, 7);
}

// A board after ten updates is closed.
fn ten_edits(rt: &impl Abort, alloc: Global, board: Board<Sum>, seats: Vec<Seat<Sum>>)
    requires count { board.terms.seats ≡ 2 }
    requires two { length seats.items ≡ 2 }
    requires dealt { AreDealt board.table.shared.table_id board.terms seats.items }
{
    let (mut a, mut b, rest) = seats_of(&board, seats);
    make_four(rt, &board, &mut a, &mut b);
    push_ones(rt, &board, &mut b);
    let made = Refreshed {
        edit: 8,
        version: 8,
    };
    assert_refreshed(rt, &board, &mut b, Ok(made));
    assert_summed(rt, &board, &mut b, 8, 8, 12);
    change(rt, &board, &mut a, &mut b);
    let seats = both(&board, a, b, rest);
    assert_closed(rt, alloc, board, seats, 10, &[9, 5, 32767, -32768, 1, 1, 1]);
}

#[test]
fn two_seats(rt: HostRuntime) -> Result<(), Fail> {
    let (board, seats) = open(rt.alloc())?;
    ten_edits(&rt, rt.alloc(), board, seats);
    Ok(())
}

// The refusal of a board with this number of buckets and seats.
fn refused(alloc: Global, buckets: u32, seats: u32) -> Result<Option<Refusal>, Refusal> {
    let limits = Limits::new(buckets, 1)?;
    Ok(Board::new(alloc, limits, seats, Sum).err())
}

#[test]
fn limits_are_kept(rt: HostRuntime) {
    for (buckets, seats) in [(10, 1), (9, 0), (9, 9)] {
        let refused = refused(rt.alloc(), buckets, seats);
        assert_same(&rt, &refused, &Ok(Some(Refusal::BadLimits)));
    }
}
