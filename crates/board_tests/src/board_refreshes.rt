//! Parts of a board: a refreshed block is read as one aggregate, also while another thread makes updates.
ghost use Rattle.std.specs.Prelude.{◌≡◌, ◌<◌, ◌≤◌, length};
ghost use Rattle.lv_board.specs.Closing.{IsStill};
ghost use Rattle.lv_board.specs.Opening.{AreDealt};
ghost use Rattle.lv_board.specs.Tells.{IsAt};

use crate::boards_of_two::{open, seats_of};
use crate::same::assert_same;
use lv_board::{Board, Seat};
use lv_bodies::Sum;
use lv_edits::Receipt;
use lv_geometry::Refusal;
use lv_machine::Refreshed;
use lv_reduce::Answer;
use std::process::Abort;
use std::test::Fail;
use std::thread;
use std::thread::Threads;

// An update that was accepted: its receipt, where it wrote if it is a write, and which element it carried.
#[derive(Clone, Copy)]
struct Made {
    receipt: Receipt,
    index: u32,
    value: i64,
}

// The first eight elements after an update, from the receipts of all updates that were accepted after the pushes of 1 to 8.
fn first_after(made: &[Made], edit: u32) -> [i64; 8] {
    let mut first: [i64; 8] = [1, 2, 3, 4, 5, 6, 7, 8];
    for one in made {
        match one.receipt {
            Receipt::Pushed {
                edit: number,
                index,
            } if number <= edit && index < 8 => {
                first[index as usize] = one.value;
            }
            Receipt::Written { edit: number, .. } if number <= edit && one.index < 8 => {
                first[one.index as usize] = one.value;
            }
            _ => {}
        }
    }
    first
}

// Their sum.
fn sum_after(made: &[Made], edit: u32) -> u64 {
    let mut sum: u64 = 0;
    for x in first_after(made, edit) {
        sum = sum.wrapping_add(x.cast_unsigned());
    }
    sum
}

// The try with this number: pushes, writes and pops take turns.
fn try_edit(board: &Board<Sum>, seat: &mut Seat<Sum>, k: u32) -> Result<Receipt, Refusal>
    requires at { IsAt board.now.table.shared.table_id board.now.terms seat.old }
    requires short { k < 400 }
    ensures { IsStill seat.old seat.new }
{
    match k % 3 {
        0 => board.try_push(seat, i64::from(k)),
        1 => board.try_write(seat, k % 8, i64::from(k)),
        _ => board.try_pop(seat),
    }
}

// Makes 400 tries. Returns those that were accepted, after those that were passed.
fn edit_400(board: &Board<Sum>, seat: Seat<Sum>, made: Vec<Made>) -> Vec<Made>
    requires { IsAt board.now.table.shared.table_id board.now.terms seat }
{
    let mut mine = seat;
    let mut made = made;
    for k in 0..400 {
        if let Ok(receipt) = try_edit(board, &mut mine, k) {
            let one = Made {
                receipt,
                index: k % 8,
                value: i64::from(k),
            };
            let _noted = made.push(one);
        }
    }
    drop(mine);
    made
}

// The replies to the second thread: its reductions, and how often one was refused because a later update had written there.
#[derive(Drop)]
struct Summed {
    answers: Vec<Answer<u64>>,
    overtaken: usize,
}

// Refreshes the first block and sums it, and notes the reply.
fn refresh_and_sum(board: &Board<Sum>, seat: &mut Seat<Sum>, summed: &mut Summed)
    requires { IsAt board.now.table.shared.table_id board.now.terms seat.old }
    ensures { IsStill seat.old seat.new }
{
    let _refreshed = board.refresh(seat, 0);
    match board.reduce(seat, 0, 8) {
        Ok(answer) => {
            let _noted = summed.answers.push(answer);
        }
        Err(Refusal::Overtaken { .. }) => summed.overtaken = summed.overtaken.wrapping_add(1),
        Err(_) => {}
    }
}

// Does this 400 times.
fn sum_400(board: &Board<Sum>, seat: Seat<Sum>, summed: Summed) -> (Seat<Sum>, Summed)
    requires { IsAt board.now.table.shared.table_id board.now.terms seat }
    ensures { IsStill seat result.0 }
{
    let mut mine = seat;
    let mut summed = summed;
    for _ in 0..400_usize {
        refresh_and_sum(board, &mut mine, &mut summed);
    }
    (mine, summed)
}

// Pushes 1 to 8.
fn push_eight(rt: &impl Abort, board: &Board<Sum>, seat: &mut Seat<Sum>)
    requires { IsAt board.now.table.shared.table_id board.now.terms seat.old }
    ensures { IsStill seat.old seat.new }
{
    for x in 1..9 {
        let pushed = board.try_push(seat, x);
        assert_same(rt, &pushed.err(), &None);
    }
}

// One thread makes updates, and another refreshes and sums at the same time.
fn edit_beside_sums<R: Threads + Sync>(
    rt: &R,
    board: &Board<Sum>,
    a: Seat<Sum>,
    b: Seat<Sum>,
    made: Vec<Made>,
    summed: Summed,
) -> (Vec<Made>, (Seat<Sum>, Summed))
    requires a { IsAt board.now.table.shared.table_id board.now.terms a }
    requires b { IsAt board.now.table.shared.table_id board.now.terms b }
    ensures { IsStill b result.1.0 }
{
    thread::join(
        rt,
        move || -> Vec<Made>
            requires { IsAt board.now.table.shared.table_id board.now.terms a }
        { edit_400(board, a, made) },
        move || -> (Seat<Sum>, Summed)
            requires { IsAt board.now.table.shared.table_id board.now.terms b }
            ensures { IsStill b result.0 }
        { sum_400(board, b, summed) },
    )
}

// Checks that each answer is the sum at its version, given the receipts, and that every other reduction was overtaken. At least one was answered.
fn assert_sums(rt: &impl Abort, made: &[Made], summed: &Summed) {
    for answer in summed.answers.as_slice() {
        assert_same(
            rt,
            &(answer.edit, answer.value),
            &(answer.edit, sum_after(made, answer.edit)),
        );
    }
    let answered = summed.answers.len();
    assert_same(rt, &answered.wrapping_add(summed.overtaken), &400);
    assert_same(rt, &(answered > 0), &true);
}

// Once nobody makes updates, a refresh returns the last write, and a sum reads one aggregate.
fn assert_fresh(rt: &impl Abort, board: &Board<Sum>, seat: &mut Seat<Sum>, made: &[Made])
    requires { IsAt board.now.table.shared.table_id board.now.terms seat.old }
{
    let refreshed = board.refresh(seat, 0);
    let told = Refreshed {
        edit: 408,
        version: 406,
    };
    assert_same(rt, &refreshed, &Ok(told));
    let summed = board.reduce(seat, 0, 8);
    let whole = Answer {
        edit: 408,
        value: sum_after(made, 408),
        cells_read: 0,
        summaries_read: 1,
    };
    assert_same(rt, &summed, &Ok(whole));
    let past = board.refresh(seat, 1);
    assert_same(rt, &past, &Err(Refusal::OutOfRange { size: 9 }));
}

// A board whose seats do all this.
fn edits_and_sums<R: Threads + Abort + Sync>(
    rt: &R,
    board: &Board<Sum>,
    seats: Vec<Seat<Sum>>,
    made: Vec<Made>,
    summed: Summed,
)
    requires two { length seats.items ≡ 2 }
    requires dealt { AreDealt board.now.table.shared.table_id board.now.terms seats.items }
{
    let (mut a, b, none) = seats_of(board, seats);
    push_eight(rt, board, &mut a);
    let (made, (mut b, summed)) = edit_beside_sums(rt, board, a, b, made, summed);
    assert_same(rt, &made.len(), &400);
    assert_sums(rt, &made, &summed);
    assert_fresh(rt, board, &mut b, &made);
    drop(b);
    drop(summed);
    drop(made);
    drop(none);
}

#[test]
fn refresh_beside_edits(rt: HostRuntime) -> Result<(), Fail> {
    let made = Vec::with_capacity(rt.alloc(), 400)?;
    let answers = Vec::with_capacity(rt.alloc(), 400)?;
    let (board, seats) = open(rt.alloc())?;
    let summed = Summed {
        answers,
        overtaken: 0,
    };
    edits_and_sums(&rt, &board, seats, made, summed);
    drop(board);
    Ok(())
}
