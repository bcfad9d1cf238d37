//! Sessions at a board in threads of their own, each with its own seat.

ghost use Rattle.std.specs.Prelude.{All};
ghost use Rattle.lv_board.specs.Tells.{IsAt};

use crate::opened_client::OpenedClient;
use lv_board::{Board, BoardBody, Seat, run_board_session};
use lv_bodies::{Affine, Automaton, Best, Greatest, Kind, Least, Sum};
use lv_files::ProgramError;
use lv_geometry::Limits;
use lv_script::Fault;
use std::alloc::Global;
use std::io::{Read, Write};
use std::thread;
use std::thread::Threads;

// A session at a board, with its seat, the number of its file, its streams, and how it ended, which is without a fault at first.
#[derive(Drop)]
struct Task<'a, B: BoardBody, F: Drop> {
    board: &'a Board<B>,
    seat: Seat<B>,
    number: usize,
    lines: F,
    replies: F,
    ended: Result<(), Fault>,
    ghost here: { IsAt board.now.table.shared.table_id board.now.terms seat },
}

/// Runs a session for each pair of streams at a board of the kind, in a thread of its own if one can be made. If sessions end with faults, the
/// first of them is the fault.
pub fn hold_sessions<F: Read + Write + Send + Drop, R: Threads + Sync>(
    rt: &R,
    alloc: Global,
    limits: Limits,
    kind: Kind,
    streams: Vec<OpenedClient<F>>,
) -> Result<(), ProgramError> {
    match kind {
        Kind::Sum => hold_at(rt, alloc, limits, Sum, streams),
        Kind::Least => hold_at(rt, alloc, limits, Least, streams),
        Kind::Greatest => hold_at(rt, alloc, limits, Greatest, streams),
        Kind::Best => hold_at(rt, alloc, limits, Best, streams),
        Kind::Affine => hold_at(rt, alloc, limits, Affine, streams),
        Kind::Automaton => hold_at(rt, alloc, limits, Automaton::program(), streams),
    }
}

// Runs the sessions at a board with this monoid instance. The options keep to the limits of boards, so a board is refused only if memory runs
// out.
fn hold_at<B: BoardBody, F: Read + Write + Send + Drop, R: Threads + Sync>(
    rt: &R,
    alloc: Global,
    limits: Limits,
    body: B,
    streams: Vec<OpenedClient<F>>,
) -> Result<(), ProgramError> {
    let Ok(count) = u32::try_from(streams.len()) else {
        return Err(ProgramError::memory());
    };
    let Ok((board, seats)) = Board::new(alloc, limits, count, body) else {
        return Err(ProgramError::memory());
    };
    let ended = hold_all(rt, alloc, &board, seats, streams);
    drop(board);
    ended
}

// Runs the sessions at a board, with its seats.
fn hold_all<B: BoardBody, F: Read + Write + Send + Drop, R: Threads + Sync>(
    rt: &R,
    alloc: Global,
    board: &Board<B>,
    seats: Vec<Seat<B>>,
    streams: Vec<OpenedClient<F>>,
) -> Result<(), ProgramError>
    requires here { All (IsAt board.now.table.shared.table_id board.now.terms) seats.items }
{
    let mut tasks = seat_each(alloc, board, seats, streams)?;
    let threads = tasks.len().max(1);
    let held = |_: usize, task: &mut Task<'_, B, F>| { hold(alloc, task) };
    thread::for_each_mut(rt, tasks.as_mut_slice(), threads, &held);
    first_fault(&tasks)
}

// The fault of the first session that ended with one.
fn first_fault<B: BoardBody, F: Drop>(tasks: &[Task<'_, B, F>]) -> Result<(), ProgramError> {
    for task in tasks {
        if let Err(fault) = task.ended {
            return Err(ProgramError::session(task.number, fault));
        }
    }
    Ok(())
}

// Gives each session a seat.
fn seat_each<'a, B: BoardBody, F: Drop>(
    alloc: Global,
    board: &'a Board<B>,
    seats: Vec<Seat<B>>,
    streams: Vec<OpenedClient<F>>,
) -> Result<Vec<Task<'a, B, F>>, ProgramError>
    requires here { All (IsAt board.now.table.shared.table_id board.now.terms) seats.items }
{
    let mut seats = seats;
    let mut tasks = Vec::new(alloc);
    for streams in streams {
        let Some(seat) = seats.pop() else {
            return Ok(tasks);
        };
        let OpenedClient {
            number,
            lines,
            replies,
            ..
        } = streams;
        let task = Task {
            board,
            seat,
            number,
            lines,
            replies,
            ended: Ok(()),
        };
        if tasks.push(task).is_err() {
            return Err(ProgramError::memory());
        }
    }
    Ok(tasks)
}

// Runs a session.
fn hold<B: BoardBody, F: Read + Write + Drop>(alloc: Global, task: &mut Task<'_, B, F>) {
    task.ended = run_board_session(
        alloc,
        task.board,
        &mut task.seat,
        &mut task.lines,
        &mut task.replies,
    );
}
