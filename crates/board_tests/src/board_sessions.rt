//! Tests of a board's sessions with readers and writers that fail or transfer little at a time, and when memory runs out.
ghost use Rattle.std.specs.Prelude.{IfOk};
ghost use Rattle.lv_board.specs.Opening.{AreDealt};
ghost use Rattle.lv_board.specs.Tells.{IsAt};

use crate::same::assert_same;
use lv_board::{Board, Seat, run_board_session};
use lv_bodies::Sum;
use lv_geometry::{Limits, Refusal};
use lv_script::Fault;
use lv_script::devices::{FailingReader, FailingWriter};
use std::alloc::Global;
use std::process::Abort;
use std::test::Fail;
use stream_fixtures::{Server, all, check_all, check_reads, check_writes, writer};

const LINES: &[u8] = b"push 4\nget 0\nreduce sum 0 1\nrefresh 0";

const REPLIES: &[u8] = b"edit 1 at 0\nvalue 4\nat 1 sum 4\nrefused 3\n";

// A new board of one seat.
fn open(alloc: Global) -> Result<(Board<Sum>, Vec<Seat<Sum>>), Refusal>
    ensures { IfOk result (λ r. AreDealt r.0.table.shared.table_id r.0.terms r.1.items) }
{
    Board::new(alloc, Limits::new(9, 16_777_215)?, 1, Sum)
}

struct Session;

impl<R> Server<R> for Session {
    fn lines(&self) -> &'static [u8] {
        LINES
    }

    fn replies(&self) -> &'static [u8] {
        REPLIES
    }

    // On a new board.
    fn serve(
        &self,
        _rt: &R,
        alloc: Global,
        reader: &mut FailingReader<'_>,
        writer: &mut FailingWriter,
    ) -> Result<(), Fault> {
        let Ok((board, mut seats)) = open(alloc) else {
            return Err(Fault::NoMemory);
        };
        let ended = match seats.as_mut_slice() {
            [seat] => run_board_session(alloc, &board, seat, reader, writer),
            _ => Err(Fault::NoMemory),
        };
        drop(seats);
        drop(board);
        ended
    }
}

#[test]
fn a_session_by_any_steps(rt: HostRuntime) -> Result<(), Fail> {
    check_all(&rt, rt.alloc(), &Session)
}

#[test]
fn reads_that_fail(rt: HostRuntime) -> Result<(), Fail> {
    let table = [(0, 0), (6, 0), (7, 12), (13, 20), (28, 31), (37, 31)];
    check_reads(&rt, rt.alloc(), &Session, &table)
}

#[test]
fn writes_that_fail(rt: HostRuntime) -> Result<(), Fail> {
    check_writes(&rt, rt.alloc(), &Session)
}

// Checks that nothing was read or written, and that the seat saw no update.
fn assert_not_begun(
    rt: &impl Abort,
    reader: &FailingReader<'_>,
    writer: &FailingWriter,
    seat: &Seat<Sum>,
) {
    let read_written_seen = (reader.rest.len(), writer.taken.len(), seat.seen());
    assert_same(rt, &read_written_seen, &(LINES.len(), 0, 0));
}

// Runs a session. If memory runs out, it checks that nothing was read or written, and runs the session again.
fn hold_or_again(
    rt: &impl Abort,
    alloc: Global,
    board: &Board<Sum>,
    seat: &mut Seat<Sum>,
    writer: &mut FailingWriter,
) -> Result<(), Fault>
    requires { IsAt board.now.table.shared.table_id board.now.terms seat.old }
{
    let mut reader = FailingReader {
        rest: LINES,
        step: 1000,
        left: 1000,
    };
    match run_board_session(alloc, board, seat, &mut reader, writer) {
        Err(Fault::NoMemory) => {
            assert_not_begun(rt, &reader, writer, seat);
            run_board_session(alloc, board, seat, &mut reader, writer)
        }
        ended => ended,
    }
}

// It is also run with each allocation failing in turn.
#[test]
fn a_session_without_memory_never_began(rt: HostRuntime) -> Result<(), Fail> {
    let mut writer = writer(rt.alloc(), all(1000))?;
    let (board, mut seats) = open(rt.alloc())?;
    if let [seat] = seats.as_mut_slice() {
        let ended = hold_or_again(&rt, rt.alloc(), &board, seat, &mut writer);
        assert_same(&rt, &ended, &Ok(()));
        assert_same(&rt, &writer.taken.as_slice(), &REPLIES);
    }
    drop(seats);
    drop(board);
    Ok(())
}
