//! Sessions: lines that are answered with a seat, with one try a line.
ghost use Rattle.std.specs.Prelude.{◌≡◌};
ghost use Rattle.lv_lines.specs.Output.{HasRoom};
ghost use Rattle.lv_lines.specs.Replies.{LinesServed};
ghost use Rattle.lv_board.specs.Answerer.{IsAnswered, IsReady, IsRight, LeavesHeld, LeavesSeats};
ghost use Rattle.lv_board.specs.PlainBoard.{PlainBoardStep, sat_of};
ghost use Rattle.lv_board.specs.Rule.{terms_of, limits_of};
ghost use Rattle.lv_board.specs.Session.{BoardStep};
ghost use Rattle.lv_board.specs.Sitting.{Sitting, SittingStep};
ghost use Rattle.lv_board.specs.Tells.{actor_of, IsAt, Stays};

use crate::answering::{Answerer, ByCall, SeatedAs, answer_line};
use crate::board::Board;
use crate::bodies::BoardBody;
use crate::seats::Seat;
use lv_bodies::Kind;
use lv_machine::Call;
use lv_script::{
    Fault, LINE, Line, LineHandler, MOST_READ, ReplyBuffer, read_board_line, serve_lines,
};
use std::alloc::Global;
use std::io::{Read, Write};
use std::marker::PhantomData;

/// Answers the lines of a session with a seat: pushes, pops, writes, reads, sizes, reductions by the board's kind and refreshes, with one try
/// each. Every other line that isn't empty is bad. The seat is one of this board's, and stays the caller's.
///
/// Ends with the faults of a script. Updates that were accepted before a fault stay.
pub fn run_board_session<B: BoardBody, R: Read, W: Write>(
    alloc: Global,
    board: &Board<B>,
    seat: &mut Seat<B>,
    reader: &mut R,
    writer: &mut W,
) -> Result<(), Fault>
    requires here { IsAt board.now.table.shared.table_id board.now.terms seat.old }
    ensures stays { Stays seat.old seat.new }
    ensures lines_served { LinesServed (BoardStep (terms_of B.folding board.now.terms) (B.operations board.now.terms.body) B.the_kind (B.shown_as board.now.terms.body))
        (actor_of seat.old) (actor_of seat.new) (R.remaining reader.old) (R.remaining reader.new) (W.contents writer.old) (W.contents writer.new) result }
    // Line by line the replies are those of the reference model: each call is answered after an earlier state of one history.
    ensures plain { LinesServed (PlainBoardStep (limits_of board.now.terms) B.the_kind (B.plain board.now.terms.body))
        (sat_of (actor_of seat.old)) (sat_of (actor_of seat.new)) (R.remaining reader.old) (R.remaining reader.new) (W.contents writer.old) (W.contents writer.new) result }
{
    let call = |seat: &mut Seat<B>, number: u32, line: Line<Call>, held: &mut Vec<u8>|
        requires here { IsAt board.now.table.shared.table_id board.now.terms seat.old }
        requires room { HasRoom held.old LINE }
        ensures { IsAnswered B.folding B.operations B.the_kind B.shown_as board.entry.now.terms seat.old number line held.old seat.new held.new }
    {
        answer_line(board, seat, number, line, held);
    };
    let kind = board.terms.body.kind();
    hold::<Seat<B>, B, ByCall<_>, R, W>(alloc, kind, seat, &ByCall { call }, reader, writer)
}

// Runs a session with a seat. An answerer answers its lines.
fn hold<S, B: SeatedAs<S>, A: Answerer<S>, R: Read, W: Write>(
    alloc: Global,
    kind: Kind,
    seat: &mut S,
    answerer: &A,
    reader: &mut R,
    writer: &mut W,
) -> Result<(), Fault>
    requires kind { kind ≡ B.the_kind }
    requires ready { IsReady B.seat_of A.may answerer.now (B.seat_of seat.old) }
    requires right { IsRight B.seat_of A.does answerer.now B.folding B.operations B.the_kind B.shown_as (B.seat_of seat.old).terms }
    ensures stays { Stays (B.seat_of seat.old) (B.seat_of seat.new) }
    ensures lines_served { let z = (B.seat_of seat.old).terms in LinesServed (BoardStep (terms_of B.folding z) (B.operations z.body) B.the_kind (B.shown_as z.body))
        (actor_of (B.seat_of seat.old)) (actor_of (B.seat_of seat.new)) (R.remaining reader.old) (R.remaining reader.new) (W.contents writer.old) (W.contents writer.new) result }
{
    let mut session: Session<'_, '_, S, B, A> = Session {
        kind,
        seat,
        answerer,
        of: PhantomData,
    };
    serve_lines(MOST_READ, alloc, &mut session, reader, writer)
}

// The line handler of a session.
#[derive(Drop)]
struct Session<'s, 'a, S, B: SeatedAs<S>, A: Answerer<S>> {
    kind: Kind,
    seat: &'s mut S,
    answerer: &'a A,
    of: PhantomData<B>,
    ghost own: { kind ≡ B.the_kind },
    ghost ready: { IsReady B.seat_of A.may answerer.now (B.seat_of seat.now) },
    ghost seats: { LeavesSeats B.seat_of A.does answerer.now },
    ghost held: { LeavesHeld B.seat_of A.does answerer.now },
}

impl<'s, 'a, S, B: SeatedAs<S> + BoardBody, A: Answerer<S>, W: Write> LineHandler<W>
    for Session<'s, 'a, S, B, A> {
    ghost State = { Sitting A S };

    ghost state = { λ s. record { answerer = s.answerer.now; seat = s.seat.now; name = s.seat.ghost_name } };

    ghost step = { SittingStep A.does B.the_kind };

    ghost may_send = { λ _. Unit {0} };

    fn handle(
        &mut self,
        number: u32,
        line: &[u8],
        buffer: &mut ReplyBuffer<'_, W>,
    ) -> Result<(), Fault> {
        buffer.make_room(LINE)?;
        let line = read_board_line(self.kind, line);
        self.answerer.answer(self.seat, number, line, buffer.held);
        Ok(())
    }

    fn before_send(&self) -> Result<(), Fault> {
        Ok(())
    }
}
