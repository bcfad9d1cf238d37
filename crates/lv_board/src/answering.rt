//! How a line of a session is answered.
ghost use Rattle.std.specs.Prelude.{◌≡◌, ◌++◌, ℕ, List};
ghost use Rattle.lv_lines.specs.Output.{HasRoom, KeepsRoom};
ghost use Rattle.lv_board.specs.Answerer.{HasCalled, MayCall};
ghost use Rattle.lv_board.specs.Rule.{terms_of};
ghost use Rattle.lv_board.specs.Session.{BoardAnswer};
ghost use Rattle.lv_board.specs.Tells.{actor_of, IsAt, Stays};

use crate::board::Board;
use crate::bodies::BoardBody;
use crate::calls::asked_block;
use crate::seats::Seat;
use lv_machine::Call;
use lv_script::{LINE, Line, put_bad, put_said, said_shown};

// Gives the seat that a value of the type `S` represents, with this monoid instance.
pub(crate) trait SeatedAs<S>: BoardBody {
    ghost use Rattle.lv_board.specs.declared.seats.Seat.{Seat};

    ghost seat_of: { S → Seat Self };
}

impl<B: BoardBody> SeatedAs<Seat<B>> for B {
    ghost seat_of = { λ s. s };
}

// What answers the lines of a session with a seat, which is an `S`.
//
// A call of a board is proved for monoid instances that may be sent to other threads. A method of an `impl` for every instance may assume only
// that it stays in one thread, so it can't make such a call. A function can, and so can a closure in it. Therefore a session calls a closure, by
// the closure's contract.
pub(crate) trait Answerer<S> {
    ghost use Rattle.std.specs.Prelude.{Vec};
    ghost use Rattle.std.specs.declared.alloc.Global.{Global};
    ghost use Rattle.lv_lines.specs.declared.lines.Line.{Line};
    ghost use Rattle.lv_machine.specs.declared.events.Call.{Call};

    // It may be asked with a seat and a buffer.
    ghost may: { Self → S → ℕ → Line Call → Vec ℕ Global → Type 0 };

    // When it is asked in this way, it may leave this seat and this buffer.
    ghost does: { Self → S → ℕ → Line Call → Vec ℕ Global → S → Vec ℕ Global → Type 0 };

    fn answer(&self, seat: &mut S, number: u32, line: Line<Call>, held: &mut Vec<u8>)
        requires { ∥ may self.now seat.old number line held.old ∥₁ }
        ensures { does self.now seat.old number line held.old seat.new held.new };
}

// An answerer that calls a closure.
#[derive(Drop)]
pub(crate) struct ByCall<F> {
    pub(crate) call: F,
}

impl<S, F: Fn(&mut S, u32, Line<Call>, &mut Vec<u8>)> Answerer<S> for ByCall<F> {
    ghost may = { λ by. MayCall (F.pre by.call) };

    ghost does = { λ by. HasCalled (F.post by.call) };

    fn answer(&self, seat: &mut S, number: u32, line: Line<Call>, held: &mut Vec<u8>) {
        (self.call)(seat, number, line, held);
    }
}

// Answers a line, and puts the reply after what is buffered.
pub(crate) fn answer_line<B: BoardBody>(
    board: &Board<B>,
    seat: &mut Seat<B>,
    number: u32,
    line: Line<Call>,
    held: &mut Vec<u8>,
)
    requires here { IsAt board.now.table.shared.table_id board.now.terms seat.old }
    requires room { HasRoom held.old LINE }
    ensures stays { Stays seat.old seat.new }
    ensures answer { (text : List ℕ)
        × BoardAnswer (terms_of B.folding board.now.terms) (B.operations board.now.terms.body) B.the_kind (B.shown_as board.now.terms.body) (actor_of seat.old) number line text (actor_of seat.new)
        × (held.new.items ≡ held.old.items ++ text) }
    ensures room { KeepsRoom held.old held.new }
{
    match line {
        Line::Nothing => {}
        Line::Bad => put_bad(held, number),
        Line::Do(call) => {
            let said = board.make(seat, call);
            put_said(
                held,
                board.terms.body.kind(),
                asked_block(call),
                said_shown(&board.terms.body, said),
            );
        }
    }
}
